// The opening of a tune.
ghost use Rattle.std.specs.Prelude.{◌≡◌, ◌≤◌, length, IfOk};
ghost use Rattle.num_fix.specs.Limits.{max_frames};
ghost use Rattle.dsp_core.specs.DspChip.{dsp_chip, dsp_saving};
ghost use Rattle.page_pool.specs.Pool.{max_pages};
ghost use Rattle.cut_form.specs.Checkpoints.{min_pages};
ghost use Rattle.cut_form.specs.GrowingFrames.{AreOfRun};
ghost use Rattle.cut_form.specs.CutBook.{opened_book};
ghost use Rattle.cut_server.specs.Server.{opening, pages_at, frames_to, chip_at};
ghost use Rattle.cut_server.specs.ServerState.{book_of, slots_of};
ghost use Rattle.render_core.specs.RenderState.{frames_to_come, records_to_come, counts_to_come};
ghost use Rattle.tune_opening.specs.Tune.{opened_tune, tune_frames, tune_pages, tune_chip, tune_records, tune_counts};

use crate::OutOfMemory;
use cut_server::CutServer;
use dsp_core::Dsp;
use gauss_table::GaussTable;
use render_core::Render;
use spc_form::SpcFile;
use std::alloc::Global;

/// Opens the render of so many samples of a file over a table, an hour at most, with these voices muted. It emits the
/// records of the voices in the mask; bit v of either is voice v.
pub fn open_tune(
    alloc: Global,
    file: &SpcFile,
    table: GaussTable,
    muted: u8,
    samples: u32,
    mask: u8,
) -> Result<Render<Dsp>, OutOfMemory>
    requires { samples ≤ max_frames }
    ensures samples { IfOk result (λ render. render.samples ≡ samples) }
    ensures count { IfOk result (λ render. length (frames_to_come dsp_chip render) ≡ samples) }
    ensures frames { IfOk result (λ render. frames_to_come dsp_chip render ≡ tune_frames file.now table muted mask samples) }
    ensures records { IfOk result (λ render. records_to_come dsp_chip render ≡ tune_records file.now table muted mask samples) }
    ensures counts { IfOk result (λ render. counts_to_come dsp_chip render ≡ tune_counts file.now table muted mask samples) }
{
    let chip = Dsp::open(alloc, file.dsp(), table, muted)?;
    Render::open(alloc, file, chip, samples, mask)
}

/// Opens a server of the cuts of a file's tune over a table, with these voices muted and so many pages for its checkpoints.
/// Its frames, the pages of its memory, and its chip are those of the tune's run.
pub fn open_server(
    alloc: Global,
    file: &SpcFile,
    table: GaussTable,
    muted: u8,
    pages: u32,
) -> Result<CutServer<Dsp>, OutOfMemory>
    requires enough { min_pages ≤ pages }
    requires few { pages ≤ max_pages }
    ensures opening { IfOk result (λ server. opening dsp_chip dsp_saving server ≡ opened_tune file.now table muted 0) }
    ensures frames { IfOk result (λ server. frames_to dsp_chip dsp_saving server ≡ tune_frames file.now table muted 0) }
    ensures run { IfOk result (λ server. AreOfRun (frames_to dsp_chip dsp_saving server)) }
    ensures pages { IfOk result (λ server. pages_at dsp_chip dsp_saving server ≡ tune_pages file.now table muted) }
    ensures chip { IfOk result (λ server. chip_at dsp_chip dsp_saving server ≡ tune_chip file.now table muted) }
    ensures book { IfOk result (λ server. book_of server ≡ opened_book (tune_pages file.now table muted)) }
    ensures slots { IfOk result (λ server. slots_of server ≡ pages) }
{
    let chip = Dsp::open(alloc, file.dsp(), table, muted)?;
    let server = CutServer::open(alloc, file, chip, pages)?;
    Ok(server)
}

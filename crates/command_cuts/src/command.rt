// The command `cuts`: the cuts of a list, each a slice of a tune's run.
ghost use Rattle.std.specs.Prelude.{◌≡◌, ◌++◌, IfOk, [], ◌∷◌};
ghost use Rattle.wav_form.specs.Wave.{header_of, stereo_wave};
ghost use Rattle.dsp_core.specs.DspChip.{dsp_chip, dsp_saving};
ghost use Rattle.snd_host.specs.Host.{HostState};
ghost use Rattle.input_files.specs.Reading.{input_limit, input_up_to};
ghost use Rattle.input_files.specs.Inputs.{table_input};
ghost use Rattle.command_runner.specs.NamedInputs.{Held, first, second};
ghost use Rattle.command_runner.specs.Conduct.{Plans, PreparesBy};
ghost use Rattle.command_runner.specs.OutputCalls.{at_once};
ghost use Rattle.command_runner.specs.RunCalls.{AttemptsBy};
ghost use Rattle.command_runner.specs.Delivery.{CanDeliver};
ghost use Rattle.command_runner.specs.Plan.{stream_makes};
ghost use Rattle.cut_form.specs.CutBook.{cut_book};
ghost use Rattle.cut_form.specs.Slices.{cut_frames, cut_samples};
ghost use Rattle.session_files.specs.CutFiles.{cuts_report, to_come_of, report_of};
ghost use Rattle.tune_opening.specs.Tune.{tune_frames, tune_pages};
ghost use Rattle.command_cuts.specs.Cuts.{list_answer, table_answer, file_answer, cuts_over, cuts_inputs};

use crate::list::read_list;
use command_runner::{OutOfMemory, Refusal, StreamedPlan, carry_stream};
use cut_form::SLOTS_FOR_CUTS;
use cut_text::CutList;
use dsp_core::Dsp;
use exit_status::Cause;
use gauss_table::GaussTable;
use input_files::{read_file, read_table};
use session_files::CutFiles;
use snd_host::Host;
use spc_form::SpcFile;
use std::alloc::Global;
use tune_opening::open_server;
use wav_form::header;

/// The names of the inputs of `cuts`, and of its sound file.
#[derive(Clone, Copy)]
struct Names<'a> {
    file: &'a str,
    table: &'a str,
    list: &'a str,
    wave: &'a str,
}

/// Opens the cuts of a list over a file and a table, with these voices muted.
fn open_cuts(
    alloc: Global,
    file: &SpcFile,
    table: GaussTable,
    muted: u8,
    cuts: CutList,
) -> Result<CutFiles<Dsp>, OutOfMemory>
    ensures wave { IfOk result (λ files. header_of 2 (cut_samples cuts) ++ (to_come_of dsp_chip dsp_saving files).wave
        ≡ stereo_wave (cut_frames (tune_frames file.now table muted 0) cuts)) }
    ensures report { IfOk result (λ files. report_of dsp_chip dsp_saving files ≡ cuts_report cuts (cut_book (tune_pages file.now table muted) cuts)) }
{
    let server = open_server(alloc, file, table, muted, SLOTS_FOR_CUTS)?;
    let files = CutFiles::open(alloc, server, cuts)?;
    Ok(files)
}

/// Makes the plan for a file, a table and cuts. The size of the sound file is known from the cuts.
fn plan<'a>(
    alloc: Global,
    file: &SpcFile,
    table: GaussTable,
    cuts: CutList,
    wave: &'a str,
    muted: u8,
) -> Result<StreamedPlan<'a, CutFiles<Dsp>>, Refusal<Cause>>
    ensures { let answer = list_answer wave.now muted file.now table cuts in
        Plans (stream_makes (to_come_of dsp_chip dsp_saving) (report_of dsp_chip dsp_saving)) answer result }
{
    let head = Vec::from_slice(alloc, &header(2, cuts.samples()))?;
    let source = open_cuts(alloc, file, table, muted, cuts)?;
    Ok(StreamedPlan {
        wave,
        trace: None,
        head,
        source,
    })
}

/// Reads the list and makes the plan for it, a file and a table.
fn prepare_list<'a, H: Host>(
    alloc: Global,
    host: &mut H,
    file: &SpcFile,
    table: GaussTable,
    names: Names<'a>,
    muted: u8,
) -> Result<StreamedPlan<'a, CutFiles<Dsp>>, Refusal<Cause>>
    ensures { let answer = λ (held : Held). table_answer names.entry.wave.now muted (first held) file.now table in
        PreparesBy (stream_makes (to_come_of dsp_chip dsp_saving) (report_of dsp_chip dsp_saving)) answer
        (input_up_to input_limit names.entry.list.now ∷ []) (H.state host.old) (H.state host.new) result }
{
    let cuts = read_list(alloc, host, names.list)?;
    plan(alloc, file, table, cuts, names.wave, muted)
}

/// Reads the table and the list and makes the plan for them and a file.
fn prepare_table<'a, H: Host>(
    alloc: Global,
    host: &mut H,
    file: &SpcFile,
    names: Names<'a>,
    muted: u8,
) -> Result<StreamedPlan<'a, CutFiles<Dsp>>, Refusal<Cause>>
    ensures { let answer = λ (held : Held). file_answer names.entry.wave.now muted (first held) (second held) file.now in
        PreparesBy (stream_makes (to_come_of dsp_chip dsp_saving) (report_of dsp_chip dsp_saving)) answer
        (table_input names.entry.table.now ∷ input_up_to input_limit names.entry.list.now ∷ []) (H.state host.old) (H.state host.new) result }
{
    let table = read_table(alloc, host, names.table)?;
    prepare_list(alloc, host, file, table, names, muted)
}

/// Reads the file, the table and the list and makes the plan for them.
fn prepare<'a, H: Host>(
    alloc: Global,
    host: &mut H,
    names: Names<'a>,
    muted: u8,
) -> Result<StreamedPlan<'a, CutFiles<Dsp>>, Refusal<Cause>>
    ensures { let answer = cuts_over names.entry.wave.now muted in
        PreparesBy (stream_makes (to_come_of dsp_chip dsp_saving) (report_of dsp_chip dsp_saving)) answer
        (cuts_inputs names.entry.file.now names.entry.table.now names.entry.list.now) (H.state host.old) (H.state host.new) result }
{
    let file = read_file(alloc, host, names.file)?;
    prepare_table(alloc, host, &file, names, muted)
}

/// Renders the cuts of the list, of the tune of the file and the table with these voices muted, joined to the sound file, and
/// reports how many they are, what they took and what was made for them.
pub fn cuts<H: Host>(
    alloc: Global,
    host: &mut H,
    file: &str,
    table: &str,
    list: &str,
    wave: &str,
    muted: u8,
) -> Option<Refusal<Cause>>
    requires outputs { CanDeliver (H.state host.old) }
    ensures attempts { let answer = cuts_over wave.now muted in
        AttemptsBy at_once answer (cuts_inputs file.now table.now list.now) result (H.state host.old) (H.state host.new) }
    ensures not_usage { result ≡ Some Refusal.Usage → ⊥ }
{
    let names = Names {
        file,
        table,
        list,
        wave,
    };
    let prepared = prepare(alloc, host, names, muted);
    carry_stream(host, prepared)
}

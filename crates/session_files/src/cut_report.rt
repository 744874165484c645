// The report on cuts.
ghost use Rattle.std.specs.Prelude.{◌≡◌, ◌+◌, ◌≤◌, ◌++◌, [], length, decimal};
ghost use Rattle.cut_form.specs.declared.cut.Cut.{Cut};
ghost use Rattle.cut_form.specs.Checkpoints.{slots_used};
ghost use Rattle.cut_form.specs.CutBook.{slots_for_cuts};
ghost use Rattle.cut_form.specs.Slices.{cut_samples};
ghost use Rattle.cut_server.specs.ServerState.{book_of, slots_of};
ghost use Rattle.session_files.specs.CutFiles.{cuts_report};

use chip_form::Chip;
use cut_form::SLOTS_FOR_CUTS;
use cut_server::CutServer;
use cut_text::CutList;
use report_text::{FixedBuffer, put_count};

/// Writes the report on cuts that were played, by the server that played them.
#[tactic(auto, unfolding(crate::specs::CutFiles::cuts_report))]
pub(crate) fn put_cut_report<C: Chip>(
    report: &mut FixedBuffer,
    cuts: &CutList,
    server: &CutServer<C>,
)
    requires slots { slots_of server.now ≡ slots_for_cuts }
    requires used { slots_used (book_of server.now).live ≤ slots_for_cuts }
    ensures { report.new ≡ cuts_report cuts.now (book_of server.now) }
{
    report.clear();
    put_count(report, b"cuts ", cuts.as_slice().len() as u64);
    put_count(report, b" samples ", u64::from(cuts.samples()));
    put_count(report, b" checkpoints ", u64::from(server.count()));
    put_count(
        report,
        b" pages ",
        u64::from(SLOTS_FOR_CUTS - server.free()),
    );
    put_count(report, b" made ", server.work());
    report.append(b"\n");
}

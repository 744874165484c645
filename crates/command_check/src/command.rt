// The command `check`: sums over the frames of a demo file, and the counts of its batches.
ghost use Rattle.std.specs.Prelude.{◌≡◌, ◌≤◌, IfOk, length, []};
ghost use Rattle.dsp_core.specs.DspChip.{dsp_chip};
ghost use Rattle.render_core.specs.RenderState.{frames_to_come, counts_to_come};
ghost use Rattle.snd_host.specs.Host.{HostState};
ghost use Rattle.command_runner.specs.NamedInputs.{Held};
ghost use Rattle.command_runner.specs.Answer.{done};
ghost use Rattle.command_runner.specs.Conduct.{Plans};
ghost use Rattle.command_runner.specs.OutputCalls.{at_once};
ghost use Rattle.command_runner.specs.RunCalls.{AttemptsBy};
ghost use Rattle.command_runner.specs.Delivery.{CanDeliver};
ghost use Rattle.command_runner.specs.Plan.{plan_makes};
ghost use Rattle.command_check.specs.Check.{checked_samples, sums_of, demo_frames, demo_counts, check_report, check_answer};

use crate::sums::{Sums, sums_with_all};
use command_runner::{OutOfMemory, Plan, Refusal, carry_out};
use dsp_core::Dsp;
use exit_status::Cause;
use gauss_table::GaussTable;
use lock_step::Counts;
use render_core::Render;
use render_files::put_batches;
use report_text::{FixedBuffer, put_named, put_signed};
use snd_host::Host;
use std::alloc::Global;
use tune_opening::open_tune;

/// Ten seconds.
const SAMPLES: u32 = 320000;

/// The sums of all frames to come.
fn sums_of(render: &mut Render<Dsp>) -> Sums
    requires { length (frames_to_come dsp_chip render.old) ≤ checked_samples }
    ensures sums { result ≡ sums_of (frames_to_come dsp_chip render.old) }
    ensures counts { render.new.bus.book.counts ≡ counts_to_come dsp_chip render.old }
{
    let mut sums = Sums {
        left: 0,
        right: 0,
        mix: 0,
    };
    let mut before = 0;
    'pieces: loop {
        let piece = render.next_piece();
        sums = sums_with_all(sums, piece.frames, before);
        before += piece.frames.len() as u32;
        if piece.done {
            return sums;
        }
    }
}

/// The report on sums and batches.
fn report(alloc: Global, sums: Sums, counts: Counts) -> Result<Vec<u8>, OutOfMemory>
    ensures { IfOk result (λ report. report.items ≡ check_report sums counts) }
{
    let mut report = Vec::new(alloc);
    put_named(&mut report, b"samples ", u64::from(SAMPLES))?;
    put_signed(&mut report, b"\nleft ", sums.left)?;
    put_signed(&mut report, b"\nright ", sums.right)?;
    put_named(&mut report, b"\nmix ", u64::from(sums.mix))?;
    report.extend_from_slice(b"\n")?;
    let mut batches = FixedBuffer::new(alloc)?;
    put_batches(&mut batches, counts);
    report.extend_from_slice(batches.as_slice())?;
    Ok(report)
}

/// The sums of a render and the counts of its batches.
#[derive(Clone, Copy)]
struct Findings {
    sums: Sums,
    counts: Counts,
}

/// Renders the demo file of a number, and sums its frames.
fn sum_demo(alloc: Global, number: u32) -> Result<Findings, OutOfMemory>
    ensures sums { IfOk result (λ findings. findings.sums ≡ sums_of (demo_frames number)) }
    ensures counts { IfOk result (λ findings. findings.counts ≡ demo_counts number) }
{
    let file = demo_gen::demo(alloc, number)?;
    let table = GaussTable::straight(alloc)?;
    let mut render = open_tune(alloc, &file, table, 0, SAMPLES, 0)?;
    let sums = sums_of(&mut render);
    Ok(Findings {
        sums,
        counts: render.counts(),
    })
}

/// The plan with its report.
fn plan_report<'a>(alloc: Global, number: u32) -> Result<Plan<'a>, OutOfMemory>
    ensures { IfOk result (λ plan. check_answer number ≡ done (plan_makes plan).outputs (plan_makes plan).report) }
{
    let findings = sum_demo(alloc, number)?;
    let report = report(alloc, findings.sums, findings.counts)?;
    Ok(Plan {
        output: None,
        report,
    })
}

/// Makes the plan.
fn plan<'a>(alloc: Global, number: u32) -> Result<Plan<'a>, Refusal<Cause>>
    ensures { Plans plan_makes (check_answer number) result }
{
    Ok(plan_report(alloc, number)?)
}

/// Reports sums over the frames of the demo file of a number, rendered for ten seconds, and its batches.
pub fn check<H: Host>(alloc: Global, host: &mut H, number: u32) -> Option<Refusal<Cause>>
    requires { CanDeliver (H.state host.old) }
    ensures attempts { let answer = λ (held : Held). check_answer number in
        AttemptsBy at_once answer [] result (H.state host.old) (H.state host.new) }
    ensures not_usage { result ≡ Some Refusal.Usage → ⊥ }
{
    let prepared = plan(alloc, number);
    carry_out(host, prepared)
}

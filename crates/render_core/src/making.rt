// One piece, over any bus that emits.
ghost use Rattle.std.specs.Prelude.{nat_le, ◌≡◌, ◌+◌, ◌*◌, ◌<◌, ◌≤◌, [], length, true, false};
ghost use Rattle.render_core.specs.BetweenSteps.{IsBetweenSteps, RunsAlike, HandsOver, IsOver};
ghost use Rattle.num_fix.specs.Limits.{max_frames};
ghost use Rattle.render_core.specs.Items.{run_frames, records_before};
ghost use Rattle.lock_step.specs.Emits.{IsCountedOn};

use crate::OutOfMemory;
use lock_step::{DrainedBus, sample_number};
use spc700_exec::{CYCLES_PER_SAMPLE, Cpu};
use std::alloc::Global;
use trace_form::{Frames, Records};

/// Takes over the records that stand before the last frame. After it a step may have emitted more.
fn keep_records_before(drained: &Records, samples: u32, records: &mut Records)
    ensures { records.new ≡ records_before samples drained.now }
{
    records.clear();
    for item in drained.as_slice() {
        if sample_number(*item) < samples {
            records.push(*item);
        }
    }
}

/// Makes all pending samples, once the last one is there.
fn settle_at_end<B: DrainedBus>(bus: &mut B, samples: u32)
    ensures frames { B.emits.frames bus.new ≡ B.emits.frames bus.old }
    ensures records { B.emits.records bus.new ≡ B.emits.records bus.old }
    ensures still { B.means.due bus.old < samples → bus.new ≡ bus.old }
    ensures clock { B.means.clock bus.new ≡ B.means.clock bus.old }
    ensures calls { B.means.calls bus.new ≡ B.means.calls bus.old }
    ensures at_rest { B.emits.at_rest bus.new ≡ B.emits.at_rest bus.old }
    ensures counted { IsCountedOn B.means B.emits bus.old bus.new }
    ensures pending { samples ≤ B.means.due bus.old → B.emits.pending bus.new ≡ 0 }
{
    if bus.due() >= samples {
        bus.settle();
    }
}

/// The lists of a piece, one for the records as they are drained, and how long no iterations are tried.
#[derive(Drop)]
pub(crate) struct Lists {
    pub(crate) frames: Frames,
    pub(crate) records: Records,
    pub(crate) drained: Records,
    pub(crate) pause: TrialPause,
}

impl Lists {
    ghost use Rattle.std.specs.Prelude.{IfOk};

    /// Empty lists, with all their capacity.
    pub(crate) fn reserve(alloc: Global) -> Result<Lists, OutOfMemory>
        ensures frames { IfOk result (λ lists. lists.frames ≡ []) }
        ensures records { IfOk result (λ lists. lists.records ≡ []) }
        ensures drained { IfOk result (λ lists. lists.drained ≡ []) }
    {
        Ok(Lists {
            frames: Frames::new(alloc)?,
            records: Records::new(alloc)?,
            drained: Records::new(alloc)?,
            pause: TrialPause::none(),
        })
    }
}

/// The longest pause between two trials.
const LONGEST_TRIAL_PAUSE: u8 = 63;

/// How long no iterations are tried, in multiples of the calls that the bus has room for. After a trial by which no sample fell due it is twice as long
/// as before and one more, up to the longest one.
#[derive(Drop)]
pub(crate) struct TrialPause {
    left: u8,
    length: u8,
}

impl TrialPause {
    pub(crate) fn none() -> TrialPause {
        TrialPause { left: 0, length: 0 }
    }

    /// Whether it is time for a trial.
    fn is_over(&self) -> bool {
        self.left == 0
    }

    /// Begins the pause after a trial.
    fn begin(&mut self, was_found: bool) {
        self.length = if was_found {
            0
        } else {
            self.length
                .saturating_mul(2)
                .saturating_add(1)
                .min(LONGEST_TRIAL_PAUSE)
        };
        self.left = self.length;
    }
}

/// Where it is time for a trial, makes at once whole iterations of the loop at which the processor stands, as far as they only wait.
fn make_iterations_if_due<B: DrainedBus>(
    cpu: &Cpu,
    bus: &mut B,
    samples: u32,
    pause: &mut TrialPause,
)
    requires more { B.means.due bus.old < samples }
    requires few { samples ≤ max_frames }
    ensures alike { RunsAlike B.means B.emits samples (cpu.now, bus.old) (cpu.now, bus.new) }
    ensures later { B.means.clock bus.old ≤ B.means.clock bus.new }
    ensures more { B.means.due bus.new < samples }
    ensures calls { B.means.calls bus.new ≡ B.means.calls bus.old }
{
    if pause.is_over() {
        let before = bus.due();
        bus.wait(cpu, samples);
        pause.begin(before < bus.due());
    }
}

/// Steps of the run, one at least: iterations that only wait, where it is time for a trial, and steps one by one until the run ends, the
/// processor halts, or the room for calls is filled and something is to be drained or it is time for a trial again.
fn take_iterations_and_steps<B: DrainedBus>(
    cpu: &mut Cpu,
    bus: &mut B,
    samples: u32,
    pause: &mut TrialPause,
)
    requires calls { B.means.calls bus.old ≡ 0 }
    requires more { B.means.due bus.old < samples }
    requires few { samples ≤ max_frames }
    ensures alike { RunsAlike B.means B.emits samples (cpu.old, bus.old) (cpu.new, bus.new) }
    ensures later { B.means.clock bus.old < B.means.clock bus.new }
{
    make_iterations_if_due(cpu, bus, samples, pause);
    pause.left = bus.take_steps(cpu, samples, pause.left);
}

/// Some steps, and what was emitted with them.
fn step_and_drain<B: DrainedBus>(cpu: &mut Cpu, bus: &mut B, samples: u32, lists: &mut Lists)
    requires no_calls { B.means.calls bus.old ≡ 0 }
    requires more { B.means.due bus.old < samples }
    requires few { samples ≤ max_frames }
    ensures hands_over { HandsOver B.means B.emits samples (cpu.old, bus.old) (cpu.new, bus.new) lists.new.frames lists.new.records }
    ensures between_steps { IsBetweenSteps B.means B.emits samples bus.new }
    ensures later { B.means.clock bus.old < B.means.clock bus.new }
{
    take_iterations_and_steps(cpu, bus, samples, &mut lists.pause);
    settle_at_end(bus, samples);
    bus.drain(&mut lists.frames, &mut lists.drained);
    keep_records_before(&lists.drained, samples, &mut lists.records);
}

/// Makes the next piece of a run to so many samples, and returns whether it is the last one: steps until a frame or a record
/// was emitted, or all samples are made. It looks only where the bus ends its steps.
pub(crate) fn make_piece<B: DrainedBus>(
    cpu: &mut Cpu,
    bus: &mut B,
    samples: u32,
    lists: &mut Lists,
) -> bool
    requires between_steps { IsBetweenSteps B.means B.emits samples bus.old }
    requires few { samples ≤ max_frames }
    ensures hands_over { HandsOver B.means B.emits samples (cpu.old, bus.old) (cpu.new, bus.new) lists.new.frames lists.new.records }
    ensures between_steps { IsBetweenSteps B.means B.emits samples bus.new }
    ensures over { result ≡ true → IsOver B.means B.emits samples (cpu.new, bus.new) }
    ensures some { result ≡ false → 0 < length lists.new.frames + length lists.new.records }
    ensures more { result ≡ false → 0 < length (run_frames B.means B.emits samples (cpu.new, bus.new)) }
    ensures later { result ≡ false → B.means.clock bus.old < B.means.clock bus.new }
    ensures below { result ≡ false → B.means.clock bus.new < CYCLES_PER_SAMPLE * samples }
    ensures at_length { result ≡ nat_le samples (B.means.due bus.new) }
{
    lists.frames.clear();
    lists.records.clear();
    'steps: while bus.due() < samples
        && lists.frames.as_slice().is_empty()
        && lists.records.as_slice().is_empty()
    {
        step_and_drain(cpu, bus, samples, lists);
    }
    bus.due() >= samples
}

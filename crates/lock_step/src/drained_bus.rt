// A bus that emits frames and records and is drained.
ghost use Rattle.std.specs.Prelude.{◌≡◌, ◌<◌, ◌≤◌, ◌++◌, [], nat_le};
ghost use Rattle.spc700_exec.specs.Emitting.{IsEmitting};
ghost use Rattle.lock_step.specs.Emits.{Emits, IsFrameEach, IsCountedOn, IsCounting, IsBeside};
ghost use Rattle.num_fix.specs.Limits.{max_frames};
ghost use Rattle.lock_step.specs.WaitOfIterations.{IsWaitOf};
ghost use Rattle.lock_step.specs.StepsOfRun.{AreStepsOf};
ghost use Rattle.spc700_exec.specs.Bus.{max_calls_before_step};

use spc700_exec::{Bus, Cpu};
use trace_form::{Frames, Records};

/// A bus beneath which frames and records are emitted.
pub trait DrainedBus: Bus {
    /// What was emitted since the last drain and the bus without it, the pending samples, the samples that the chip made in all,
    /// and the bus at rest.
    ghost emits: { Emits Self };

    /// The samples of the machine that are due: made or pending.
    fn due(&self) -> u32
        ensures { result ≡ Self.means.due self.now };

    /// Whether there is room for one more step before the next drain, for who makes the steps one by one.
    fn has_room_for_step(&self) -> bool
        ensures { result ≡ nat_le (Self.means.calls self.now) max_calls_before_step };

    /// Takes steps of the processor, one at least, of which none begins at the end of a run to so many samples. The bus may begin its
    /// calls anew, where nothing is to be drained, so many times; the answer is a hint, which no clause ties down: how many of these times
    /// are left.
    fn take_steps(&mut self, cpu: &mut Cpu, samples: u32, drain_budget: u8) -> u8
        requires calls { Self.means.calls self.old ≤ max_calls_before_step }
        requires more { Self.means.due self.old < samples }
        requires few { samples ≤ max_frames }
        ensures steps { AreStepsOf Self.means emits samples cpu.old self.old cpu.new self.new }
        ensures some { Self.means.clock self.old < Self.means.clock self.new };

    /// Makes at once whole iterations of the loop at which the processor stands, as far as they do nothing but wait and none comes
    /// to the end of a run to so many samples. How many it makes is free, down to none: no clause says it, and step by step
    /// they leave the same.
    fn wait(&mut self, cpu: &Cpu, samples: u32)
        requires more { Self.means.due self.old < samples }
        requires few { samples ≤ max_frames }
        ensures { IsWaitOf Self.means emits samples cpu.now self.old self.new };

    /// Makes all samples that are pending.
    fn settle(&mut self)
        ensures frames { emits.frames self.new ≡ emits.frames self.old }
        ensures records { emits.records self.new ≡ emits.records self.old }
        ensures clock { Self.means.clock self.new ≡ Self.means.clock self.old }
        ensures calls { Self.means.calls self.new ≡ Self.means.calls self.old }
        ensures at_rest { emits.at_rest self.new ≡ emits.at_rest self.old }
        ensures counted { IsCountedOn Self.means emits self.old self.new }
        ensures pending { emits.pending self.new ≡ 0 };

    /// Clears both lists and moves into them what was emitted; with samples pending, what stands before the first of them.
    fn drain(&mut self, frames: &mut Frames, records: &mut Records)
        ensures frames { emits.frames self.old ≡ frames.new ++ emits.frames self.new }
        ensures records { emits.records self.old ≡ records.new ++ emits.records self.new }
        ensures rest { emits.cleared self.new ≡ emits.cleared self.old }
        ensures calls { Self.means.calls self.new ≡ 0 }
        ensures pending { emits.pending self.new ≡ emits.pending self.old }
        ensures all_frames { emits.pending self.old ≡ 0 → emits.frames self.new ≡ [] }
        ensures all_records { emits.pending self.old ≡ 0 → emits.records self.new ≡ [] };

    ghost emits_frames: { IsEmitting Self.means emits.cleared emits.frames };

    ghost emits_records: { IsEmitting Self.means emits.cleared emits.records };

    ghost frame_each: { IsFrameEach Self.means emits.frames };

    ghost counting: { IsCounting Self.means emits };

    ghost beside: { IsBeside emits };
}

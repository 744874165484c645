// A bus that may be behind what runs on it.
ghost use Rattle.std.specs.Prelude.{◌≡◌, ◌+◌, ◌-◌, ◌*◌, ◌/◌, ◌<◌, ◌≤◌, true, false};
ghost use Rattle.aram_core.specs.Memory.{byte_at, with_byte};
ghost use Rattle.chip_form.specs.Limits.{max_samples_of_batch, max_samples_of_chip};
ghost use Rattle.spc700_exec.specs.Bus.{max_calls, max_calls_before_step, max_calls_of_step};
ghost use Rattle.spc700_exec.specs.Instruction.{step_outcome};
ghost use Rattle.lock_step.specs.LockStep.{samples_due};
ghost use Rattle.lag_bus.specs.Book.{may_be_read, may_be_written};
ghost use Rattle.lag_bus.specs.Held.{IsMemoryAlone};
ghost use Rattle.lag_bus.specs.Lagging.{Lagging, lagging, MatchesBook};
ghost use Rattle.lag_bus.specs.IdleCycles.{without_calls};
ghost use Rattle.lag_bus.specs.CachedClock.{caught_up, IsBehind, IsDrained, WritesWithin, ReadsWithin};

use chip_form::Chip;
use spc700_exec::{CYCLES_PER_SAMPLE, Cpu};

/// A bus that may be behind what runs on it, by cycles in which fewer samples fall due than a batch has room for. A call that needs its clock
/// and its calls is handed both, and has it catch up first.
pub trait DeferredBus {
    /// Its chip.
    type C: Chip;

    /// What contracts see of it.
    ghost shows: { Self → Lagging Self.C.State };

    /// Whether a mark shows that memory alone is at an address and that no sample to come writes it. `false` may come at any time: no
    /// clause says when it comes, and the bus then catches up before it is read.
    fn is_unwritten_memory(&self, addr: u16) -> bool
        ensures unwritten { result ≡ true → may_be_written (shows self.now).book.reach addr ≡ false }
        ensures alone { result ≡ true → IsMemoryAlone addr };

    /// Whether a mark shows that memory alone is at an address and that no sample to come reads it. `false` may come at any time: no
    /// clause says when it comes, and the bus then catches up before it is written.
    fn is_unread_memory(&self, addr: u16) -> bool
        ensures unread { result ≡ true → may_be_read (shows self.now).book.reach addr ≡ false }
        ensures alone { result ≡ true → IsMemoryAlone addr };

    /// The byte of memory at an address. Samples to come don't write it.
    fn byte(&self, addr: u16) -> u8
        requires { may_be_written (shows self.now).book.reach addr ≡ false }
        ensures byte { result ≡ byte_at (shows self.now).machine.memory addr }
        ensures writes { WritesWithin Self.C.meaning (shows self.now) };

    /// Puts a byte of memory at an address. Samples to come don't read it.
    fn put_unread(&mut self, addr: u16, value: u8)
        requires { may_be_read (shows self.old).book.reach addr ≡ false }
        ensures bus { let old = shows self.old in
            shows self.new ≡ record old { machine = record old.machine { memory = with_byte old.machine.memory addr value } } }
        ensures reads { ReadsWithin Self.C.meaning (shows self.old) };

    /// The clock.
    fn clock(&self) -> u64
        ensures clock { result ≡ (shows self.now).machine.clock }
        ensures book { MatchesBook (shows self.now) }
        ensures fits { result / CYCLES_PER_SAMPLE ≤ max_samples_of_chip };

    /// The calls since the last drain.
    fn calls(&self) -> u8
        ensures calls { result ≡ (shows self.now).machine.calls }
        ensures few { result ≤ max_calls };

    /// The clock at which as many samples are pending as one batch has at most, unless some are made before.
    fn flush_deadline(&self) -> u64
        ensures clock { result ≡ CYCLES_PER_SAMPLE * (samples_due (shows self.now).machine + (max_samples_of_batch - (shows self.now).book.pending)) }
        ensures free { (shows self.now).book.pending < max_samples_of_batch };

    /// Begins the calls anew, where nothing is to be drained but what waits for pending samples.
    fn begin_calls_anew(&mut self) -> bool
        ensures anew { result ≡ true → shows self.new ≡ without_calls (shows self.old) }
        ensures drained { result ≡ true → IsDrained (shows self.old) }
        ensures same { result ≡ false → shows self.new ≡ shows self.old };

    /// Lets the clock and the calls catch up with a later moment. The samples that fell due are pending.
    fn catch_up(&mut self, clock: u64, calls: u8)
        requires { IsBehind clock calls (shows self.old) }
        ensures { shows self.new ≡ caught_up Self.C.meaning clock calls (shows self.old) };

    /// A read at a later moment. It is asked for where no mark shows that memory alone is at the address.
    fn read_later(&mut self, clock: u64, calls: u8, addr: u16) -> u8
        requires behind { IsBehind clock calls (shows self.old) }
        requires room { calls < max_calls }
        ensures answer { result ≡ ((lagging Self.C.meaning).read (caught_up Self.C.meaning clock calls (shows self.old)) addr).0 }
        ensures next { shows self.new ≡ ((lagging Self.C.meaning).read (caught_up Self.C.meaning clock calls (shows self.old)) addr).1 };

    /// A write at a later moment. It is asked for where no mark shows that memory alone is at the address and that no sample reads it.
    fn write_later(&mut self, clock: u64, calls: u8, addr: u16, value: u8)
        requires behind { IsBehind clock calls (shows self.old) }
        requires room { calls < max_calls }
        ensures { shows self.new ≡ (lagging Self.C.meaning).write (caught_up Self.C.meaning clock calls (shows self.old)) addr value };

    /// A pass at a later moment.
    fn pass_later(&mut self, clock: u64, calls: u8, cycles: u8)
        requires behind { IsBehind clock calls (shows self.old) }
        requires room { calls < max_calls }
        requires some { 1 ≤ cycles }
        requires few { cycles ≤ CYCLES_PER_SAMPLE }
        requires time { clock / CYCLES_PER_SAMPLE < max_samples_of_chip }
        ensures { shows self.new ≡ (lagging Self.C.meaning).pass (caught_up Self.C.meaning clock calls (shows self.old)) cycles };

    /// A step of the processor at a later moment. It gives the registers after it.
    fn step_later(&mut self, clock: u64, calls: u8, cpu: Cpu) -> Cpu
        requires behind { IsBehind clock calls (shows self.old) }
        requires room { calls ≤ max_calls_before_step }
        requires time { clock / CYCLES_PER_SAMPLE < max_samples_of_chip - 1 }
        ensures does { (result, shows self.new) ≡ step_outcome (lagging Self.C.meaning) cpu (caught_up Self.C.meaning clock calls (shows self.old)) }
        ensures calls { (shows self.new).machine.calls ≤ calls + max_calls_of_step }
        ensures some { clock < (shows self.new).machine.clock };
}

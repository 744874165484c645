// A bus while the processor runs on it. Its calls are in line with the steps, so that its clock and its calls can be kept in registers.
ghost use Rattle.std.specs.Prelude.{◌≡◌, ◌+◌, ◌*◌, ◌/◌, ◌<◌, ◌≤◌, nat_le, true, false};
ghost use Rattle.std.proofs.Common.{refl};
ghost use Rattle.num_fix.specs.Limits.{max_frames};
ghost use Rattle.chip_form.specs.Limits.{max_samples_of_batch, max_samples_of_chip};
ghost use Rattle.spc700_exec.specs.Bus.{max_calls, max_calls_before_step};
ghost use Rattle.spc700_exec.specs.Instruction.{step_outcome};
ghost use Rattle.lock_step.specs.LockStep.{samples_due};
ghost use Rattle.lock_step.specs.StepsOfRun.{AreStepsOf};
ghost use Rattle.lag_bus.specs.Lagging.{lagging};
ghost use Rattle.lag_bus.specs.LagEmits.{lag_emits};
ghost use Rattle.lag_bus.specs.IdleCycles.{without_calls};
ghost use Rattle.lag_bus.specs.CachedClock.{MayFallBehind, cached};

use crate::deferred_bus::DeferredBus;
use spc700_exec::{Bus, CYCLES_PER_SAMPLE, Cpu, MAX_CALLS_BEFORE_STEP, step_awake};
use std::marker::Model;

/// The most cycles of an instruction that doesn't halt the processor.
const MAX_CYCLES: u64 = 12;

/// A bus while the processor runs on it. The bus may be left behind up to a moment of the clock that comes after some cycles.
#[derive(Drop)]
pub(crate) struct CachedClockBus<'a, B: DeferredBus> {
    pub(crate) bus: &'a mut B,
    pub(crate) samples: u32,
    /// The moment up to which the bus may be left behind, or the clock.
    pub(crate) until: u64,
    /// The cycles up to that moment.
    pub(crate) left: u64,
    pub(crate) calls: u8,
}

impl<'a, B: DeferredBus> Model for CachedClockBus<'a, B> {
    ghost use Rattle.std.specs.Prelude.{◌-◌, ◌<◌, ◌≤◌};
    ghost use Rattle.std.specs.Coded.{codes};
    ghost use Rattle.aram_core.specs.contracts.page_set.PageSet as page_set;
    ghost use Rattle.lag_bus.specs.Lagging.{Lagging};
    ghost use Rattle.lag_bus.specs.CachedClock.{CachedClock, IsBehind, MayFallBehind, caught_up};

    ghost Value = { CachedClock (Lagging B.C.State) };

    ghost coded = { Prim.hlevel (codes, page_set.the_row.coded) };

    ghost view = { λ r. record {
      name = r.bus.ghost_name;
      samples = r.samples;
      bus = caught_up B.C.meaning (r.until - r.left) r.calls (B.shows r.bus.now);
    } };

    ghost invariant = { λ r. (r.left ≤ r.until)
        × IsBehind (r.until - r.left) r.calls (B.shows r.bus.now)
        × (0 < r.left → MayFallBehind r.until r.samples (B.shows r.bus.now)) };
}

/// The moment up to which a bus may be left behind in a run to so many samples, or its clock where the run is at its end.
#[inline(always)]
fn moment_of<B: DeferredBus>(bus: &B, samples: u32) -> u64
    requires few { samples ≤ max_frames }
    ensures clock { (B.shows bus.now).machine.clock ≤ result }
    ensures pending { (B.shows bus.now).book.pending < max_samples_of_batch }
    ensures free { (B.shows bus.now).machine.clock < result → MayFallBehind result samples (B.shows bus.now) }
{
    bus.flush_deadline()
        .min(CYCLES_PER_SAMPLE * u64::from(samples))
        .max(bus.clock())
}

impl<'a, B: DeferredBus> CachedClockBus<'a, B> {
    /// A bus in hand for a run to so many samples.
    #[inline(always)]
    fn new(bus: &'a mut B, samples: u32) -> CachedClockBus<'a, B>
        requires few { samples ≤ max_frames }
        ensures name { result.name ≡ bus.entry.ghost_name }
        ensures samples { result.samples ≡ samples }
        ensures bus { result.bus ≡ B.shows bus.old }
    {
        let until = moment_of(&*bus, samples);
        let (clock, calls) = (bus.clock(), bus.calls());
        CachedClockBus {
            bus,
            samples,
            until,
            left: until - clock,
            calls,
        }
    }

    /// Whether the bus may be left behind for an instruction, and then the run isn't at its end.
    #[inline(always)]
    fn may_fall_behind(&self) -> bool
        ensures { result ≡ true → self.now.bus.machine.clock < CYCLES_PER_SAMPLE * self.now.samples }
    {
        MAX_CYCLES < self.left
    }

    /// Whether the run is at its end.
    #[inline(always)]
    fn is_at_end(&self) -> bool
        ensures { result ≡ nat_le self.now.samples (samples_due self.now.bus.machine) }
    {
        !self.may_fall_behind()
            && (self.until - self.left) / CYCLES_PER_SAMPLE >= u64::from(self.samples)
    }

    /// Whether there is room for the calls of one more step.
    #[inline(always)]
    fn has_room_for_step(&self) -> bool
        ensures { result ≡ nat_le self.now.bus.machine.calls max_calls_before_step }
    {
        self.calls <= MAX_CALLS_BEFORE_STEP
    }

    /// Begins the calls anew, where nothing is to be drained but what waits for pending samples.
    #[inline(always)]
    fn begin_calls_anew(&mut self) -> bool
        ensures anew { result ≡ true → self.new ≡ record self.old { bus = without_calls self.old.bus } }
        ensures same { result ≡ false → self.new ≡ self.old }
    {
        if !self.bus.begin_calls_anew() {
            return false;
        }
        self.calls = 0;
        true
    }

    /// A pass on the bus itself, which catches up first.
    #[inline(always)]
    fn pass_on_bus(&mut self, cycles: u8)
        requires room { self.old.bus.machine.calls < max_calls }
        requires some { 1 ≤ cycles }
        requires few { cycles ≤ CYCLES_PER_SAMPLE }
        requires time { samples_due self.old.bus.machine < max_samples_of_chip }
        ensures { self.new ≡ record self.old { bus = (lagging B.C.meaning).pass self.old.bus cycles } }
    {
        let clock = self.until - self.left;
        self.bus.pass_later(clock, self.calls, cycles);
        self.until = clock + u64::from(cycles);
        self.left = 0;
        self.calls += 1;
    }

    /// A step on the bus itself, which catches up first.
    #[inline(always)]
    fn step_on_bus(&mut self, cpu: &mut Cpu) -> bool
        requires few { self.old.samples ≤ max_frames }
        requires calls { self.old.bus.machine.calls ≤ max_calls_before_step }
        requires more { samples_due self.old.bus.machine < self.old.samples }
        ensures does { (cpu.new, self.new.bus) ≡ step_outcome (lagging B.C.meaning) cpu.old self.old.bus }
        ensures name { self.new.name ≡ self.old.name }
        ensures samples { self.new.samples ≡ self.old.samples }
        ensures some { self.old.bus.machine.clock < self.new.bus.machine.clock }
        ensures answer { result ≡ cpu.new.halted }
    {
        let clock = self.until - self.left;
        *cpu = self.bus.step_later(clock, self.calls, *cpu);
        self.until = moment_of(&*self.bus, self.samples);
        self.left = self.until - self.bus.clock();
        self.calls = self.bus.calls();
        cpu.halted
    }
}

/// One step, on the bus in hand or, close to the moment up to which the bus may be left behind, on the bus itself.
/// The answer is whether the processor is halted now.
// In line with the loop: where more cycles are left than an instruction has, the optimizer finds that none of its passes needs a test.
#[inline(always)]
fn step_once<'a, B: DeferredBus>(cpu: &mut Cpu, cached: &mut CachedClockBus<'a, B>) -> bool
    requires few { cached.old.samples ≤ max_frames }
    requires calls { cached.old.bus.machine.calls ≤ max_calls_before_step }
    requires more { samples_due cached.old.bus.machine < cached.old.samples }
    requires awake { cpu.old.halted ≡ false }
    ensures does { (cpu.new, cached.new.bus) ≡ step_outcome (lagging B.C.meaning) cpu.old cached.old.bus }
    ensures name { cached.new.name ≡ cached.old.name }
    ensures samples { cached.new.samples ≡ cached.old.samples }
    ensures some { cached.old.bus.machine.clock < cached.new.bus.machine.clock }
    ensures answer { result ≡ cpu.new.halted }
{
    if cached.may_fall_behind() {
        step_awake(cpu, cached)
    } else {
        cached.step_on_bus(cpu)
    }
}

/// Takes steps of the processor on a bus in hand, one at least, until the run is at its end, the processor halts, or the room for
/// calls is filled and something is to be drained or it was filled so many times before. Of a processor that has halted it is one
/// step. The answer is how many of these times are left.
// In line with what takes the bus in hand, so that its clock and its calls may stay in registers from step to step.
#[inline(always)]
fn step_on<'a, B: DeferredBus>(
    cpu: &mut Cpu,
    cached: &mut CachedClockBus<'a, B>,
    drain_budget: u8,
) -> u8
    requires calls { cached.old.bus.machine.calls ≤ max_calls_before_step }
    requires more { samples_due cached.old.bus.machine < cached.old.samples }
    requires few { cached.old.samples ≤ max_frames }
    ensures name { cached.new.name ≡ cached.old.name }
    ensures steps { AreStepsOf (lagging B.C.meaning) (lag_emits B.C.meaning) cached.old.samples cpu.old cached.old.bus cpu.new cached.new.bus }
    ensures some { cached.old.bus.machine.clock < cached.new.bus.machine.clock }
{
    if cpu.halted {
        let _ = cached.step_on_bus(cpu);
        return drain_budget;
    }
    let mut left = drain_budget;
    'steps: loop {
        if cached.is_at_end() {
            break;
        }
        // Each instruction has its own answer: so no step in hand asks whether the one before it halted.
        let halted = step_once(cpu, cached);
        if halted {
            break;
        }
        if !cached.has_room_for_step() {
            if left == 0 {
                break;
            }
            if !cached.begin_calls_anew() {
                break;
            }
            left -= 1;
        }
    }
    left
}

/// Takes steps of the processor on a bus, one at least, until so many samples are due, the processor halts, or the room
/// for calls is filled and something is to be drained or it was filled so many times before. Of a processor that has halted it is
/// one step. The answer is how many of these times are left.
pub(crate) fn take_steps<B: DeferredBus>(
    bus: &mut B,
    cpu: &mut Cpu,
    samples: u32,
    drain_budget: u8,
) -> u8
    requires calls { (B.shows bus.old).machine.calls ≤ max_calls_before_step }
    requires more { samples_due (B.shows bus.old).machine < samples }
    requires few { samples ≤ max_frames }
    ensures steps { AreStepsOf (lagging B.C.meaning) (lag_emits B.C.meaning) samples cpu.old (B.shows bus.old) cpu.new (B.shows bus.new) }
    ensures some { (B.shows bus.old).machine.clock < (B.shows bus.new).machine.clock }
{
    // The registers stay in memory. In a copy a compiler would keep them in its own registers, and save and load these around each of 256 arms.
    let mut cached = CachedClockBus::new(bus, samples);
    let drain_budget_left = step_on(cpu, &mut cached, drain_budget);
    let CachedClockBus {
        bus: behind,
        samples: _,
        until,
        left,
        calls,
    } = cached;
    behind.catch_up(until - left, calls);
    drain_budget_left
}

impl<'a, B: DeferredBus> Bus for CachedClockBus<'a, B> {
    ghost means = { cached (lagging B.C.meaning) };

    #[inline(always)]
    fn read(&mut self, addr: u16) -> u8 {
        let calls = self.calls;
        self.calls += 1;
        if self.bus.is_unwritten_memory(addr) {
            return self.bus.byte(addr);
        }
        self.bus.read_later(self.until - self.left, calls, addr)
    }

    #[inline(always)]
    fn write(&mut self, addr: u16, value: u8) {
        let calls = self.calls;
        self.calls += 1;
        if self.bus.is_unread_memory(addr) {
            return self.bus.put_unread(addr, value);
        }
        self.bus
            .write_later(self.until - self.left, calls, addr, value)
    }

    #[inline(always)]
    fn pass(&mut self, cycles: u8) {
        if u64::from(cycles) < self.left {
            self.left -= u64::from(cycles);
            self.calls += 1;
        } else {
            self.pass_on_bus(cycles);
        }
    }

    #[inline(always)]
    fn to_sample(&self) -> u8 {
        (CYCLES_PER_SAMPLE - (self.until - self.left) % CYCLES_PER_SAMPLE) as u8
    }

    ghost lawful = { record {
      read_calls = λ _ _. refl;
      read_clock = λ _ _. refl;
      write_calls = λ _ _ _. refl;
      write_clock = λ _ _ _. refl;
      pass_calls = λ _ _. refl;
      pass_clock = λ _ _. refl;
      samples = λ _. refl;
    } };
}

// The clock, the calls of the bus, and the ports and timers at the clock, whose ticks are done where they are looked at or changed, and where
// the bus itself passes cycles. Its small calls are in line with those of the bus.
ghost use Rattle.std.specs.Prelude.{◌≡◌, ◌+◌, ◌-◌, ◌<◌, ◌≤◌};
ghost use Rattle.ports_timers.specs.Limits.{clock_limit};
ghost use Rattle.ports_timers.specs.Zeros.{counter_is_0};
ghost use Rattle.ports_timers.specs.Io.{read_answer, after_read, after_write, after_ticks_of};
ghost use Rattle.lag_bus.specs.Clocked.{clocked_after};

use ports_timers::{Io, tick_through};
use std::marker::Model;

/// The clock, the calls since the last drain, and the ports, the ROM and the timers as they are at the clock. The ticks of
/// the cycles that passed are deferred: where something asks for them, or the bus itself passes more.
#[derive(Drop)]
pub struct ClockedIo {
    io: Io,
    /// The moment of the clock up to which the timers have ticked.
    ticked: u64,
    clock: u64,
    calls: u8,
}

impl Model for ClockedIo {
    ghost use Rattle.std.specs.Prelude.{◌-◌, ◌<◌, ◌≤◌};
    ghost use Rattle.ports_timers.specs.Limits.{clock_limit};
    ghost use Rattle.ports_timers.specs.Io.{after_ticks_of};
    ghost use Rattle.lag_bus.specs.Clocked.{Clocked};

    ghost Value = { Clocked };

    ghost view = { λ c. record { io = after_ticks_of c.io c.ticked (c.clock - c.ticked); clock = c.clock; calls = c.calls } };

    ghost invariant = { λ c. (c.ticked ≤ c.clock) × (c.clock < clock_limit) };
}

impl ClockedIo {
    /// The ports and timers at a moment of the clock, and no calls.
    #[tactic(auto, using(crate::proofs::DeferredTicks::no_ticks))]
    pub fn new(io: Io, clock: u64) -> Self
        requires { clock < clock_limit }
        ensures { result ≡ record { io = io; clock = clock; calls = 0 } }
    {
        ClockedIo {
            io,
            ticked: clock,
            clock,
            calls: 0,
        }
    }

    /// The clock.
    #[inline(always)]
    pub fn clock(&self) -> u64
        ensures clock { result ≡ self.now.clock }
        ensures fits { result < clock_limit }
    {
        self.clock
    }

    /// The calls since the last drain.
    #[inline(always)]
    pub fn calls(&self) -> u8
        ensures { result ≡ self.now.calls }
    {
        self.calls
    }

    /// Counts a call.
    #[inline(always)]
    pub fn count(&mut self)
        requires { self.old.calls < 255 }
        ensures { self.new ≡ record self.old { calls = self.old.calls + 1 } }
    {
        self.calls += 1;
    }

    /// Lets the clock and the calls catch up with a later moment.
    #[inline(always)]
    #[tactic(auto, using(crate::proofs::DeferredTicks::ticks_between))]
    pub fn catch_up(&mut self, clock: u64, calls: u8)
        requires later { self.old.clock ≤ clock }
        requires fits { clock < clock_limit }
        ensures { self.new ≡ record {
          io = after_ticks_of self.old.io self.old.clock (clock - self.old.clock);
          clock = clock;
          calls = calls;
        } }
    {
        self.clock = clock;
        self.calls = calls;
    }

    /// Begins the calls anew.
    pub fn restart(&mut self)
        ensures { self.new ≡ record self.old { calls = 0 } }
    {
        self.calls = 0;
    }

    /// Counts a call that lets some cycles pass.
    #[inline(always)]
    #[tactic(auto, using(crate::proofs::DeferredTicks::ticks_to_come))]
    pub fn pass(&mut self, cycles: u8)
        requires calls { self.old.calls < 255 }
        requires clock { self.old.clock + cycles < clock_limit }
        ensures { self.new ≡ record (clocked_after cycles self.old) { calls = self.old.calls + 1 } }
    {
        self.clock += u64::from(cycles);
        self.calls += 1;
    }

    /// Lets some cycles pass.
    #[tactic(auto, using(crate::proofs::DeferredTicks::ticks_to_come))]
    pub fn wait(&mut self, cycles: u64)
        requires { self.old.clock + cycles < clock_limit }
        ensures { self.new ≡ clocked_after cycles self.old }
    {
        self.clock += cycles;
    }

    /// The ports and timers.
    pub fn io(&self) -> Io
        ensures { result ≡ self.now.io }
    {
        let mut io = self.io;
        tick_through(&mut io, self.ticked, self.clock - self.ticked);
        io
    }

    /// The address of the chip's register that F3h reaches.
    pub fn dsp_address(&self) -> u8
        ensures { result ≡ self.now.io.dsp_address }
    {
        self.io.dsp_address()
    }

    /// Answers a read as the ports and timers do.
    #[tactic(auto, using(crate::proofs::DeferredTicks::no_ticks))]
    pub fn read(&mut self, at: u16) -> Option<u8>
        ensures answer { result ≡ read_answer self.old.io at }
        ensures after { self.new ≡ record self.old { io = after_read self.old.io at } }
    {
        let clock = self.clock;
        tick_through(&mut self.io, self.ticked, clock - self.ticked);
        self.ticked = clock;
        self.io.read(at)
    }

    /// Takes a write as the ports and timers do, which tick up to it under the targets that were there.
    #[tactic(auto, using(crate::proofs::DeferredTicks::no_ticks))]
    pub fn write(&mut self, at: u16, value: u8)
        ensures { self.new ≡ record self.old { io = after_write self.old.io at value } }
    {
        let cycles = self.clock - self.ticked;
        tick_through(&mut self.io, self.ticked, cycles);
        self.ticked = self.clock;
        self.io.write(at, value);
    }
}

/// Whether an address is of no output counter, or of one that is 0.
pub fn counter_is_0(io: &Io, at: u16) -> bool
    ensures { result ≡ counter_is_0 io.now at }
{
    match at {
        0xFD => io.timer0.output == 0,
        0xFE => io.timer1.output == 0,
        0xFF => io.timer2.output == 0,
        _ => true,
    }
}

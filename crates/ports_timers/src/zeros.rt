// How long counters that are 0 stay 0.
ghost use Rattle.std.specs.Prelude.{◌≡◌, ◌+◌, ◌-◌, ◌*◌, ◌/◌, ◌<◌, ◌≤◌, true, false, if◌then◌else◌};
ghost use Rattle.ports_timers.specs.Limits.{clock_limit};
ghost use Rattle.ports_timers.specs.Timer.{tick_count};
ghost use Rattle.ports_timers.specs.Io.{is_enabled, after_ticks_of};
ghost use Rattle.ports_timers.specs.Zeros.{ticks_to_count, stays_if_0, zeros_stay, IsTimer, AreTimers};

use crate::timer::ticks_to_count;
use crate::{Io, Timer};
use num_fix::has_bit;

/// More cycles than any wait has.
const LONG: u64 = 0x1_0000_0000;

/// The cycles that bring fewer ticks than so many, at 128 cycles a tick or at 16.
fn cycles_below(ticks: u64, slow: bool, clock: u64) -> u64
    requires some { 1 ≤ ticks }
    requires few { ticks ≤ 256 }
    requires clock { clock < clock_limit }
    ensures { tick_count (if slow then 128 else 16) clock result < ticks }
{
    if slow {
        128 * ticks - 1 - clock % 128
    } else {
        16 * ticks - 1 - clock % 16
    }
}

/// Cycles for which a counter that is 0 stays 0.
fn cycles_at_0(timer: Timer, is_enabled: bool, slow: bool, clock: u64) -> u64
    requires clock { clock < clock_limit }
    ensures stay { stays_if_0 is_enabled (if slow then 128 else 16) clock result timer ≡ true }
    ensures bytes { IsTimer timer }
{
    if timer.output != 0 || !is_enabled {
        return LONG;
    }
    cycles_below(ticks_to_count(timer), slow, clock)
}

/// Cycles from a moment of the clock on, below 2 to the 40, over which each output counter that is 0 stays 0. They may be
/// fewer than the most.
pub fn cycles_of_zeros(io: &Io, clock: u64) -> u64
    requires clock { clock < clock_limit }
    ensures stay { zeros_stay io.now clock result ≡ true }
    ensures timers { AreTimers io.now }
{
    let first = cycles_at_0(io.timer0, has_bit(io.control, 0), true, clock);
    let second = cycles_at_0(io.timer1, has_bit(io.control, 1), true, clock);
    let third = cycles_at_0(io.timer2, has_bit(io.control, 2), false, clock);
    first.min(second).min(third)
}

/// Does the ticks of any number of cycles from a moment of the clock on; the moment after them is below 2 to the 40.
pub fn tick_through(io: &mut Io, clock: u64, cycles: u64)
    requires { clock + cycles < clock_limit }
    ensures { io.new ≡ after_ticks_of io.old clock cycles }
{
    io.tick(clock, cycles);
}

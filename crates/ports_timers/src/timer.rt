// One timer.
ghost use Rattle.std.specs.Prelude.{◌≡◌, ◌<◌, ◌≤◌, ◌+◌, ◌^◌};
ghost use Rattle.ports_timers.specs.Timer.{after_ticks, after_cycles, restarted_timer};
ghost use Rattle.ports_timers.specs.Zeros.{ticks_to_count, IsTimer};

/// A timer: its target, where 0 means 256, its inner counter, and its output counter, 0 to 15.
#[derive(Clone, Copy, Debug, PartialEq, Eq)]
pub struct Timer {
    pub target: u8,
    pub inner: u8,
    pub output: u8,
}

/// The ticks up to the next count: 1 to 256.
pub(crate) fn ticks_to_count(timer: Timer) -> u64
    ensures exact { result ≡ ticks_to_count timer }
    ensures bytes { IsTimer timer }
    ensures few { result ≤ 256 }
    ensures some { 1 ≤ result }
{
    u64::from(timer.target.wrapping_sub(timer.inner).wrapping_sub(1)) + 1
}

/// A timer as its next count leaves it.
fn after_count(timer: Timer) -> Timer
    requires { IsTimer timer }
    ensures { result ≡ after_ticks (ticks_to_count timer) timer }
{
    Timer {
        target: timer.target,
        inner: 0,
        output: timer.output.wrapping_add(1) % 16,
    }
}

/// A timer after ticks that are fewer than those up to the next count.
fn before_count(timer: Timer, count: u64) -> Timer
    requires bytes { IsTimer timer }
    requires few { count < ticks_to_count timer }
    ensures { result ≡ after_ticks count timer }
{
    Timer {
        inner: timer.inner.wrapping_add(count as u8),
        ..timer
    }
}

/// A timer after some ticks. It goes from count to count, so that ticks between two counts take no time.
fn after_ticks(start: Timer, count: u64) -> Timer
    ensures { result ≡ after_ticks count start }
{
    let mut timer = start;
    let mut left = count;
    let mut next = ticks_to_count(timer);
    'counts: while next <= left {
        timer = after_count(timer);
        left -= next;
        next = ticks_to_count(timer);
    }
    before_count(timer, left)
}

impl Timer {
    /// Lets some cycles pass, from a moment of the clock on.
    pub(crate) fn pass(&mut self, enabled: bool, period: u64, clock: u64, cycles: u64)
        requires period { 0 < period }
        requires clock { clock + cycles < 2 ^ 64 }
        ensures { self.new ≡ after_cycles enabled period clock cycles self.old }
    {
        if enabled {
            *self = after_ticks(*self, (clock + cycles) / period - clock / period);
        }
    }
}

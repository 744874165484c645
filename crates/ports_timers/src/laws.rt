// Laws of the definitions.
ghost use Rattle.std.specs.Prelude.{◌≡◌, ◌+◌, ℕ, Bool};
ghost use Rattle.ports_timers.specs.declared.timer.Timer.{Timer};
ghost use Rattle.ports_timers.specs.declared.io.Io.{Io};
ghost use Rattle.ports_timers.specs.Io.{after_ticks_of};
ghost use Rattle.ports_timers.specs.Zeros.{IsTimer, KeepsOutput};

/// The ticks of some cycles and then of more are those of all of them, and an output counter stays until its count.
pub fn ticks_compose()
    ensures compose { (io : Io) (clock a b : ℕ) → after_ticks_of io clock (a + b) ≡ after_ticks_of (after_ticks_of io clock a) (clock + a) b }
    ensures still { (enabled : Bool) (period clock cycles : ℕ) (timer : Timer) → IsTimer timer → KeepsOutput enabled period clock cycles timer }
{}

// Laws of the definitions.
ghost use Rattle.idle_loops.specs.ReadOnly.{IterationsOnlyWait};

use spc700_exec::Bus;

/// Iterations of steps that only read and bring the registers back leave nothing but the cycles that they take.
pub fn iterations_only_wait<B: Bus>(_bus: &B)
    ensures { IterationsOnlyWait B.means }
{}

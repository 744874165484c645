// Laws of the definitions.
ghost use Rattle.lag_bus.specs.Calls.{HasMachineInLockStep, AnswersInLockStep, DrainsFromFront, TotalsSamplesMade};
ghost use Rattle.lag_bus.specs.IdleCycles.{LeavesCyclesOfIterations};

use chip_form::Chip;

/// After every list of calls, of reads, writes, passes, settlings, drains and loads, a bus that lags has the machine in lock
/// step, and a read after them has its answer. Its drains are such calls.
pub fn a_lagging_bus_is_the_machine_in_lock_step<C: Chip>(_chip: &C)
    ensures machine { HasMachineInLockStep C.meaning C.saving }
    ensures answer { AnswersInLockStep C.meaning C.saving }
    ensures drain { DrainsFromFront C.meaning C.saving }
{}

/// Between two loads the chip of a bus that lags makes, by its total, the samples by which the number of its next one rises.
pub fn a_total_has_the_samples_made<C: Chip>(_chip: &C)
    ensures { TotalsSamplesMade C.meaning C.saving }
{}

/// Iterations of steps that only read bring the machine with its flush statistics to where their cycles alone bring it.
pub fn iterations_leave_their_cycles<C: Chip>(_chip: &C)
    ensures { LeavesCyclesOfIterations C.meaning }
{}

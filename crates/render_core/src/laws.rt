// Laws of the definitions.
ghost use Rattle.render_core.specs.Laws.{GoesOnByAStep, EndsWhereDue, EndsWithItsSamplesDue, EmitsAFrameASample};
ghost use Rattle.render_core.specs.Laws.{DrainTakesFrames, DrainTakesRecords, IsEmptyAfterTheLast};
ghost use Rattle.render_core.specs.Laws.{AreFadedAtTheirPlaces, AreAsManyFaded};
ghost use Rattle.render_core.specs.Whole.{IsPlayedLawfully};

use chip_form::Chip;
use lock_step::DrainedBus;
use spc700_exec::Bus;

/// A run takes steps as long as fewer samples are due, and then no more; no step makes two samples.
pub fn a_run_ends_with_its_last_sample<B: Bus>(_bus: &B)
    ensures step { GoesOnByAStep B.means }
    ensures end_reached { EndsWhereDue B.means }
    ensures due { EndsWithItsSamplesDue B.means }
{}

/// A run emits a frame for each sample that it makes, after those that are still to be drained.
pub fn a_run_emits_a_frame_for_each_sample<B: DrainedBus>(_bus: &B)
    ensures { EmitsAFrameASample B.means B.emits }
{}

/// A drain takes from what a run emits exactly what it hands over, and changes nothing else of it.
pub fn a_drain_takes_what_it_hands_over<B: DrainedBus>(_bus: &B)
    ensures frames { DrainTakesFrames B.means B.emits }
    ensures records { DrainTakesRecords B.means B.emits }
{}

/// Where nothing is to come the next piece is empty, and it is a last one again.
pub fn pieces_after_the_last_are_empty<C: Chip>(_chip: &C)
    ensures { IsEmptyAfterTheLast C.meaning }
{}

/// A whole machine that is saved, loaded and run: loads bring back what was saved, and runs go on where others ended.
pub fn a_whole_machine_is_played_lawfully<C: Chip>(_chip: &C)
    ensures { IsPlayedLawfully C.meaning C.saving }
{}

/// Each entry of faded frames is that frame, faded at its place; there are as many as before.
pub fn entries_of_faded_frames()
    ensures entries { AreFadedAtTheirPlaces }
    ensures count { AreAsManyFaded }
{}

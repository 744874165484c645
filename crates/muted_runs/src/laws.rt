//! Laws of whole runs in which voices are muted or traced.
ghost use Rattle.muted_runs.specs.MutedFiles.{VolumesAreNotHeard};
ghost use Rattle.muted_runs.specs.Tracing.{TracingIsNotHeard};
ghost use Rattle.muted_runs.specs.Watching.{WatchingChangesNothing, NotesNothingShown, NotesReadsAlone};

use chip_form::Chip;

/// A run that is watched is that run: its watching changes no frame and no record.
pub fn watching_changes_nothing<C: Chip>(_chip: &C)
    ensures { WatchingChangesNothing C.meaning }
{}

/// A run in which nothing is hidden notes nothing.
pub fn what_is_shown_is_not_noted<C: Chip>(_chip: &C)
    ensures { NotesNothingShown C.meaning }
{}

/// Three programs, of which the one that reads what is hidden is noted.
pub fn what_is_hidden_is_noted_alone<C: Chip>(_chip: &C)
    ensures { NotesReadsAlone C.meaning }
{}

/// Two files that differ in VOLL and VOLR of muted voices alone give the same frames and the same records, wherever the program of
/// one of them reads none of these registers.
pub fn volumes_of_muted_voices_are_not_heard()
    ensures { VolumesAreNotHeard }
{}

/// A tune gives the same frames whichever voices are traced.
pub fn tracing_is_not_heard()
    ensures { TracingIsNotHeard }
{}

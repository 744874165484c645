// Laws of runs, from the calls that they make.
ghost use Rattle.std.specs.Prelude.{◌≡◌, ◌≢◌, ◌⊎◌, ◌↔◌, ◌+◌, ◌++◌, ℕ, List, length, IsTrue};
ghost use Rattle.snd_host.specs.Follows.{KeepsCounts};
ghost use Rattle.snd_host.specs.Host.{HostState, next_count};
ghost use Rattle.snd_host.specs.History.{ended_of, in_faults, out_faults};
ghost use Rattle.command_runner.specs.NamedInputs.{are_some};
ghost use Rattle.command_runner.specs.PlainCalls.{OnlyLastFails};
ghost use Rattle.command_render.specs.Options.{Options};
ghost use Rattle.command_line.specs.Command.{Command, render, usage};
ghost use Rattle.exit_status.specs.Lines.{status_line};
ghost use Rattle.exit_status.specs.Statuses.{answer_status};
ghost use Rattle.exit_status.specs.declared.status.Status.{Status};
ghost use Rattle.exit_status.specs.declared.status.Status.TheVariants as statuses;
ghost use Rattle.run_laws.specs.Answers.{inputs_of};
ghost use Rattle.run_laws.specs.Left.{LeavesNothing, LeavesAll, LeavesPart, ReportsLast, Complains, NoneRose};
ghost use Rattle.run_laws.specs.Run.{IsRun, answered};
ghost use Rattle.run_laws.specs.Rendered.{WritesFrames};

/// Over every host, whatever it shows: where a render ends with 0, its WAV file, its trace and its report are those of the run
/// that the bytes give which it read.
pub fn a_render_writes_the_frames_of_what_it_read()
    ensures { (file table wave : List ℕ) (options : Options) (old new : HostState) (run : IsRun (render file table wave options) old new statuses.Ok) →
        WritesFrames wave options (length (ended_of old.calls) + 2) run.given run.made }
{}

/// Of the calls for inputs, outputs and the report none comes after one that failed, and none is a write of no bytes.
pub fn a_run_stops_at_its_first_failed_call()
    ensures { (command : Command) (old new : HostState) (status : Status) (run : IsRun command old new status) →
        OnlyLastFails (run.taken ++ run.made) }
{}

/// So it is of the writes of the complaint, which come after them.
pub fn a_complaint_stops_at_its_first_failed_write()
    ensures { (command : Command) (old new : HostState) (status : Status) (run : IsRun command old new status) →
        OnlyLastFails run.note }
{}

/// Where the status is the answer's, the outputs of the answer were created with all their bytes and ended, and its report was
/// written.
pub fn a_run_that_ends_as_answered_leaves_all()
    ensures { (command : Command) (old new : HostState) (status : Status) (run : IsRun command old new status) →
        status ≡ answer_status (answered run) → LeavesAll (answered run) old.calls new.calls }
{}

/// Where the report grew, the outputs of the answer were created before, with all their bytes, and ended.
pub fn a_report_comes_last()
    ensures { (command : Command) (old new : HostState) (status : Status) (run : IsRun command old new status) →
        ReportsLast (answered run) old.calls new.calls }
{}

/// Where the status is 0, each count of faults is what it was.
pub fn a_run_that_ends_well_counts_no_fault()
    ensures { (command : Command) (old new : HostState) (status : Status) (run : IsRun command old new status) →
        status ≡ statuses.Ok → KeepsCounts old.calls new.calls }
{}

/// The complaint grew by the line of the status, or by a prefix of it where a write failed.
pub fn a_complaint_is_the_line_of_its_status()
    ensures { (command : Command) (old new : HostState) (status : Status) (run : IsRun command old new status) →
        Complains (status_line status (answered run)) old.calls new.calls }
{}

/// Where the status is neither 0 nor that of an output that failed, no output was created, and the report didn't grow.
pub fn a_run_that_was_refused_leaves_nothing()
    ensures { (command : Command) (old new : HostState) (status : Status) (run : IsRun command old new status) →
        status ≢ statuses.Ok → status ≢ statuses.WriteFault → LeavesNothing old.calls new.calls }
{}

/// Where an input could not be read, one call for it failed.
pub fn an_input_that_fails_is_counted_once()
    ensures { (command : Command) (old new : HostState) (status : Status) (run : IsRun command old new status) →
        status ≡ statuses.ReadFault → in_faults new.calls ≡ next_count (in_faults old.calls) }
{}

/// Only a command that names an input can fail to read one.
pub fn a_run_that_could_not_read_names_an_input()
    ensures { (command : Command) (old new : HostState) (status : Status) (run : IsRun command old new status) →
        status ≡ statuses.ReadFault → IsTrue (are_some (inputs_of command)) }
{}

/// Where an input could not be read, no output was created, and the report didn't grow.
pub fn a_run_that_could_not_read_leaves_nothing()
    ensures { (command : Command) (old new : HostState) (status : Status) (run : IsRun command old new status) →
        status ≡ statuses.ReadFault → LeavesNothing old.calls new.calls }
{}

/// Where an output or the report could not be written, one call for them failed.
pub fn an_output_that_fails_is_counted_once()
    ensures { (command : Command) (old new : HostState) (status : Status) (run : IsRun command old new status) →
        status ≡ statuses.WriteFault → out_faults new.calls ≡ next_count (out_faults old.calls) }
{}

/// Only what was not refused is written.
pub fn a_run_that_could_not_write_was_not_refused()
    ensures { (command : Command) (old new : HostState) (status : Status) (run : IsRun command old new status) →
        status ≡ statuses.WriteFault → answer_status (answered run) ≡ statuses.Ok }
{}

/// Where an output or the report could not be written, a part of what the answer says was left.
pub fn a_run_that_could_not_write_leaves_a_part()
    ensures { (command : Command) (old new : HostState) (status : Status) (run : IsRun command old new status) →
        status ≡ statuses.WriteFault → LeavesPart (answered run) old.calls new.calls }
{}

/// Where memory was wanting, no output was created, and the report didn't grow.
pub fn a_run_without_memory_leaves_nothing()
    ensures { (command : Command) (old new : HostState) (status : Status) (run : IsRun command old new status) →
        status ≡ statuses.OutOfMemory → LeavesNothing old.calls new.calls }
{}

/// Words that say no command end as such, whatever memory there is.
pub fn words_that_say_no_command_want_no_memory()
    ensures { (command : Command) (old new : HostState) (status : Status) (run : IsRun command old new status) →
        status ≡ statuses.OutOfMemory → command ≢ usage }
{}

/// A run ends by its words just where they say no command.
pub fn words_that_say_no_command_are_refused()
    ensures { (command : Command) (old new : HostState) (status : Status) (run : IsRun command old new status) →
        (status ≡ statuses.Usage) ↔ (command ≡ usage) }
{}

/// Each status but three is that of the answer.
pub fn a_status_is_truthful()
    ensures { (command : Command) (old new : HostState) (status : Status) (run : IsRun command old new status) →
        (status ≡ answer_status (answered run)) ⊎ (status ≡ statuses.ReadFault) ⊎ (status ≡ statuses.WriteFault) ⊎ (status ≡ statuses.OutOfMemory) }
{}

/// Where no count of faults rose, the status is that of the answer, or memory was wanting.
pub fn a_run_without_faults_ends_as_answered()
    ensures { (command : Command) (old new : HostState) (status : Status) (run : IsRun command old new status) →
        NoneRose old.calls new.calls → (status ≡ answer_status (answered run)) ⊎ (status ≡ statuses.OutOfMemory) }
{}

/// Where the status is not that of an input that could not be read, no call for inputs failed.
pub fn no_other_status_counts_an_input()
    ensures { (command : Command) (old new : HostState) (status : Status) (run : IsRun command old new status) →
        status ≢ statuses.ReadFault → in_faults new.calls ≡ in_faults old.calls }
{}

/// Where the status is not that of an output that could not be written, no call for outputs or the report failed.
pub fn no_other_status_counts_an_output()
    ensures { (command : Command) (old new : HostState) (status : Status) (run : IsRun command old new status) →
        status ≢ statuses.WriteFault → out_faults new.calls ≡ out_faults old.calls }
{}

/// A run that was to write outputs read all inputs that its words name.
pub fn a_run_that_writes_has_read_all_inputs()
    ensures { (command : Command) (old new : HostState) (status : Status) (run : IsRun command old new status) →
        (status ≡ statuses.Ok) ⊎ (status ≡ statuses.WriteFault) → length run.given ≡ length (inputs_of command) }
{}

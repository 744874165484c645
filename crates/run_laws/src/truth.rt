//! What follows where it is known what the names hold.
ghost use Rattle.std.specs.Prelude.{◌≡◌, ◌≢◌, ◌⊎◌, ℕ, List, slice_get, Some};
ghost use Rattle.snd_host.specs.Host.{HostState, IfKnown};
ghost use Rattle.snd_host.specs.Takes.{GaveFront};
ghost use Rattle.command_runner.specs.NamedInputs.{NamedInput};
ghost use Rattle.command_line.specs.Command.{Command};
ghost use Rattle.exit_status.specs.Lines.{status_line};
ghost use Rattle.exit_status.specs.Statuses.{answer_status};
ghost use Rattle.exit_status.specs.declared.status.Status.{Status};
ghost use Rattle.exit_status.specs.declared.status.Status.TheVariants as statuses;
ghost use Rattle.run_laws.specs.Answers.{answer_by, answer_of, inputs_of};
ghost use Rattle.run_laws.specs.GoesBy.{GoesBy};
ghost use Rattle.run_laws.specs.Left.{LeavesAll, LeavesPart, ReportsLast, Complains, NoneRose};
ghost use Rattle.run_laws.specs.Run.{IsRun, answered};

/// What every command answers depends on its inputs alone, in their order, and on no more of one than its limit and one byte.
pub fn every_answer_goes_by_the_inputs()
    ensures { (command : Command) → GoesBy (inputs_of command) (answer_by command) }
{}

/// So where the inputs were read, the answer by what they gave is the answer by what their names hold.
pub fn what_was_read_answers_as_what_the_names_hold()
    ensures { (command : Command) (old new : HostState) (status : Status) (run : IsRun command old new status) → IfKnown old.holds (λ files.
        status ≢ statuses.ReadFault → status ≢ statuses.OutOfMemory → answered run ≡ answer_of command files) }
{}

/// What each of them gave is the front of what its name holds, up to its limit and one byte.
pub fn what_was_read_is_the_front_of_what_the_names_hold()
    ensures { (command : Command) (old new : HostState) (status : Status) (run : IsRun command old new status) → IfKnown old.holds (λ files.
        status ≢ statuses.ReadFault → status ≢ statuses.OutOfMemory → (place : ℕ) (input : NamedInput) (bytes : List ℕ) →
        slice_get (inputs_of command) place ≡ Some input → slice_get run.given place ≡ Some bytes → GaveFront files input.name input.limit bytes) }
{}

/// Where the status is the answer's, its outputs were created with all their bytes and ended, and its report was written.
pub fn a_run_that_ends_as_the_names_say_leaves_all()
    ensures { (command : Command) (old new : HostState) (status : Status) (run : IsRun command old new status) → IfKnown old.holds (λ files.
        status ≡ answer_status (answer_of command files) → LeavesAll (answer_of command files) old.calls new.calls) }
{}

/// Where the report grew, the outputs of the answer were created before, with all their bytes, and ended.
pub fn the_report_of_what_the_names_hold_comes_last()
    ensures { (command : Command) (old new : HostState) (status : Status) (run : IsRun command old new status) → IfKnown old.holds (λ files.
        ReportsLast (answer_of command files) old.calls new.calls) }
{}

/// The complaint grew by the line of the status, with the numbers of the answer, or by a prefix of it where a write failed.
pub fn the_complaint_has_the_numbers_of_what_the_names_hold()
    ensures { (command : Command) (old new : HostState) (status : Status) (run : IsRun command old new status) → IfKnown old.holds (λ files.
        Complains (status_line status (answer_of command files)) old.calls new.calls) }
{}

/// Where an output or the report could not be written, the answer was not refused.
pub fn what_could_not_be_written_was_answered()
    ensures { (command : Command) (old new : HostState) (status : Status) (run : IsRun command old new status) → IfKnown old.holds (λ files.
        status ≡ statuses.WriteFault → answer_status (answer_of command files) ≡ statuses.Ok) }
{}

/// There a part of what the answer says was left.
pub fn what_could_not_be_written_is_left_in_part()
    ensures { (command : Command) (old new : HostState) (status : Status) (run : IsRun command old new status) → IfKnown old.holds (λ files.
        status ≡ statuses.WriteFault → LeavesPart (answer_of command files) old.calls new.calls) }
{}

/// Each status but three is that of the answer.
pub fn a_status_is_true_of_what_the_names_hold()
    ensures { (command : Command) (old new : HostState) (status : Status) (run : IsRun command old new status) → IfKnown old.holds (λ files.
        (status ≡ answer_status (answer_of command files)) ⊎ (status ≡ statuses.ReadFault)
        ⊎ (status ≡ statuses.WriteFault) ⊎ (status ≡ statuses.OutOfMemory)) }
{}

/// Where no count of faults rose, the status is that of the answer, or memory was wanting.
pub fn a_run_without_faults_ends_as_the_names_say()
    ensures { (command : Command) (old new : HostState) (status : Status) (run : IsRun command old new status) → IfKnown old.holds (λ files.
        NoneRose old.calls new.calls → (status ≡ answer_status (answer_of command files)) ⊎ (status ≡ statuses.OutOfMemory)) }
{}

//! What follows where the host is steady.
ghost use Rattle.std.specs.Prelude.{◌≡◌, ◌≢◌, ◌⊎◌, ◌≤◌, ◌+◌, length, slice_index, IsSome};
ghost use Rattle.snd_host.specs.History.{ended_of, in_faults, note_faults, out_faults};
ghost use Rattle.snd_host.specs.Host.{HostState, IfKnown};
ghost use Rattle.command_runner.specs.Answer.{outputs_of, report_of};
ghost use Rattle.command_runner.specs.Delivery.{HaveRooms};
ghost use Rattle.command_line.specs.Command.{Command};
ghost use Rattle.exit_status.specs.Lines.{end_line, status_line};
ghost use Rattle.exit_status.specs.Statuses.{answer_status, end_without_numbers};
ghost use Rattle.exit_status.specs.declared.status.Status.{Status};
ghost use Rattle.exit_status.specs.declared.status.Status.TheVariants as statuses;
ghost use Rattle.run_laws.specs.Answers.{answer_of};
ghost use Rattle.run_laws.specs.Run.{IsRun};

/// On a steady host no input fails that is there: the status is the answer's, or an output could not be written, or memory was
/// wanting.
pub fn on_a_steady_host_inputs_are_read()
    ensures { (command : Command) (old new : HostState) (status : Status) (run : IsRun command old new status) →
        IsSome old.steady → IfKnown old.holds (λ files.
        (status ≡ answer_status (answer_of command files)) ⊎ (status ≡ statuses.WriteFault) ⊎ (status ≡ statuses.OutOfMemory)) }
{}

/// No call for an input fails there, but where the answer is that one can't be read.
pub fn on_a_steady_host_no_input_fails_that_is_there()
    ensures { (command : Command) (old new : HostState) (status : Status) (run : IsRun command old new status) →
        IsSome old.steady → IfKnown old.holds (λ files.
        answer_status (answer_of command files) ≢ statuses.ReadFault → in_faults new.calls ≡ in_faults old.calls) }
{}

/// With room for the outputs of the answer and for its report the status is the answer's, or memory was wanting.
pub fn with_room_a_run_ends_as_the_names_say()
    ensures { (command : Command) (old new : HostState) (status : Status) (run : IsRun command old new status) →
        IfKnown old.steady (λ rooms. IfKnown old.holds (λ files.
        HaveRooms (outputs_of (answer_of command files)) rooms (length (ended_of old.calls) + 2) →
        length (report_of (answer_of command files)) ≤ slice_index rooms 0 →
        (status ≡ answer_status (answer_of command files)) ⊎ (status ≡ statuses.OutOfMemory))) }
{}

/// No call for an output or the report fails there.
pub fn with_room_no_output_fails()
    ensures { (command : Command) (old new : HostState) (status : Status) (run : IsRun command old new status) →
        IfKnown old.steady (λ rooms. IfKnown old.holds (λ files.
        HaveRooms (outputs_of (answer_of command files)) rooms (length (ended_of old.calls) + 2) →
        length (report_of (answer_of command files)) ≤ slice_index rooms 0 →
        out_faults new.calls ≡ out_faults old.calls)) }
{}

/// With room for the line of complaint no write of it fails.
pub fn with_room_no_complaint_fails()
    ensures { (command : Command) (old new : HostState) (status : Status) (run : IsRun command old new status) →
        IfKnown old.steady (λ rooms. IfKnown old.holds (λ files.
        length (status_line status (answer_of command files)) ≤ slice_index rooms 1 → note_faults new.calls ≡ note_faults old.calls)) }
{}

/// So it is of the line of a status without numbers, whatever is known of the inputs.
pub fn with_room_no_plain_complaint_fails()
    ensures { (command : Command) (old new : HostState) (status : Status) (run : IsRun command old new status) →
        IfKnown old.steady (λ rooms. IfKnown (end_without_numbers status) (λ end.
        length (end_line end) ≤ slice_index rooms 1 → note_faults new.calls ≡ note_faults old.calls)) }
{}

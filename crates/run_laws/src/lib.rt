//! Laws of runs, from the calls that they make.
#![tactic(auto)]

mod laws;
mod steadiness;
mod truth;

pub use laws::{
    a_complaint_is_the_line_of_its_status, a_complaint_stops_at_its_first_failed_write,
    a_render_writes_the_frames_of_what_it_read, a_report_comes_last,
    a_run_stops_at_its_first_failed_call, a_run_that_could_not_read_leaves_nothing,
    a_run_that_could_not_read_names_an_input, a_run_that_could_not_write_leaves_a_part,
    a_run_that_could_not_write_was_not_refused, a_run_that_ends_as_answered_leaves_all,
    a_run_that_ends_well_counts_no_fault, a_run_that_was_refused_leaves_nothing,
    a_run_that_writes_has_read_all_inputs, a_run_without_faults_ends_as_answered,
    a_run_without_memory_leaves_nothing, a_status_is_truthful, an_input_that_fails_is_counted_once,
    an_output_that_fails_is_counted_once, no_other_status_counts_an_input,
    no_other_status_counts_an_output, words_that_say_no_command_are_refused,
    words_that_say_no_command_want_no_memory,
};
pub use steadiness::{
    on_a_steady_host_inputs_are_read, on_a_steady_host_no_input_fails_that_is_there,
    with_room_a_run_ends_as_the_names_say, with_room_no_complaint_fails, with_room_no_output_fails,
    with_room_no_plain_complaint_fails,
};
pub use truth::{
    a_run_that_ends_as_the_names_say_leaves_all, a_run_without_faults_ends_as_the_names_say,
    a_status_is_true_of_what_the_names_hold, every_answer_goes_by_the_inputs,
    the_complaint_has_the_numbers_of_what_the_names_hold,
    the_report_of_what_the_names_hold_comes_last, what_could_not_be_written_is_left_in_part,
    what_could_not_be_written_was_answered, what_was_read_answers_as_what_the_names_hold,
    what_was_read_is_the_front_of_what_the_names_hold,
};

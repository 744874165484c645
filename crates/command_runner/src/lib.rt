//! What every command of a program does in the same way: it reads its inputs and takes its memory, then it
//! delivers its outputs and its report, and a refusal has its line of complaint. The lines are the program's own.
#![tactic(auto)]

mod complaints;
mod delivery;
mod laws;
mod lists;
mod pieces;
mod refusals;
mod streaming;

pub use complaints::{COMPLAINT, Complaint, complain, note_number};
pub use delivery::{Plan, PlannedOutput, StreamedPlan, carry_out, carry_stream};
pub use laws::{
    each_input_gives_the_front_of_what_its_name_holds, none_has_bytes_before_all_are_created,
    none_is_created_before_the_last_is_ended, none_is_ended_before_all_are_whole,
};
pub use lists::{ListPlan, ListedOutput, carry_all};
pub use pieces::Pieces;
pub use refusals::Refusal;
pub use std::alloc::AllocError as OutOfMemory;
pub use streaming::{Targets, stream};

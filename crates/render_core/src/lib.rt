//! A render: the frames and records of a run, piece by piece, and the fade at its end.
#![tactic(auto)]

mod fade;
mod laws;
mod making;
mod piece;
mod render;
mod saved;

pub use fade::faded;
pub use laws::{
    a_drain_takes_what_it_hands_over, a_run_emits_a_frame_for_each_sample,
    a_run_ends_with_its_last_sample, a_whole_machine_is_played_lawfully, entries_of_faded_frames,
    pieces_after_the_last_are_empty,
};
pub use piece::Piece;
pub use render::Render;
pub use saved::PlayState;
pub use std::alloc::AllocError as OutOfMemory;

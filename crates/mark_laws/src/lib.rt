//! Laws of marks, which drop the oldest checkpoints, as few as make room for one more, and never that of sample 0.
#![tactic(auto)]

mod laws;

pub use laws::{a_mark_gives_up_as_few_as_it_can, those_taken_first_are_given_up};

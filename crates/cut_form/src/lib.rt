//! What cuts of a tune and sessions over it mean: checkpoints that share pages, lists of cuts, and scripts with their replies.
#![tactic(auto)]

mod cut;
mod mark;
mod script;

pub use aram_core::PAGE_COUNT;
pub use cut::{Cut, MAX_CHECKPOINTS, MAX_FRAMES, MAX_PLAYED, PLAYED_BYTES, SLOTS_FOR_CUTS};
pub use mark::{Marked, NoPages};
pub use script::{Reply, ScriptLine};

//! How a run of the program may end: the statuses with their numbers, the causes in the bytes of inputs, and the line
//! of complaint of each end.
#![tactic(auto)]

mod cause;
mod lines;
mod status;

pub use cause::{Cause, LineFault};
pub use status::{Status, status_for};

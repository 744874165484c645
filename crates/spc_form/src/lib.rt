//! SPC files, both ways: which bytes are accepted, their fields and tags, and the state that a file opens
//! (SPC file format text v0.30).
#![tactic(auto)]

mod file;
mod inspection;
mod parts;
mod reading;
mod state;
mod tags;

pub use file::SpcFile;
pub use inspection::{SpcInfo, TextPlace, inspect};
pub use parts::{DSP_PLACE, KEPT_LENGTH, MEMORY_PLACE};
pub use reading::{MAX_LENGTH, SpcRefusal, read_spc, write_spc};
pub use state::{OpenState, opening};
pub use std::alloc::AllocError as OutOfMemory;
pub use tags::{Length, Tag};

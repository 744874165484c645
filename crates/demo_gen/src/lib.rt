//! Makes demo files: SPC files whose samples and writes of registers are drawn by a number, with a fixed program that makes
//! the writes.
#![tactic(auto)]

mod draws;
mod driver;
mod file;
mod samples;
mod writes;

pub use file::demo;
pub use std::alloc::AllocError as OutOfMemory;

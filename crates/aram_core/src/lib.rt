//! The 64 KB of memory that the processor and the S-DSP share.
#![tactic(auto)]

mod aram;
mod page_set;
mod window;

pub use aram::{Aram, MEMORY_SIZE, PAGE_BYTES, PAGE_COUNT, PAGE_SIZE};
pub use page_set::{PageSet, page_of};
pub use std::alloc::AllocError as OutOfMemory;
pub use window::Window;

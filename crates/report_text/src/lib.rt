//! The text of reports: numbers and texts that are printed to bytes, which grow or have a fixed capacity.
#![tactic(auto)]

mod fixed_buffer;
mod growing;
mod reserved;

pub use fixed_buffer::{FixedBuffer, put_count};
pub use growing::{put_named, put_number, put_signed, put_text, put_two_digits, put_word};
pub use reserved::{put_count_reserved, put_reserved};
pub use std::alloc::AllocError as OutOfMemory;

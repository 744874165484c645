//! Sound files of RIFF/WAVE.
#![tactic(auto)]

mod chunk;
mod mono;
mod refusal;
mod written;

pub use mono::read_mono;
pub use refusal::WavRefusal;
pub use std::alloc::AllocError as OutOfMemory;
pub use written::{HEADER_SIZE, header, put_frame};

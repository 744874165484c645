//! The render of a tune, an SPC file over a table of weights, on the S-DSP, and a server of its cuts. Only here does the
//! program make a chip.
#![tactic(auto)]

mod opening;

pub use opening::{open_server, open_tune};
pub use std::alloc::AllocError as OutOfMemory;

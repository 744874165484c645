//! A vector of a fixed capacity, whose elements stay where they lie.
#![tactic(auto)]

mod vec;

pub use std::alloc::AllocError as OutOfMemory;
pub use vec::FixedVec;

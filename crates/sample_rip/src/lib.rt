//! The samples of a tune: which entries of the directory are wanted, where each sample starts and how it ends, its
//! decoded samples block by block, and what it comes to when it is encoded again.
#![tactic(auto)]

mod blocks;
mod entries;
mod finding;
mod found;
mod laws;
mod reencoding;
mod walk;

pub use entries::wanted;
pub use finding::rip;
pub use found::{RipEnd, RipFound};
pub use laws::a_sample_is_found_by_its_bits;
pub use reencoding::{RipReport, reencode};
pub use std::alloc::AllocError as OutOfMemory;
pub use walk::RipWalk;

//! Encodes samples as BRR blocks, and reports the true error of each block.
#![tactic(auto)]

mod block;
mod choice;
mod encoder;
mod laws;
mod report;
mod search;

pub use choice::{Choice, distance, nearest};
pub use encoder::{
    EncodeRefusal, Encoded, MAX_SAMPLES, encode, encode_from, end_bits, padded_samples,
    stands_alone,
};
pub use laws::{best_header_has_the_least_triple, least_place_is_first};
pub use report::BlockReport;
pub use search::{header_at, header_count, squared};
pub use std::alloc::AllocError as OutOfMemory;

//! Decodes the blocks of BRR, the compressed samples of the S-DSP (Anomie's S-DSP Doc, "BRR samples").
#![tactic(auto)]

mod block;
mod block_cache;
mod cached_block;
mod chain;
mod digit;
mod laws;
mod stream;

pub use block::{decode_block, decode_group};
pub use block_cache::BrrCache;
pub use chain::{BLOCK_SIZE, block_after, next_block};
pub use digit::{has_end, has_loop, kept_sample};
pub use laws::each_sample_is_kept;
pub use std::alloc::AllocError as OutOfMemory;
pub use stream::{BrrRefusal, decode_stream};

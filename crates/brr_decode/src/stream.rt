// A stream of blocks.
ghost use Rattle.std.specs.Prelude.{◌≡◌, ◌*◌, ◌/◌, ◌⊎◌, length, vec_len, IfOk, IfErr};
ghost use Rattle.brr_decode.specs.Stream.{decoded_stream};
ghost use Rattle.brr_decode.specs.declared.stream.BrrRefusal.TheVariants.{OutOfMemory as MemoryRefusal};

use crate::{OutOfMemory, decode_block};
use std::alloc::Global;
use thiserror::Error;

/// Why a stream was not decoded.
#[derive(Clone, Copy, Debug, PartialEq, Eq, Error)]
pub enum BrrRefusal {
    /// This number of bytes isn't that of 1 to 7,281 blocks.
    #[error("{0} bytes are no blocks")]
    Length(usize),
    /// There is no memory.
    #[error("out of memory")]
    OutOfMemory,
}

impl From<OutOfMemory> for BrrRefusal {
    ghost from_gives = { λ _ e. e ≡ MemoryRefusal };

    fn from(_e: OutOfMemory) -> BrrRefusal {
        BrrRefusal::OutOfMemory
    }
}

/// Decodes all blocks in order, from two zeros. Loop and end bits have no effect. No memory is taken for a length that is refused.
#[tactic(auto, unfolding(crate::specs::Stream::decoded_stream))]
pub fn decode_stream(alloc: Global, bytes: &[u8]) -> Result<Vec<i16>, BrrRefusal>
    ensures samples { IfOk result (λ samples. decoded_stream bytes.now ≡ Ok samples.items) }
    ensures count { IfOk result (λ samples. vec_len samples ≡ 16 * (length bytes.now / 9)) }
    ensures refused { IfErr (decoded_stream bytes.now) (λ refusal. result ≡ Err refusal) }
    ensures causes { IfErr result (λ refusal. (decoded_stream bytes.now ≡ Err refusal) ⊎ (refusal ≡ BrrRefusal.OutOfMemory)) }
{
    let count = bytes.len();
    if count == 0 || count > 65529 || count % 9 != 0 {
        return Err(BrrRefusal::Length(count));
    }
    let mut samples = Vec::with_capacity(alloc, count / 9 * 16)?;
    let mut rest = bytes;
    let mut last = 0;
    let mut before = 0;
    'each: while let Some((block, tail)) = rest.split_first_chunk::<9>() {
        let kept = decode_block(block, last, before);
        samples.extend_from_slice(&kept)?;
        last = kept[15];
        before = kept[14];
        rest = tail;
    }
    Ok(samples)
}

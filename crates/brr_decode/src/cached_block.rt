//! A block that is cached.
ghost use Rattle.std.specs.Prelude.{◌≡◌, ◌<◌};
ghost use Rattle.brr_decode.specs.CachedBlocks.{byte_of, IsBlockOf};

/// A block, and what it was decoded from: its header, its digits and the two samples before one of its groups.
#[derive(Clone, Copy)]
pub(crate) struct CachedBlock {
    /// Its eight bytes of digits, the first in the low bits.
    pub digits: u64,
    pub header: u8,
    /// The first of its groups that was decoded.
    pub from: u8,
    /// The two samples before the block, its sixteen, and padding, so that sixteen numbers can be copied from each group on.
    pub row: [i16; 32],
    ghost is_block: { IsBlockOf header digits from row },
}

/// A byte of the digits of a block.
pub(crate) fn byte_of(digits: u64, k: u8) -> u8
    requires { k < 8 }
    ensures { result ≡ byte_of digits k }
{
    (digits >> (8 * k) & 0xff) as u8
}

//! Blocks that were decoded, kept by what they were decoded from: a voice that loops, and each voice that plays the same sample, comes to
//! the same blocks again and again.
ghost use Rattle.std.specs.Prelude.{◌≡◌, ◌<◌, ◌≤◌, ◌+◌, ◌*◌, ℕ, true, length, take};
ghost use Rattle.brr_decode.specs.Header.{filter_of};
ghost use Rattle.brr_decode.specs.CacheHit.{WasDecodedFrom};
ghost use Rattle.brr_decode.specs.CachedBlocks.{with_groups};

use crate::OutOfMemory;
use crate::block::group_under;
use crate::cached_block::{CachedBlock, byte_of};
use crate::digit::filter_of;
use std::alloc::Global;
use std::marker::Model;

/// How many blocks are cached.
const CACHED_BLOCKS: usize = 2048;

/// The place of the block at an address among the cached blocks.
fn place_of(address: u16) -> usize
    ensures { result < 2048 }
{
    usize::from(address / 8 % 2048)
}

impl CachedBlock {
    /// Decodes a block under the filter of its header, from one of its groups on. Where the filter is a constant, the code of each group is straight.
    #[inline(always)]
    fn decoded_under(
        filter: u8,
        header: u8,
        digits: u64,
        group: u8,
        p1: i16,
        p2: i16,
    ) -> CachedBlock
        requires group { group < 4 }
        requires filter { filter ≡ filter_of header }
        ensures { WasDecodedFrom result header digits group p1 p2 }
    {
        let mut row = [0; 32];
        let first = 4 * usize::from(group);
        row[first] = p2;
        row[first + 1] = p1;
        for g in group..4 {
            let at = 4 * usize::from(g);
            let high = byte_of(digits, 2 * g);
            let low = byte_of(digits, 2 * g + 1);
            let kept = group_under(filter, header, high, low, row[at + 1], row[at]);
            row[at + 2..at + 6].copy_from_slice(&kept);
        }
        CachedBlock {
            digits,
            header,
            from: group,
            row,
        }
    }

    /// Decodes a block from one of its groups on. Its filter is distinguished once for all of them.
    fn decoded(header: u8, digits: u64, group: u8, p1: i16, p2: i16) -> CachedBlock
        requires { group < 4 }
        ensures { WasDecodedFrom result header digits group p1 p2 }
    {
        match filter_of(header) {
            0 => CachedBlock::decoded_under(0, header, digits, group, p1, p2),
            1 => CachedBlock::decoded_under(1, header, digits, group, p1, p2),
            2 => CachedBlock::decoded_under(2, header, digits, group, p1, p2),
            _ => CachedBlock::decoded_under(3, header, digits, group, p1, p2),
        }
    }

    /// Puts a decoded block in place of this one. Out of line, so that a cache hit needs no stack for one.
    #[inline(never)]
    fn replace(&mut self, header: u8, digits: u64, group: u8, p1: i16, p2: i16)
        requires { group < 4 }
        ensures { WasDecodedFrom self.new header digits group p1 p2 }
    {
        *self = CachedBlock::decoded(header, digits, group, p1, p2);
    }

    /// Whether the block is one of such a header and such digits, and was decoded after these two samples before one of its groups.
    #[inline(always)]
    fn is_hit(&self, header: u8, digits: u64, group: u8, p1: i16, p2: i16) -> bool
        requires { group < 4 }
        ensures { result ≡ true → WasDecodedFrom self.now header digits group p1 p2 }
    {
        let at = 4 * usize::from(group);
        self.digits == digits
            && self.header == header
            && self.from <= group
            && self.row[at + 1] == p1
            && self.row[at] == p2
    }
}

/// The last blocks that were decoded, 2,048 at most. Contracts see nothing of it.
#[derive(Drop)]
pub struct BrrCache {
    blocks: Vec<CachedBlock>,
}

impl Model for BrrCache {
    ghost use Rattle.std.specs.Prelude.{⊤, ◌≡◌, vec_len};

    ghost Value = { ⊤ };

    ghost view = { λ _. tt };

    ghost invariant = { λ m. vec_len m.blocks ≡ 2048 };
}

impl BrrCache {
    /// A cache with one block, of zeros. No clause is wanted: contracts see nothing of a cache, and by its type each block in it is
    /// what it was decoded from.
    pub fn new(alloc: Global) -> Result<BrrCache, OutOfMemory> {
        let zeros = CachedBlock::decoded(0, 0, 0, 0, 0);
        let blocks = vec![in alloc; zeros; CACHED_BLOCKS]?;
        Ok(BrrCache { blocks })
    }

    /// The block at an address, decoded from one of its groups on, after the samples `p2` and then `p1`, unless that is cached. Where the block stands
    /// shows where it is cached and no more. Inlined, so that a block that is cached costs no call.
    #[inline(always)]
    fn lookup(
        &mut self,
        address: u16,
        header: u8,
        digits: u64,
        group: u8,
        p1: i16,
        p2: i16,
    ) -> &CachedBlock
        requires { group < 4 }
        ensures { WasDecodedFrom result.now header digits group p1 p2 }
    {
        let place = place_of(address);
        if !self.blocks[place].is_hit(header, digits, group, p1, p2) {
            self.blocks[place].replace(header, digits, group, p1, p2);
        }
        &self.blocks[place]
    }

    /// Copies the samples of a block, from one of its groups on, to a row, after its first `len` kept samples. The block is decoded unless it is cached.
    /// Always sixteen numbers are copied, so that the length is a constant, and through a local buffer, which overlaps neither row. What comes after
    /// the block's own samples is ignored.
    #[inline(always)]
    pub fn read_rest(
        &mut self,
        address: u16,
        header: u8,
        digits: u64,
        group: u8,
        row: &mut [i16],
        len: usize,
    )
        requires group { group < 4 }
        requires some { 2 ≤ len }
        requires capacity { len + 16 ≤ length row.old }
        ensures row { (groups : ℕ) → group + groups ≤ 4
            → take (len + 4 * groups) row.new ≡ with_groups (take len row.old) header digits group groups }
        ensures length { length row.new ≡ length row.old }
    {
        let cached = self.lookup(address, header, digits, group, row[len - 1], row[len - 2]);
        let from = 4 * usize::from(group) + 2;
        let mut kept = [0; 16];
        kept.copy_from_slice(&cached.row[from..from + 16]);
        row[len..len + 16].copy_from_slice(&kept);
    }
}

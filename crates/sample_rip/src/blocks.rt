// The blocks of a sample in memory.
ghost use Rattle.std.specs.Prelude.{◌≡◌};
ghost use Rattle.sample_rip.specs.Blocks.{block_address, block_bytes, ends_at, loops_at};

use aram_core::Aram;
use brr_decode::{has_end, has_loop};

/// The most blocks that a sample has.
pub const MAX_BLOCKS: u32 = 7280;

/// The address of a block of the sample that starts at `start`, counted from 0.
pub fn block_address(start: u16, block: u32) -> u16
    ensures { result ≡ block_address start block }
{
    ((u64::from(start) + 9 * u64::from(block)) % 65536) as u16
}

/// Whether a block has its end bit.
pub fn ends_at(memory: &Aram, start: u16, block: u32) -> bool
    ensures { result ≡ ends_at memory.now start block }
{
    has_end(memory.get(block_address(start, block)))
}

/// Whether a block has its loop bit.
pub fn loops_at(memory: &Aram, start: u16, block: u32) -> bool
    ensures { result ≡ loops_at memory.now start block }
{
    has_loop(memory.get(block_address(start, block)))
}

/// The bytes of a block, which may wrap at the end of memory.
pub fn block_bytes(memory: &Aram, start: u16, block: u32) -> [u8; 9]
    ensures { result ≡ block_bytes memory.now start block }
{
    let at = block_address(start, block);
    [
        memory.get(at),
        memory.get(at.wrapping_add(1)),
        memory.get(at.wrapping_add(2)),
        memory.get(at.wrapping_add(3)),
        memory.get(at.wrapping_add(4)),
        memory.get(at.wrapping_add(5)),
        memory.get(at.wrapping_add(6)),
        memory.get(at.wrapping_add(7)),
        memory.get(at.wrapping_add(8)),
    ]
}

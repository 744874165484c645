//! The addresses of blocks, one after another. After FFFFh comes 0000h.
ghost use Rattle.std.specs.Prelude.{◌≡◌, ◌+◌, ◌%◌};
ghost use Rattle.brr_decode.specs.Header.{next_block};

use crate::digit::has_end;

/// The bytes of a block: its header, and eight bytes of digits.
pub const BLOCK_SIZE: u16 = 9;

/// The address of the block that stands right after one.
pub fn block_after(block: u16) -> u16
    ensures { result ≡ (block + 9) % 0x10000 }
{
    block.wrapping_add(BLOCK_SIZE)
}

/// The address of the block that a voice reads after one with such a header: the loop word after an end, else the block right after it
/// (Anomie's S-DSP Doc, "BRR samples").
pub fn next_block(header: u8, block: u16, loop_word: u16) -> u16
    ensures { result ≡ next_block header block loop_word }
{
    if has_end(header) {
        loop_word
    } else {
        block_after(block)
    }
}

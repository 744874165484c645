// Where a sample starts, how many blocks it has, and how it ends.
ghost use Rattle.std.specs.Prelude.{◌≡◌, ◌<◌, ◌≤◌, IfSome};
ghost use Rattle.brr_encode.specs.Encoding.{max_blocks};
ghost use Rattle.sample_rip.specs.Rip.{last_block, block_at, loop_end, block_count, end_after, found_from, rip_found};

use crate::blocks::{MAX_BLOCKS, block_address, ends_at, loops_at};
use crate::{RipEnd, RipFound};
use aram_core::Aram;
use voice_unit::{loop_word, start_word};

/// The first block with its end bit.
fn last_block(memory: &Aram, start: u16) -> Option<u32>
    ensures block { result ≡ last_block memory.now start }
    ensures within { IfSome result (λ block. block < max_blocks) }
{
    for block in 0..MAX_BLOCKS {
        if ends_at(memory, start, block) {
            return Some(block);
        }
    }
    None
}

/// The first block at an address, up to a last one.
fn block_at(start: u16, address: u16, last: u32) -> Option<u32>
    requires { last < max_blocks }
    ensures block { result ≡ block_at start address last }
    ensures within { IfSome result (λ block. block ≤ last) }
{
    for block in 0..last + 1 {
        if block_address(start, block) == address {
            return Some(block);
        }
    }
    None
}

/// The end of a sample that loops to an address.
fn loop_end(start: u16, address: u16, last: u32) -> RipEnd
    requires { last < max_blocks }
    ensures { result ≡ loop_end (block_at start address last) }
{
    match block_at(start, address, last) {
        Some(block) => RipEnd::Loop(16 * block),
        None => RipEnd::Outside,
    }
}

/// How a sample ends whose last block is this one.
fn end_after(memory: &Aram, start: u16, address: u16, last: Option<u32>) -> RipEnd
    requires { IfSome last (λ block. block < max_blocks) }
    ensures { result ≡ end_after memory.now start address last }
{
    match last {
        Some(last) if loops_at(memory, start, last) => loop_end(start, address, last),
        Some(_) => RipEnd::NoLoop,
        None => RipEnd::Open,
    }
}

/// How many blocks a sample has whose last block is this one.
fn block_count(last: Option<u32>) -> u32
    requires { IfSome last (λ block. block < max_blocks) }
    ensures count { result ≡ block_count last }
    ensures some { 0 < result }
    ensures few { result ≤ max_blocks }
{
    match last {
        Some(last) => last + 1,
        None => MAX_BLOCKS,
    }
}

/// The sample that starts at an address and loops to another.
fn found_from(memory: &Aram, start: u16, address: u16) -> RipFound
    ensures found { result ≡ found_from memory.now start address }
    ensures some { 0 < result.blocks }
    ensures few { result.blocks ≤ max_blocks }
{
    let last = last_block(memory, start);
    RipFound {
        start,
        blocks: block_count(last),
        end: end_after(memory, start, address, last),
    }
}

/// The sample of an entry of the directory at page `dir`: blocks from its start word on, each nine bytes further, up to
/// the first with its end bit, and 7,280 at most.
#[tactic(auto, unfolding(crate::specs::Rip::rip_found))]
pub fn rip(memory: &Aram, dir: u8, entry: u8) -> RipFound
    ensures found { result ≡ rip_found memory.now dir entry }
    ensures some { 0 < result.blocks }
    ensures few { result.blocks ≤ max_blocks }
{
    let start = start_word(dir, entry, memory);
    let address = loop_word(dir, entry, memory);
    found_from(memory, start, address)
}

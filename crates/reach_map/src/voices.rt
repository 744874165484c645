//! The pages that voices read.

ghost use Rattle.std.specs.Prelude.{◌≡◌, ◌≤◌, ◌++◌, flat_map, length};
ghost use Rattle.std.specs.FinSet as set;
ghost use Rattle.aram_core.specs.Pages.{has_page};
ghost use Rattle.reach_map.specs.Added.{with_pages};
ghost use Rattle.reach_map.specs.Reach.{block_pages, chain, chain_pages, entry_pages, voice_pages};
ghost use Rattle.reach_map.specs.BlocksToEnd.{blocks_to_end};

use crate::ChainStart;
use crate::pages::{add_bytes, bytes_have_page};
use aram_core::{Aram, PageSet};
use brr_decode::{BLOCK_SIZE, block_after, has_end};

/// The bytes of an entry of the directory.
pub const ENTRY_SIZE: u16 = 4;

/// The blocks in which a voice can be in 64 samples.
pub const CHAIN_BLOCKS: u32 = 18;

/// The bytes from its start on, and those from its loop word on, within which the blocks of a chain stand.
pub const CHAIN_BYTES: u16 = BLOCK_SIZE * CHAIN_BLOCKS as u16;

/// The bytes of a block, for lengths.
const BLOCK_LENGTH: u32 = BLOCK_SIZE as u32;

/// The bytes of an entry of the directory, for lengths.
const ENTRY_LENGTH: u32 = ENTRY_SIZE as u32;

/// The bytes of a chain, for lengths.
const CHAIN_LENGTH: u32 = CHAIN_BYTES as u32;

/// How many blocks stand one after another from a block on, up to the first that has its end bit, and at most so many.
fn blocks_to_end(memory: &Aram, start: u16, most: u32) -> u32
    ensures length { result ≡ blocks_to_end memory.now start most }
    ensures most { result ≤ most }
{
    let mut block = start;
    let mut left = most;
    while left > 0 {
        left -= 1;
        if has_end(memory.get(block)) {
            break;
        }
        block = block_after(block);
    }
    most - left
}

/// Puts the pages of so many blocks of a chain into a set: those of its blocks up to the first end, and those from its loop word
/// up to the first end there. After that end come the same blocks again. 28 blocks are shorter than a page.
fn add_blocks(pages: &mut PageSet, memory: &Aram, start: ChainStart, count: u32)
    requires some { 1 ≤ count }
    requires few { count ≤ 28 }
    ensures { pages.new ≡ with_pages pages.old (flat_map block_pages (chain memory.now start.loop_word count start.block)) }
{
    let first = blocks_to_end(memory, start.block, count);
    add_bytes(pages, start.block, BLOCK_LENGTH * first);
    if first < count {
        let again = blocks_to_end(memory, start.loop_word, count - first);
        add_bytes(pages, start.loop_word, BLOCK_LENGTH * again);
    }
}

/// Whether some of the blocks of a chain lie on a page: one of those up to the first end, or of those from its loop word up to the
/// first end there.
fn blocks_have_page(memory: &Aram, start: ChainStart, page: u8) -> bool
    ensures { result ≡ has_page (chain_pages memory.now start) page }
{
    let first = blocks_to_end(memory, start.block, CHAIN_BLOCKS);
    if bytes_have_page(start.block, BLOCK_LENGTH * first, page) {
        return true;
    }
    if first == CHAIN_BLOCKS {
        return false;
    }
    let again = blocks_to_end(memory, start.loop_word, CHAIN_BLOCKS - first);
    bytes_have_page(start.loop_word, BLOCK_LENGTH * again, page)
}

/// Whether a voice on a chain can read bytes of a page. The chain is walked only where the page is near to its start or to its loop word.
pub fn chain_has_page(memory: &Aram, start: ChainStart, page: u8) -> bool
    ensures { result ≡ has_page (chain_pages memory.now start) page }
{
    if bytes_have_page(start.block, CHAIN_LENGTH, page) {
        return blocks_have_page(memory, start, page);
    }
    if !bytes_have_page(start.loop_word, CHAIN_LENGTH, page) {
        return false;
    }
    blocks_have_page(memory, start, page)
}

/// Whether some of the four bytes of an entry of the directory lie on a page.
#[inline]
pub fn entry_has_page(entry: u16, page: u8) -> bool
    ensures { result ≡ has_page (entry_pages entry) page }
{
    bytes_have_page(entry, ENTRY_LENGTH, page)
}

/// Puts the pages of chains into a set.
fn add_chains(pages: &mut PageSet, memory: &Aram, starts: &[ChainStart])
    ensures { pages.new ≡ with_pages pages.old (flat_map (chain_pages memory.now) starts.now) }
{
    for start in starts {
        add_blocks(pages, memory, *start, CHAIN_BLOCKS);
    }
}

/// Puts the pages of entries of the directory into a set.
fn add_entries(pages: &mut PageSet, entries: &[u16])
    ensures { pages.new ≡ with_pages pages.old (flat_map entry_pages entries.now) }
{
    for entry in entries {
        add_bytes(pages, *entry, ENTRY_LENGTH);
    }
}

/// The pages that voices read.
pub fn voice_pages(memory: &Aram, starts: &[ChainStart], entries: &[u16]) -> PageSet
    ensures { result ≡ set.from_list (voice_pages memory.now starts.now entries.now) }
{
    let mut pages = PageSet::empty();
    add_entries(&mut pages, entries);
    add_chains(&mut pages, memory, starts);
    pages
}

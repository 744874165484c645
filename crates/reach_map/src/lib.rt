//! The parts of memory that the S-DSP can meet in the samples to come.
#![tactic(auto)]

mod pages;
mod voices;

ghost use Rattle.std.specs.Prelude.{◌≡◌, ◌≤◌, length};
ghost use Rattle.aram_core.specs.declared.aram.TheConstants.{MEMORY_SIZE};
ghost use Rattle.reach_map.specs.Reach.{reach};

use crate::pages::window_pages;
use crate::voices::voice_pages;
pub use aram_core::Window;
use aram_core::{Aram, PageSet};
pub use brr_decode::BLOCK_SIZE;
pub use chip_form::ReachPages;
pub use pages::bytes_have_page;
pub use voices::{CHAIN_BLOCKS, CHAIN_BYTES, ENTRY_SIZE, chain_has_page, entry_has_page};

/// Where a voice can be in its sample: a block, and the block to which it goes after one that ends.
#[derive(Clone, Copy, Default)]
pub struct ChainStart {
    pub block: u16,
    pub loop_word: u16,
}

/// The reach of voices at the starts of chains, with their entries of the directory, and of an echo with its window, which
/// writes where `writes_on` is set.
#[tactic(auto, unfolding(crate::specs::Reach::reach))]
pub fn reach(
    memory: &Aram,
    starts: &[ChainStart],
    entries: &[u16],
    window: Window,
    writes_on: bool,
) -> ReachPages
    requires starts { length starts.now ≤ 16 }
    requires entries { length entries.now ≤ 8 }
    requires some { 1 ≤ window.len }
    requires most { window.len ≤ MEMORY_SIZE }
    ensures { result ≡ reach memory.now starts.now entries.now window writes_on }
{
    let voices = voice_pages(memory, starts, entries);
    let echo = window_pages(window);
    let mut read_pages = voices;
    read_pages.add_all(&echo);
    if writes_on {
        ReachPages {
            read_pages,
            write_pages: echo,
            entangled: voices.meets(&echo),
        }
    } else {
        ReachPages {
            read_pages,
            write_pages: PageSet::empty(),
            entangled: false,
        }
    }
}

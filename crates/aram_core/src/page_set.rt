//! Sets of pages.

ghost use Rattle.std.specs.Prelude.{◌≡◌, ◌≤◌, ◌<◌, ◌-◌, ◌*◌, ◌%◌, ◌^◌, ℕ, bit_or, nat_lt};
ghost use Rattle.std.specs.FinSet as set;
ghost use Rattle.aram_core.specs.Pages.{page_of, pages_from, have_common_page};

use crate::{PAGE_COUNT, PAGE_SIZE};
use std::marker::Model;

/// The pages of the memory, as a number of pages in a row.
const PAGES: u16 = PAGE_COUNT as u16;

/// The page of an address: its high byte.
pub fn page_of(address: u16) -> u8
    ensures { result ≡ page_of address }
{
    (address / PAGE_SIZE as u16) as u8
}

/// A set of page numbers, 0 to 255.
#[derive(Clone, Copy, Debug)]
pub struct PageSet {
    low: u128,
    high: u128,
}

impl Model for PageSet {
    ghost use Rattle.std.specs.Prelude.{◌<◌, ◌^◌};
    ghost use Rattle.std.specs.Ordering.{nat_cmp};
    ghost use Rattle.std.specs.Coded.{coded_ℕ};
    ghost use Rattle.std.specs.FinSet as set;
    ghost use Rattle.aram_core.specs.PageBits.{marked_pages, word_of, words_come_back};

    ghost Value = { set.FinSet nat_cmp };

    ghost coded = { set.code coded_ℕ };

    ghost view = { λ s. marked_pages s.low s.high };

    ghost invariant = { λ s. (s.low < 2 ^ 128) × (s.high < 2 ^ 128) };

    ghost inverse = { λ pages. record { low = word_of pages 0; high = word_of pages 128 } };

    ghost inverse_ok = { λ s fits. words_come_back s.low s.high fits.0 fits.1 (λ low high. record { low = low; high = high }) };
}

impl PageSet {
    /// The set with no page.
    pub fn empty() -> PageSet
        ensures { result ≡ set.empty }
    {
        PageSet { low: 0, high: 0 }
    }

    /// The first so many pages.
    fn below(count: u16) -> PageSet
        requires { count ≤ PAGE_COUNT }
        ensures { (q : ℕ) → set.contains result q ≡ nat_lt q count }
    {
        PageSet {
            low: ones(count.min(128)),
            high: ones(count.saturating_sub(128)),
        }
    }

    /// So many pages from a first one on, which go on at page 0 after page 255.
    pub fn pages_from(first: u8, count: u16) -> PageSet
        requires { count ≤ PAGE_COUNT }
        ensures { result ≡ pages_from first count }
    {
        let first = u16::from(first);
        let end = first + count;
        let before = PageSet::below(first);
        if end <= PAGES {
            PageSet::below(end).without(&before)
        } else {
            let mut pages = PageSet::below(PAGES).without(&before);
            pages.add_all(&PageSet::below(end - PAGES));
            pages
        }
    }

    /// The pages of the set that are not in another one.
    fn without(&self, other: &PageSet) -> PageSet
        ensures { result ≡ set.difference self.now other.now }
    {
        PageSet {
            low: self.low & !other.low,
            high: self.high & !other.high,
        }
    }

    /// Puts the pages of another set into the set.
    pub fn add_all(&mut self, other: &PageSet)
        ensures { self.new ≡ set.union self.old other.now }
    {
        self.low = joined(self.low, other.low);
        self.high = joined(self.high, other.high);
    }

    /// Puts a page into the set.
    pub fn add(&mut self, page: u8)
        ensures { self.new ≡ set.insert self.old page }
    {
        if page < 128 {
            self.low = with_bit(self.low, page);
        } else {
            self.high = with_bit(self.high, page - 128);
        }
    }

    /// Whether a page is in the set.
    pub fn has(&self, page: u8) -> bool
        ensures { result ≡ set.contains self.now page }
    {
        let word = if page < 128 { self.low } else { self.high };
        word >> (page % 128) & 1 == 1
    }

    /// Whether the sets have a page in common.
    pub fn meets(&self, other: &PageSet) -> bool
        ensures { result ≡ have_common_page self.now other.now }
    {
        self.low & other.low != 0 || self.high & other.high != 0
    }
}

/// A word whose first so many bits are set.
fn ones(count: u16) -> u128
    requires { count ≤ 128 }
    ensures { result ≡ 2 ^ count - 1 }
{
    if count == 128 {
        u128::MAX
    } else {
        (1 << count) - 1
    }
}

/// The bits of two words.
fn joined(word: u128, other: u128) -> u128
    ensures { result ≡ bit_or word other }
{
    word | other
}

/// The word with one more bit set.
fn with_bit(word: u128, bit: u8) -> u128
    requires { bit < 128 }
    ensures { result ≡ bit_or word (1 * 2 ^ bit % 2 ^ 128) }
{
    word | 1 << bit
}

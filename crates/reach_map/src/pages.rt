//! Pages put into sets.

ghost use Rattle.std.specs.Prelude.{◌≡◌, ◌≤◌};
ghost use Rattle.std.specs.FinSet as set;
ghost use Rattle.aram_core.specs.Pages.{has_page};
ghost use Rattle.aram_core.specs.declared.aram.TheConstants.{MEMORY_SIZE, PAGE_SIZE};
ghost use Rattle.reach_map.specs.Added.{with_pages};
ghost use Rattle.reach_map.specs.Reach.{pages_of_bytes, window_pages};

use crate::Window;
use aram_core::{PAGE_BYTES, PageSet, page_of};

/// Whether some of so many bytes from an address on lie on a page.
#[inline]
pub fn bytes_have_page(start: u16, count: u32, page: u8) -> bool
    requires some { 1 ≤ count }
    requires most { count ≤ MEMORY_SIZE }
    ensures { result ≡ has_page (pages_of_bytes start count) page }
{
    let ahead = page.wrapping_sub(page_of(start));
    u32::from(PAGE_BYTES) * u32::from(ahead) < count + u32::from(start % PAGE_BYTES)
}

/// Puts the pages of a few bytes into a set: those of the first and of the last one.
pub fn add_bytes(pages: &mut PageSet, start: u16, count: u32)
    requires some { 1 ≤ count }
    requires few { count ≤ PAGE_SIZE }
    ensures { pages.new ≡ with_pages pages.old (pages_of_bytes start count) }
{
    let first = page_of(start);
    let last = page_of(start.wrapping_add((count - 1) as u16));
    pages.add(first);
    if last != first {
        pages.add(last);
    }
}

/// The pages of a window: those of each 256th byte, and that of the last one.
pub fn window_pages(window: Window) -> PageSet
    requires some { 1 ≤ window.len }
    requires most { window.len ≤ MEMORY_SIZE }
    ensures { result ≡ set.from_list (window_pages window) }
{
    let last = (window.len - 1) as u16;
    let mut pages = PageSet::pages_from(page_of(window.start), last / PAGE_BYTES + 1);
    pages.add(page_of(window.start.wrapping_add(last)));
    pages
}

// What was asked of a chip's reach, and what was found by it. The tests of marks are inlined into each access of the bus.
ghost use Rattle.std.specs.Prelude.{◌≡◌, ◌/◌, ℕ, List, true, false};
ghost use Rattle.std.specs.FinSet as set;
ghost use Rattle.aram_core.specs.Pages.{Pages};
ghost use Rattle.aram_core.specs.declared.window.Window.{Window};
ghost use Rattle.chip_form.specs.declared.pages.ReachPages.{ReachPages};
ghost use Rattle.lag_bus.specs.Book.{may_be_read, may_be_written};
ghost use Rattle.lag_bus.specs.Held.{end_of_memory_alone, IsMemoryAlone, IsKept, AreReadsKnown, IsKnown, IsAnswered, IsKeptThroughWrite};

use aram_core::{Aram, PAGE_COUNT, Window, page_of};
use chip_form::Chip;

/// What was asked of a chip's reach since it was dropped: whether it is entangled, and marks of the pages that no sample writes by
/// it, and of those that none reads. The mark of a page is where memory alone ends on it, so that one comparison shows most
/// addresses; 0 is no mark. The marks of pages that no sample writes stay as long as the window does in which samples write.
#[derive(Drop)]
pub struct ReachCache {
    /// The window in which samples write.
    window: Window,
    /// Whether anything beside the marks of unwritten pages was kept.
    has_reads: bool,
    entangled: Option<bool>,
    unwritten: [u16; PAGE_COUNT],
    unread: [u16; PAGE_COUNT],
}

/// Where memory alone ends on a page.
fn end_of_memory_alone(page: u8) -> u16
    ensures { result ≡ end_of_memory_alone page }
{
    if page == 0 { 0xF0 } else { 0xFFC0 }
}

impl ReachCache {
    /// Nothing was asked.
    pub fn none<C: Chip>(chip: &C) -> Self
        ensures { (memory : List ℕ) → IsKnown C.written_pages (C.meaning.reach (C.state chip.now)) memory result }
    {
        let window = chip.written_window();
        ReachCache {
            window,
            has_reads: false,
            entangled: None,
            unwritten: [0; PAGE_COUNT],
            unread: [0; PAGE_COUNT],
        }
    }

    /// Drops what another state of the chip or of the memory may make another one, so that it is asked anew: all but the marks of
    /// unwritten pages.
    // In line with writes and batches: where nothing was asked it is one test.
    #[inline]
    fn drop_reads(&mut self)
        ensures window { self.new.window ≡ self.old.window }
        ensures kept { (pages : Window → Pages) → IsKept pages self.old → IsKept pages self.new }
        ensures reads { (pages : Window → Pages) → IsKept pages self.old → (reach : ReachPages) → AreReadsKnown reach self.new }
    {
        if self.has_reads {
            self.has_reads = false;
            self.entangled = None;
            self.unread = [0; PAGE_COUNT];
        }
    }

    /// Drops what may be another for a chip that changed. The marks of unwritten pages stay where it writes in the same window.
    #[inline]
    pub fn renew<C: Chip>(&mut self, chip: &C)
        requires { IsKept C.written_pages self.old }
        ensures { (memory : List ℕ) → IsKnown C.written_pages (C.meaning.reach (C.state chip.now)) memory self.new }
    {
        let window = chip.written_window();
        if window == self.window {
            self.drop_reads();
        } else {
            *self = ReachCache::none(chip);
        }
    }

    /// Whether a mark shows that memory alone is at an address, which no sample writes. `false` may come at any time: no clause
    /// says when it comes, and whoever gets it asks the chip.
    #[inline(always)]
    pub fn is_unwritten_memory(&self, at: u16) -> bool
        ensures unwritten { (pages : Window → Pages) → (reach : List ℕ → ReachPages) → (memory : List ℕ) → IsKnown pages reach memory self.now
            → result ≡ true → may_be_written (reach memory) at ≡ false }
        ensures alone { (pages : Window → Pages) → (reach : List ℕ → ReachPages) → (memory : List ℕ) → IsKnown pages reach memory self.now
            → result ≡ true → IsMemoryAlone at }
    {
        at < self.unwritten[usize::from(page_of(at))]
    }

    /// Whether the page of an address is marked as one that no sample writes. `false` may come at any time: no clause says when it
    /// comes, and whoever gets it asks the chip.
    #[inline]
    pub fn is_unwritten(&self, at: u16) -> bool
        ensures { (pages : Window → Pages) → (reach : List ℕ → ReachPages) → (memory : List ℕ) → IsKnown pages reach memory self.now
            → result ≡ true → may_be_written (reach memory) at ≡ false }
    {
        0 < self.unwritten[usize::from(page_of(at))]
    }

    /// Whether a mark shows that memory alone is at an address, which no sample reads. `false` may come at any time: no clause
    /// says when it comes, and whoever gets it asks the chip.
    #[inline(always)]
    pub fn is_unread_memory(&self, at: u16) -> bool
        ensures unread { (pages : Window → Pages) → (reach : List ℕ → ReachPages) → (memory : List ℕ) → IsKnown pages reach memory self.now
            → result ≡ true → may_be_read (reach memory) at ≡ false }
        ensures alone { (pages : Window → Pages) → (reach : List ℕ → ReachPages) → (memory : List ℕ) → IsKnown pages reach memory self.now
            → result ≡ true → IsMemoryAlone at }
    {
        at < self.unread[usize::from(page_of(at))]
    }

    /// Whether the page of an address is marked as one that no sample reads.
    #[inline]
    fn is_marked_unread(&self, at: u16) -> bool
        ensures { (pages : Window → Pages) → (reach : List ℕ → ReachPages) → (memory : List ℕ) → IsKnown pages reach memory self.now
            → result ≡ true → may_be_read (reach memory) at ≡ false }
    {
        0 < self.unread[usize::from(page_of(at))]
    }

    /// Whether the reach of a chip is entangled. It is asked once.
    fn is_entangled<C: Chip>(&mut self, chip: &C, memory: &Aram) -> bool
        requires { IsKnown C.written_pages (C.meaning.reach (C.state chip.now)) memory.now self.old }
        ensures { IsAnswered C.written_pages (C.meaning.reach (C.state chip.now)) memory.now self.new (λ reach. reach.entangled) result }
    {
        match self.entangled {
            Some(entangled) => entangled,
            None => {
                let entangled = chip.is_entangled(memory);
                self.has_reads = true;
                self.entangled = Some(entangled);
                entangled
            }
        }
    }

    /// Whether samples may read the byte at an address. A page that they don't read is marked.
    pub fn may_be_read<C: Chip>(&mut self, chip: &C, memory: &Aram, at: u16) -> bool
        requires { IsKnown C.written_pages (C.meaning.reach (C.state chip.now)) memory.now self.old }
        ensures { IsAnswered C.written_pages (C.meaning.reach (C.state chip.now)) memory.now self.new (λ reach. may_be_read reach at) result }
    {
        if self.is_marked_unread(at) {
            return false;
        }
        if self.is_entangled(chip, memory) || chip.reads_page(memory, page_of(at)) {
            return true;
        }
        self.has_reads = true;
        self.unread[usize::from(page_of(at))] = end_of_memory_alone(page_of(at));
        false
    }

    /// Whether samples may write the byte at an address. A page that they don't write is marked.
    pub fn may_be_written<C: Chip>(&mut self, chip: &C, memory: &Aram, at: u16) -> bool
        requires { IsKnown C.written_pages (C.meaning.reach (C.state chip.now)) memory.now self.old }
        ensures { IsAnswered C.written_pages (C.meaning.reach (C.state chip.now)) memory.now self.new (λ reach. may_be_written reach at) result }
    {
        let page = page_of(at);
        if chip.writes_page(memory, page) {
            return true;
        }
        self.unwritten[usize::from(page)] = end_of_memory_alone(page);
        false
    }

    /// Makes ready for a write at an address while no sample is pending: what was kept goes where the write may make the reach another
    /// one. The pages that samples write stay the same whatever is written.
    #[inline]
    pub fn before_write<C: Chip>(&mut self, chip: &C, memory: &Aram, at: u16)
        requires { IsKnown C.written_pages (C.meaning.reach (C.state chip.now)) memory.now self.old }
        ensures { IsKeptThroughWrite C.written_pages (C.meaning.reach (C.state chip.now)) memory.now at self.new }
    {
        if !self.has_reads {
            return;
        }
        if self.may_be_read(chip, memory, at) {
            self.drop_reads();
        }
    }
}

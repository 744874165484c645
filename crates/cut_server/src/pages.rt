// The pages of a checkpoint: placed in the pool, and given back.
ghost use Rattle.std.specs.Prelude.{◌≡◌, ℕ, ◌≤◌, false, ◌<◌, length, nat_eq, slice_get, Some};
ghost use Rattle.std.specs.List.{count_by};
ghost use Rattle.page_pool.specs.Pool.{max_owners, slot_at, free_slots};
ghost use Rattle.cut_form.specs.Checkpoints.{page_count, pages_of, own_slots};
ghost use Rattle.cut_server.specs.Table.{max_named, AreApart};
ghost use Rattle.cut_server.specs.Placing.{shared_slots, AreOwned, IsPlaced, ArePlaced, AreGiven};

use aram_core::{Aram, MEMORY_SIZE};
use cut_form::PAGE_COUNT;
use page_pool::{Page, PagePool};

/// How many slots of its own a checkpoint needs: one for each page that it doesn't share with the newest.
pub(crate) fn own_slots(shared: &[bool; PAGE_COUNT]) -> u32
    ensures { result ≡ own_slots shared.now }
{
    let mut own = 0;
    for page in 0..PAGE_COUNT {
        if !shared[page] {
            own += 1;
        }
    }
    own
}

/// A page of the pool for a page of a memory: that of the newest where it was found to hold the same bytes, and else a free one.
fn place(pool: &mut PagePool, newest: &[Page], memory: &Aram, page: usize, is_shared: bool) -> Page
    requires within { page < page_count }
    requires owned { AreOwned pool.old max_owners newest.now }
    requires shared { slice_get (shared_slots pool.old newest.now (pages_of memory.now)) page ≡ Some is_shared }
    requires free { is_shared ≡ false → 0 < free_slots pool.old }
    ensures placed { IsPlaced pool.old pool.new newest.now (pages_of memory.now) page result }
    ensures memory { length memory.now ≡ MEMORY_SIZE }
{
    let bytes = memory.page(page as u8);
    if is_shared {
        let slot = newest[page];
        pool.share(slot);
        return slot;
    }
    pool.take(bytes).unwrap()
}

/// A page of the pool for each page of a memory, of which some were found to hold what those of the newest hold.
pub(crate) fn place_all(
    pool: &mut PagePool,
    newest: &[Page],
    memory: &Aram,
    shared: &[bool; PAGE_COUNT],
) -> [Page; PAGE_COUNT]
    requires owned { AreOwned pool.old max_named newest.now }
    requires apart { AreApart newest.now }
    requires few { (slot : ℕ) → (slot_at pool.old slot).owners ≤ max_named }
    requires shared { shared.now ≡ shared_slots pool.old newest.now (pages_of memory.now) }
    requires free { own_slots shared.now ≤ free_slots pool.old }
    ensures placed { ArePlaced pool.old pool.new newest.now (pages_of memory.now) result }
    ensures whole { length result ≡ page_count }
    ensures memory { length memory.now ≡ MEMORY_SIZE }
{
    let first = place(pool, newest, memory, 0, shared[0]);
    let mut pages = [first; PAGE_COUNT];
    for page in 1..PAGE_COUNT {
        pages[page] = place(pool, newest, memory, page, shared[page]);
    }
    pages
}

/// Gives the pages of a checkpoint back that is dropped.
pub(crate) fn give_all(pool: &mut PagePool, slots: &[Page])
    requires owned { (slot : ℕ) → count_by (nat_eq slot) slots.now ≤ (slot_at pool.old slot).owners }
    requires apart { AreApart slots.now }
    ensures { AreGiven pool.old pool.new slots.now }
{
    for slot in slots {
        pool.give(*slot);
    }
}

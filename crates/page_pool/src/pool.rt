// The pool, and the pages that it hands out.
ghost use Rattle.std.specs.Prelude.{◌≡◌, ◌<◌, ◌≤◌, ◌↔◌, length, replicate, IfOk, IfSome, IfNone, IsNone};
ghost use Rattle.page_pool.specs.Pool.{page_size, max_pages, max_owners, free_slot, slot_at, free_slots, after_take, after_share, after_give};

use crate::OutOfMemory;
use crate::slot::Slot;
use fixed_vec::FixedVec;
use std::alloc::Global;
use std::marker::Model;

/// The most pages of a pool: their numbers have 16 bits.
pub const MAX_PAGES: u32 = 65_536;

/// A page that a pool handed out, seen as the number of its slot, 0 to 65,535.
#[derive(Clone, Copy, Debug, PartialEq, Eq)]
pub struct Page {
    slot: u16,
}

impl Model for Page {
    ghost use Rattle.std.specs.Prelude.{ℕ};

    ghost Value = { ℕ };

    ghost view = { λ p. p.slot };

    ghost inverse = { λ n. record { slot = n } };
}

/// A pool of slots of 256 bytes, each with a number of owners. Only `new` takes memory: its slots lie in a vector of a fixed
/// capacity, and each is made when it is first taken. A call never changes the bytes of a slot that keeps an owner.
#[derive(Drop)]
pub struct PagePool {
    slots: FixedVec<Slot>,
    unmade: u32,
    first: u16,
    free: u32,
}

impl Model for PagePool {
    ghost use Rattle.std.specs.Prelude.{List};
    ghost use Rattle.fixed_vec.specs.FixedVec.{elements_of, capacity_of};
    ghost use Rattle.page_pool.specs.declared.slot.Slot.{Slot};
    ghost use Rattle.page_pool.specs.Free.{seen_pool, IsPooled};

    ghost Value = { List Slot };

    ghost view = { λ p. seen_pool (elements_of p.slots) p.unmade };

    ghost invariant = { λ p. IsPooled (elements_of p.slots) p.unmade p.first p.free (capacity_of p.slots) };
}

impl PagePool {
    /// A pool of 1 to 65,536 slots, all free.
    pub fn new(alloc: Global, pages: u32) -> Result<PagePool, OutOfMemory>
        requires some { 0 < pages }
        requires few { pages ≤ max_pages }
        ensures { IfOk result (λ pool. pool ≡ replicate pages free_slot) }
    {
        let slots = FixedVec::with_capacity(alloc, pages as usize)?;
        Ok(PagePool {
            slots,
            unmade: pages,
            first: 0,
            free: 0,
        })
    }

    /// Puts 256 bytes into a free slot, for one owner; None exactly where no slot is free.
    pub fn take(&mut self, bytes: &[u8]) -> Option<Page>
        requires { length bytes.now ≡ page_size }
        ensures none { IsNone result ↔ (free_slots self.old ≡ 0) }
        ensures unchanged { IfNone result (self.new ≡ self.old) }
        ensures was_free { IfSome result (λ page. (page < length self.old) × (slot_at self.old page ≡ free_slot)) }
        ensures holds { IfSome result (λ page. self.new ≡ after_take self.old page bytes.now) }
    {
        if self.free > 0 {
            let page = Page { slot: self.first };
            let slot = self.slots.element_mut(usize::from(self.first));
            self.first = slot.next();
            slot.hold(bytes);
            self.free -= 1;
            return Some(page);
        }
        if self.unmade == 0 {
            return None;
        }
        let page = Page {
            slot: self.slots.len() as u16,
        };
        self.slots.push(Slot::held(bytes));
        self.unmade -= 1;
        Some(page)
    }

    /// Gives a page one owner more.
    pub fn share(&mut self, page: Page)
        requires owned { 0 < (slot_at self.old page).owners }
        requires few { (slot_at self.old page).owners ≤ max_owners }
        ensures { self.new ≡ after_share self.old page }
    {
        let slot = self.slots.element_mut(usize::from(page.slot));
        slot.owners += 1;
    }

    /// Takes an owner from a page. The slot is free once it has none.
    pub fn give(&mut self, page: Page)
        requires { 0 < (slot_at self.old page).owners }
        ensures { self.new ≡ after_give self.old page }
    {
        let slot = self.slots.element_mut(usize::from(page.slot));
        if slot.owners > 1 {
            slot.owners -= 1;
        } else {
            slot.free(self.first);
            self.first = page.slot;
            self.free += 1;
        }
    }

    /// The bytes of a page that has an owner.
    pub fn bytes(&self, page: Page) -> &[u8]
        requires { 0 < (slot_at self.now page).owners }
        ensures bytes { result.now ≡ (slot_at self.now page).bytes }
        ensures whole { length result.now ≡ page_size }
    {
        let slot = &self.slots[usize::from(page.slot)];
        &slot.bytes
    }

    /// How many slots are free.
    pub fn free(&self) -> u32
        ensures { result ≡ free_slots self.now }
    {
        self.free + self.unmade
    }
}

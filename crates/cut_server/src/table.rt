// The table of checkpoints, over a pool of pages.
ghost use Rattle.std.specs.Prelude.{◌≡◌, ◌==◌, ◌≤◌, ◌+◌, ◌-◌, ◌<◌, ◌++◌, ◌∷◌, [], false, length, slice_index, slice_get};
ghost use Rattle.std.specs.Prelude.{IfOk, IfSome, IsNone, Some, ◌↔◌};
ghost use Rattle.std.specs.List.{list_any, position, remove, remove_range};
ghost use Rattle.page_pool.specs.Pool.{max_pages, free_slots};
ghost use Rattle.cut_form.specs.Checkpoints.{page_count, max_checkpoints, min_pages, pages_of, with_checkpoint, without_checkpoint, without_entry, stands_at, nearest};
ghost use Rattle.cut_form.specs.Checkpoints.{shared_with_newest, own_slots, slots_needed, slots_free, has_room_for_one};
ghost use Rattle.cut_form.specs.Marks.{room_made};
ghost use Rattle.cut_server.specs.Table.{Saved, live_checkpoints, saved_of, samples_of, newest_from, AreOwnersCounted, IsSavedFirst};
ghost use Rattle.cut_server.specs.IsServed.{BeginAtOpening};

use crate::OutOfMemory;
use crate::pages::{give_all, own_slots, place_all};
use aram_core::Aram;
use cut_form::{MAX_CHECKPOINTS, PAGE_COUNT};
use fixed_vec::FixedVec;
use page_pool::{Page, PagePool};
use std::alloc::Global;
use std::marker::Model;

/// A live checkpoint: what was saved of the machine, and a page of the pool for each page of its memory.
#[derive(Drop)]
pub(crate) struct LiveCheckpoint<S: Copy> {
    pub(crate) sample: u32,
    pub(crate) state: S,
    pub(crate) pages: [Page; PAGE_COUNT],
}

/// Up to 64 checkpoints, in the order in which they were taken. The first is that of the opening.
#[derive(Drop)]
pub(crate) struct Table<S: Copy> {
    pool: PagePool,
    checkpoints: FixedVec<LiveCheckpoint<S>>,
}

impl<S: Copy> Model for Table<S> {
    ghost use Rattle.std.specs.Prelude.{◌≤◌};
    ghost use Rattle.fixed_vec.specs.FixedVec.{elements_of, capacity_of};
    ghost use Rattle.cut_form.specs.Checkpoints.{max_checkpoints};
    ghost use Rattle.cut_server.specs.Table.{TableState, AreKeptIn};

    ghost Value = { TableState S };

    ghost view = { λ t. record { pool = t.pool; checkpoints = elements_of t.checkpoints } };

    ghost invariant = { λ t. (max_checkpoints ≤ capacity_of t.checkpoints) × AreKeptIn t.pool (elements_of t.checkpoints) };
}

/// The pages of the newest checkpoint, if there is one.
fn newest_pages<S: Copy>(checkpoints: &[LiveCheckpoint<S>]) -> &[Page]
    ensures { result.now ≡ newest_from [] checkpoints.now }
{
    match checkpoints.last() {
        Some(newest) => &newest.pages,
        None => &[],
    }
}

/// Whether one of the checkpoints was taken at a sample.
fn stands<S: Copy>(checkpoints: &[LiveCheckpoint<S>], sample: u32) -> bool
    ensures { result ≡ list_any (λ checkpoint. checkpoint.sample == sample) checkpoints.now }
{
    checkpoints
        .iter()
        .any(|checkpoint| checkpoint.sample == sample)
}

/// The place of the first checkpoint that was taken at a sample.
fn first_at<S: Copy>(checkpoints: &[LiveCheckpoint<S>], sample: u32) -> Option<usize>
    ensures { result ≡ position (λ checkpoint. checkpoint.sample == sample) checkpoints.now }
{
    checkpoints
        .iter()
        .position(|checkpoint| checkpoint.sample == sample)
}

impl<S: Copy> Table<S> {
    /// A table with the checkpoint of the opening.
    pub(crate) fn open(
        alloc: Global,
        pages: u32,
        state: S,
        memory: &Aram,
    ) -> Result<Table<S>, OutOfMemory>
        requires enough { min_pages ≤ pages }
        requires few { pages ≤ max_pages }
        ensures saved { IfOk result (λ table. saved_of table ≡ record { sample = 0; state = state; memory = memory.now } ∷ []) }
        ensures live { IfOk result (λ table. live_checkpoints table ≡ with_checkpoint [] 0 (pages_of memory.now)) }
        ensures free { IfOk result (λ table. free_slots table.pool + min_pages ≡ pages) }
        ensures size { IfOk result (λ table. length table.pool ≡ pages) }
    {
        let pool = PagePool::new(alloc, pages)?;
        let checkpoints = FixedVec::with_capacity(alloc, MAX_CHECKPOINTS as usize)?;
        let mut table = Table { pool, checkpoints };
        let shared = table.shared_pages(memory);
        table.add(0, state, memory, &shared);
        Ok(table)
    }

    /// How many checkpoints are live.
    pub(crate) fn len(&self) -> usize
        ensures live { result ≡ length (live_checkpoints self.now) }
        ensures samples { result ≡ length (samples_of self.now) }
        ensures few { result ≤ max_checkpoints }
    {
        self.checkpoints.len()
    }

    /// The sample of one of them.
    pub(crate) fn sample(&self, index: usize) -> u32
        requires { index < length (samples_of self.now) }
        ensures { result ≡ slice_index (samples_of self.now) index }
    {
        self.checkpoints[index].sample
    }

    /// How many pages are free.
    pub(crate) fn free(&self) -> u32
        ensures pool { result ≡ free_slots self.now.pool }
        ensures free { result ≡ slots_free (length self.now.pool) (live_checkpoints self.now) }
        ensures owners { AreOwnersCounted self.now }
    {
        self.pool.free()
    }

    /// The last one at or before a sample.
    pub(crate) fn nearest(&self, at: u32) -> usize
        requires { BeginAtOpening (saved_of self.now) }
        ensures index { result < length (samples_of self.now) }
        ensures sample { slice_index (samples_of self.now) result ≡ nearest (live_checkpoints self.now) at }
    {
        let mut nearest = 0;
        for index in 1..self.len() {
            let sample = self.sample(index);
            if sample <= at && sample > self.sample(nearest) {
                nearest = index;
            }
        }
        nearest
    }

    /// Whether one stands at a sample.
    pub(crate) fn has(&self, sample: u32) -> bool
        ensures { result ≡ stands_at (live_checkpoints self.now) sample }
    {
        stands(&self.checkpoints, sample)
    }

    /// The place of the one at a sample; None exactly where none stands there.
    pub(crate) fn place_of(&self, sample: u32) -> Option<usize>
        ensures within { IfSome result (λ place. place < length (samples_of self.now)) }
        ensures sample { IfSome result (λ place. slice_index (samples_of self.now) place ≡ sample) }
        ensures live { IfSome result (λ place. without_entry (live_checkpoints self.now) place ≡ without_checkpoint (live_checkpoints self.now) sample) }
        ensures none { IsNone result ↔ (stands_at (live_checkpoints self.now) sample ≡ false) }
    {
        first_at(&self.checkpoints, sample)
    }

    /// Copies the memory of one of them, and shows what else was saved.
    pub(crate) fn load(&self, index: usize, memory: &mut Aram) -> S
        requires { index < length (samples_of self.now) }
        ensures { let sample = slice_index (samples_of self.now) index in
            slice_get (saved_of self.now) index ≡ Some (record { sample = sample; state = result; memory = memory.new }) }
    {
        let checkpoint = &self.checkpoints[index];
        for page in 0..PAGE_COUNT {
            memory.set_page(page as u8, self.pool.bytes(checkpoint.pages[page]));
        }
        checkpoint.state
    }

    /// Whether a page of a memory holds what that of the newest holds.
    fn is_shared(&self, memory: &Aram, page: usize) -> bool
        requires { page < page_count }
        ensures { Some result ≡ slice_get (shared_with_newest (live_checkpoints self.now) (pages_of memory.now)) page }
    {
        match self.checkpoints.last() {
            Some(newest) => memory.page(page as u8) == self.pool.bytes(newest.pages[page]),
            None => false,
        }
    }

    /// Which pages of a memory hold what those of the newest hold.
    pub(crate) fn shared_pages(&self, memory: &Aram) -> [bool; PAGE_COUNT]
        ensures { result ≡ shared_with_newest (live_checkpoints self.now) (pages_of memory.now) }
    {
        let mut shared = [false; PAGE_COUNT];
        for page in 0..PAGE_COUNT {
            shared[page] = self.is_shared(memory, page);
        }
        shared
    }

    /// Takes one more, which shares these pages with the newest.
    pub(crate) fn add(&mut self, sample: u32, state: S, memory: &Aram, shared: &[bool; PAGE_COUNT])
        requires few { length (samples_of self.old) < max_checkpoints }
        requires shared { shared.now ≡ shared_with_newest (live_checkpoints self.old) (pages_of memory.now) }
        requires pages { own_slots shared.now ≤ free_slots self.old.pool }
        ensures saved { saved_of self.new ≡ saved_of self.old ++ record { sample = sample; state = state; memory = memory.now } ∷ [] }
        ensures live { live_checkpoints self.new ≡ with_checkpoint (live_checkpoints self.old) sample (pages_of memory.now) }
        ensures free { free_slots self.new.pool + slots_needed (live_checkpoints self.old) (pages_of memory.now) ≡ free_slots self.old.pool }
        ensures size { length self.new.pool ≡ length self.old.pool }
    {
        let pages = place_all(
            &mut self.pool,
            newest_pages(&self.checkpoints),
            memory,
            shared,
        );
        self.checkpoints.push(LiveCheckpoint {
            sample,
            state,
            pages,
        });
    }

    /// Drops the one at a place. Those after it move up in their list, about 1 KB each; no memory of the machine is copied.
    pub(crate) fn remove(&mut self, place: usize)
        requires { place < length (samples_of self.old) }
        ensures saved { saved_of self.new ≡ remove (saved_of self.old) place }
        ensures live { live_checkpoints self.new ≡ without_entry (live_checkpoints self.old) place }
        ensures size { length self.new.pool ≡ length self.old.pool }
    {
        let checkpoint = self.checkpoints.remove(place);
        give_all(&mut self.pool, &checkpoint.pages);
    }

    /// What was saved first.
    pub(crate) fn first(&self) -> S
        requires { 0 < length (samples_of self.now) }
        ensures { IsSavedFirst (saved_of self.now) result }
    {
        self.checkpoints[0].state
    }

    /// Drops all.
    fn clear(&mut self)
        ensures none { length (live_checkpoints self.new) ≡ 0 }
        ensures size { length self.new.pool ≡ length self.old.pool }
    {
        'checkpoints: while self.len() > 0 {
            self.remove(0);
        }
    }

    /// Drops all, and takes that of the opening anew.
    pub(crate) fn restart(&mut self, state: S, memory: &Aram)
        requires { min_pages ≤ length self.old.pool }
        ensures saved { saved_of self.new ≡ record { sample = 0; state = state; memory = memory.now } ∷ [] }
        ensures live { live_checkpoints self.new ≡ with_checkpoint [] 0 (pages_of memory.now) }
        ensures size { length self.new.pool ≡ length self.old.pool }
    {
        self.clear();
        let shared = self.shared_pages(memory);
        let _free = self.free();
        let _live = self.len();
        self.add(0, state, memory, &shared);
    }

    /// Where one is live, the pool has a page for each of its pages.
    pub(crate) fn has_pages(&self)
        requires { 0 < length (samples_of self.now) }
        ensures { min_pages ≤ length self.now.pool }
    {
        let _free = self.pool.free();
    }

    /// Whether there is room for one of a memory.
    fn has_room_for_one(&self, memory: &Aram) -> bool
        ensures { result ≡ has_room_for_one (length self.now.pool) (pages_of memory.now) (live_checkpoints self.now) }
    {
        self.len() < MAX_CHECKPOINTS as usize
            && own_slots(&self.shared_pages(memory)) <= self.free()
    }

    /// Drops the second one, as long as there is one and no room for one of a memory; returns how many. Before each it compares
    /// the memory's pages with those of the newest.
    pub(crate) fn make_room(&mut self, memory: &Aram) -> u32
        ensures saved { saved_of self.new ≡ remove_range (saved_of self.old) 1 (result + 1) }
        ensures few { length (live_checkpoints self.new) < max_checkpoints }
        ensures room { let most = length (live_checkpoints self.old) - 1 in
            let room = room_made most (length self.old.pool) (pages_of memory.now) (record { live = live_checkpoints self.old; gave = 0 }) in
            record { live = live_checkpoints self.new; gave = result } ≡ room }
        ensures size { length self.new.pool ≡ length self.old.pool }
    {
        let before = self.len();
        'checkpoints: while self.len() > 1 && !self.has_room_for_one(memory) {
            self.remove(1);
        }
        (before - self.len()) as u32
    }
}

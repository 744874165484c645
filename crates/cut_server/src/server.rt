// The server of cuts.
ghost use Rattle.std.specs.Prelude.{◌≡◌, ◌≢◌, ℕ, ◌+◌, ◌-◌, ◌<◌, ◌≤◌, true, false, length, IfOk, IfErr, OnOk, IsOk, ◌↔◌};
ghost use Rattle.num_fix.specs.Limits.{max_frames};
ghost use Rattle.page_pool.specs.Pool.{free_slots, max_pages};
ghost use Rattle.lock_step.specs.LockStep.{lock_step};
ghost use Rattle.lock_step.specs.LockStepEmits.{lock_step_emits};
ghost use Rattle.render_core.specs.Items.{run_frames};
ghost use Rattle.render_core.specs.Opening.{opened_whole};
ghost use Rattle.render_core.specs.Whole.{with_chip};
ghost use Rattle.cut_form.specs.Checkpoints.{max_checkpoints, min_pages, stands_at};
ghost use Rattle.cut_form.specs.CutBook.{opened_book, runs_from, after_seek, max_played, after_play, counted_book, with_live, without_one};
ghost use Rattle.cut_form.specs.Marks.{room_made};
ghost use Rattle.cut_form.specs.Slices.{slice_of};
ghost use Rattle.cut_form.specs.GrowingFrames.{AreOfRun};
ghost use Rattle.cut_server.specs.Server.{lock_step_machines};
ghost use Rattle.cut_server.specs.Table.{samples_of, AreOwnersCounted};
ghost use Rattle.cut_server.specs.ServerState.{book_of, slots_of, slots_left};
ghost use Rattle.cut_server.specs.Server.{opening, pages_at, frames_to, chip_at, slots_needed_at, book_with_one_at, marking_at, KeepsTune};
ghost use Rattle.cut_server.specs.IsServed.{GoesOn, GoesBack};

use crate::OutOfMemory;
use crate::pages::own_slots;
use crate::running::{run_out, run_out_into, run_out_over};
use crate::table::Table;
use aram_core::Aram;
use chip_form::Chip;
use cut_form::{Marked, NoPages};
use num_fix::Frame;
use render_core::{PlayState, Render};
use spc_form::SpcFile;
use std::alloc::Global;
use std::marker::Model;
use trace_form::Frames;

/// A render of a tune, with checkpoints to which it can go back. Only `open` takes memory.
#[derive(Drop)]
pub struct CutServer<C: Chip> {
    render: Render<C>,
    position: u32,
    table: Table<PlayState<C::Saved>>,
    scratch: Aram,
}

impl<C: Chip> Model for CutServer<C> {
    ghost use Rattle.cut_server.specs.Server.{standing_of, ChipServer};
    ghost use Rattle.cut_server.specs.Renders.{IsServing};

    ghost Value = { ChipServer C.State C.Saved };

    ghost view = { λ s. record { standing = standing_of s.render; made = s.render.bus.chip_total; table = s.table } };

    ghost invariant = { λ s. IsServing C.meaning C.saving s.render s.render.bus.chip_total s.table s.position };
}

impl<C: Chip> CutServer<C> {
    /// A server of a file's tune, over a chip that has made no sample, with so many pages. It stands at sample 0 and has a
    /// checkpoint there.
    pub fn open(
        alloc: Global,
        file: &SpcFile,
        chip: C,
        pages: u32,
    ) -> Result<CutServer<C>, OutOfMemory>
        requires enough { min_pages ≤ pages }
        requires few { pages ≤ max_pages }
        requires sample { C.sample chip ≡ 0 }
        requires batches { C.batches chip ≡ 0 }
        requires total { C.total chip ≡ 0 }
        ensures opening { IfOk result (λ server. opening C.meaning C.saving server ≡ opened_whole file.now (C.state chip) 0) }
        ensures frames { let whole = opened_whole file.now (C.state chip) 0 in
            IfOk result (λ server. (n : ℕ) → frames_to C.meaning C.saving server n ≡ run_frames (lock_step C.meaning) lock_step_emits n whole) }
        ensures book { IfOk result (λ server. book_of server ≡ opened_book (pages_at C.meaning C.saving server)) }
        ensures slots { IfOk result (λ server. slots_of server ≡ pages) }
    {
        let scratch = Aram::from_image(alloc, file.memory())?;
        // No voice is in the mask, so the voices give no records.
        let render = Render::open(alloc, file, chip, 0, 0)?;
        let table = Table::open(alloc, pages, render.save(), render.memory())?;
        Ok(CutServer {
            render,
            position: 0,
            table,
            scratch,
        })
    }

    /// The position: the number of samples before it.
    pub fn at(&self) -> u32
        ensures position { result ≡ (book_of self.now).position }
        ensures within { result ≤ max_frames }
        ensures run { AreOfRun (frames_to C.meaning C.saving self.now) }
    {
        self.position
    }

    /// Whether a checkpoint stands at a sample.
    pub fn has(&self, sample: u32) -> bool
        ensures { result ≡ stands_at (book_of self.now).live sample }
    {
        self.table.has(sample)
    }

    /// How many checkpoints are live.
    pub fn count(&self) -> u32
        ensures count { result ≡ length (book_of self.now).live }
        ensures few { result ≤ max_checkpoints }
    {
        self.table.len() as u32
    }

    /// How many pages of the pool are free: those that live checkpoints leave. A page has as many owners as there are live checkpoints that name it.
    pub fn free(&self) -> u32
        ensures pool { result ≡ free_slots self.now.table.pool }
        ensures free { result ≡ slots_left self.now }
        ensures owners { AreOwnersCounted self.now.table }
    {
        self.table.free()
    }

    /// The samples that seeks and plays made. It stays at its type's end.
    pub fn work(&self) -> u64
        ensures { result ≡ (book_of self.now).made }
    {
        self.render.total()
    }

    /// The current chip. It made the samples that `work` returns, its next sample is that at the position, and its state is that of the run's
    /// chip there.
    pub fn chip(&self) -> &C
        ensures made { C.total result.now ≡ (book_of self.now).made }
        ensures position { C.sample result.now ≡ (book_of self.now).position }
        ensures state { C.state result.now ≡ chip_at C.meaning C.saving self.now (book_of self.now).position }
    {
        self.render.chip()
    }

    /// What is saved of the chip at the opening.
    pub fn opening_chip(&self) -> C::Saved
        ensures { result ≡ C.saving.saved (opening C.meaning C.saving self.now).1.chip 0 }
    {
        self.table.first().chip()
    }

    /// Begins anew over another chip at the opening, of which this was saved before its sample 0: what is fixed of the current chip stays, and
    /// all else of the opening. It stands at sample 0, with one checkpoint, and made nothing for it.
    pub fn restart(&mut self, chip: C::Saved)
        requires { C.saving.number chip ≡ 0 }
        ensures opening { let old = opening C.meaning C.saving self.old in
            opening C.meaning C.saving self.new ≡ with_chip old (C.saving.loaded old.1.chip chip) }
        ensures book { book_of self.new ≡ record (opened_book (pages_at C.meaning C.saving self.new)) { made = (book_of self.old).made } }
        ensures slots { slots_of self.new ≡ slots_of self.old }
    {
        let first = self.table.load(0, &mut self.scratch);
        let state = first.with_chip(chip);
        self.render.load(&state, &self.scratch);
        self.position = 0;
        self.table.has_pages();
        let saved = self.render.save();
        self.table.restart(saved, self.render.memory());
    }

    /// Goes back to a checkpoint.
    fn load(&mut self, index: usize)
        requires { index < length (samples_of self.old.table) }
        ensures { GoesBack (lock_step_machines C.meaning C.saving) self.old self.new index }
    {
        let state = self.table.load(index, &mut self.scratch);
        self.position = self.table.sample(index);
        self.render.load(&state, &self.scratch);
    }

    /// Runs on to a sample.
    fn run(&mut self, at: u32)
        requires later { self.old.standing.samples ≤ at }
        requires few { at ≤ max_frames }
        ensures { GoesOn (lock_step_machines C.meaning C.saving) self.old self.new self.old.standing.samples at }
    {
        self.render.aim(at);
        run_out(&mut self.render);
        self.position = at;
    }

    /// Where a seek to a sample runs from.
    pub fn runs_from(&self, at: u32) -> u32
        ensures { result ≡ runs_from (book_of self.now) at }
    {
        let checkpoint = self.table.sample(self.table.nearest(at));
        if self.position <= at && checkpoint <= self.position {
            return self.position;
        }
        checkpoint
    }

    /// Goes to a sample: from where it stands, unless that is after the sample, or before the last checkpoint up to it; then
    /// from this checkpoint. Where it stands at the sample already, it runs none.
    pub fn seek(&mut self, at: u32)
        requires { at ≤ max_frames }
        ensures book { book_of self.new ≡ counted_book (after_seek (book_of self.old) at) }
        ensures tune { KeepsTune C.meaning C.saving self.old self.new }
    {
        let nearest = self.table.nearest(at);
        let checkpoint = self.table.sample(nearest);
        if self.position > at || self.position < checkpoint {
            self.load(nearest);
        }
        self.run(at);
    }

    /// Plays 1 to 64 frames: a slice of those that the run from the opening emits, whatever was called before.
    pub fn play(&mut self, most: u32, frames: &mut Frames)
        requires some { 1 ≤ most }
        requires few { most ≤ max_played }
        requires within { (book_of self.old).position + most ≤ max_frames }
        ensures frames { frames.new ≡ slice_of (frames_to C.meaning C.saving self.old) (book_of self.old).position most }
        ensures book { book_of self.new ≡ counted_book (after_play (book_of self.old) most) }
        ensures tune { KeepsTune C.meaning C.saving self.old self.new }
    {
        frames.clear();
        self.render.aim(self.position + most);
        run_out_into(&mut self.render, frames);
        self.position += most;
    }

    /// Plays as many frames as there are places: a slice of those that the run from the opening emits, whatever was called before. Nothing
    /// is pending at their end, so that the more are played at once the fewer batches are cut short.
    pub fn play_into(&mut self, frames: &mut [Frame])
        requires within { (book_of self.old).position + length frames.old ≤ max_frames }
        ensures frames { let start = (book_of self.old).position in
            frames.new ≡ slice_of (frames_to C.meaning C.saving self.old) start (length frames.old) }
        ensures book { book_of self.new ≡ counted_book (after_play (book_of self.old) (length frames.old)) }
        ensures tune { KeepsTune C.meaning C.saving self.old self.new }
    {
        let count = frames.len() as u32;
        self.render.aim(self.position + count);
        run_out_over(&mut self.render, frames);
        self.position += count;
    }

    /// Takes a checkpoint at the position, unless it needs more slots than are free.
    pub fn checkpoint(&mut self) -> Result<(), NoPages>
        requires none_here { stands_at (book_of self.old).live (book_of self.old).position ≡ false }
        requires few { length (book_of self.old).live < max_checkpoints }
        ensures taken { OnOk result (book_of self.new ≡ book_with_one_at C.meaning C.saving self.old) }
        ensures need { IfErr result (λ e. e.need ≡ slots_needed_at C.meaning C.saving self.old) }
        ensures free { IfErr result (λ e. e.free ≡ slots_left self.old) }
        ensures unchanged { IfErr result (λ e. self.new ≡ self.old) }
        ensures exactly { IsOk result ↔ (slots_needed_at C.meaning C.saving self.old ≤ slots_left self.old) }
        ensures tune { KeepsTune C.meaning C.saving self.old self.new }
    {
        // Each page is compared with that of the newest once, for what is needed and for what is shared alike.
        let shared = self.table.shared_pages(self.render.memory());
        let need = own_slots(&shared);
        let free = self.table.free();
        if need > free {
            return Err(NoPages { need, free });
        }
        let state = self.render.save();
        self.table
            .add(self.position, state, self.render.memory(), &shared);
        Ok(())
    }

    /// Drops the checkpoint at a sample, and gives its pages back.
    pub fn drop_at(&mut self, sample: u32)
        requires not_opening { sample ≢ 0 }
        requires stands { stands_at (book_of self.old).live sample ≡ true }
        ensures book { book_of self.new ≡ without_one (book_of self.old) sample }
        ensures tune { KeepsTune C.meaning C.saving self.old self.new }
    {
        if let Some(place) = self.table.place_of(sample) {
            self.table.remove(place);
        }
    }

    /// Gives checkpoints up until there is room for one at the position; returns how many.
    fn make_room(&mut self) -> u32
        ensures room { let most = length (book_of self.old).live - 1 in
            let pages = pages_at C.meaning C.saving self.old (book_of self.old).position in
            let room = room_made most (slots_of self.old) pages (record { live = (book_of self.old).live; gave = 0 }) in
            record { live = (book_of self.new).live; gave = result } ≡ room }
        ensures few { length (book_of self.new).live < max_checkpoints }
        ensures book { book_of self.new ≡ with_live (book_of self.old) (book_of self.new).live }
        ensures tune { KeepsTune C.meaning C.saving self.old self.new }
    {
        self.table.make_room(self.render.memory())
    }

    /// Takes a checkpoint at the position, unless one stands there. It gives up others for it as long as there is no room,
    /// first those taken first; but never that of sample 0.
    pub fn mark(&mut self) -> Marked
        ensures book { book_of self.new ≡ with_live (book_of self.old) (marking_at C.meaning C.saving self.old).live }
        ensures answer { result ≡ (marking_at C.meaning C.saving self.old).marked }
        ensures tune { KeepsTune C.meaning C.saving self.old self.new }
    {
        if self.has(self.position) {
            return Marked::Kept;
        }
        let gave = self.make_room();
        match self.checkpoint() {
            Ok(()) => Marked::Taken { gave },
            Err(NoPages { need, free }) => Marked::NoPages { gave, need, free },
        }
    }
}

// A render, piece by piece.
ghost use Rattle.std.specs.Prelude.{◌≡◌, ◌+◌, ◌-◌, ◌<◌, ◌≤◌, [], length, true, false, IfOk};
ghost use Rattle.std.specs.Borrow.{sem};
ghost use Rattle.std.specs.Io.BufRead.{Rests};
ghost use Rattle.trace_form.specs.Capacities.{frame_capacity, record_capacity};
ghost use Rattle.num_fix.specs.Limits.{max_frames};
ghost use Rattle.lock_step.specs.LockStep.{samples_due};
ghost use Rattle.lag_bus.specs.Lagging.{MatchesBook};
ghost use Rattle.render_core.specs.Opening.{opened_whole, opened_cpu};
ghost use Rattle.render_core.specs.RenderState.{frames_to_come, is_at_length, HasArrived, IsOpenedOver, IsNextPiece};
ghost use Rattle.render_core.specs.Saved.{saved_whole, CanBePlayed, loaded_render};
ghost use Rattle.render_core.specs.contracts.render.Render.{the_row};

use crate::OutOfMemory;
use crate::making::{Lists, TrialPause, make_piece};
use crate::piece::Piece;
use crate::saved::PlayState;
use aram_core::Aram;
use chip_form::Chip;
use lag_bus::LagBus;
use lock_step::{Counts, DrainedBus};
use spc_form::{SpcFile, opening};
use spc700_exec::Cpu;
use std::alloc::Global;
use std::marker::Model;

/// A render of so many samples over a chip, 32,000 a second.
#[derive(Drop)]
pub struct Render<C: Chip> {
    cpu: Cpu,
    bus: LagBus<C>,
    samples: u32,
    lists: Lists,
}

impl<C: Chip> Model for Render<C> {
    ghost use Rattle.std.specs.Prelude.{◌≤◌};
    ghost use Rattle.num_fix.specs.Limits.{max_frames};
    ghost use Rattle.lock_step.specs.LockStep.{samples_due};
    ghost use Rattle.lag_bus.specs.Lagging.{lagging};
    ghost use Rattle.lag_bus.specs.LagEmits.{lag_emits};
    ghost use Rattle.render_core.specs.BetweenSteps.{IsBetweenSteps};
    ghost use Rattle.render_core.specs.RenderState.{RenderState};
    ghost use Rattle.std.specs.Coded.{codes};
    ghost use Rattle.aram_core.specs.contracts.page_set.PageSet as page_set;

    ghost Value = { RenderState C.State };

    ghost coded = { Prim.hlevel (codes, page_set.the_row.coded) };

    ghost view = { λ r. record {
      cpu = r.cpu;
      bus = r.bus;
      samples = r.samples;
      frames = r.lists.frames;
      records = r.lists.records;
    } };

    ghost invariant = { λ r. (r.samples ≤ max_frames)
        × IsBetweenSteps (lagging C.meaning) (lag_emits C.meaning) r.samples r.bus
        × (samples_due r.bus.machine ≤ r.samples) };
}

/// The registers of a file.
fn opened_cpu(file: &SpcFile) -> Cpu
    ensures { result ≡ opened_cpu file.now }
{
    Cpu {
        a: file.a(),
        x: file.x(),
        y: file.y(),
        sp: file.sp(),
        pc: file.pc(),
        psw: file.psw(),
        halted: false,
    }
}

/// What was emitted last.
fn piece_of<C: Chip>(render: &Render<C>, done: bool) -> Piece<'_>
    ensures frames { result.frames.now ≡ render.now.frames }
    ensures records { result.records.now ≡ render.now.records }
    ensures done { result.done ≡ done }
    ensures few_frames { length result.frames.now ≤ frame_capacity }
    ensures few_records { length result.records.now ≤ record_capacity }
{
    Piece {
        frames: render.lists.frames.as_slice(),
        records: render.lists.records.as_slice(),
        done,
    }
}

impl<C: Chip> Render<C> {
    /// A render of so many samples of a file, over a chip that stands at sample 0 and has made no batch. It emits the records of
    /// the voices in the mask; bit v of the mask is voice v. All memory is allocated here, and no later call takes memory.
    pub fn open(
        alloc: Global,
        file: &SpcFile,
        chip: C,
        samples: u32,
        mask: u8,
    ) -> Result<Render<C>, OutOfMemory>
        requires few { samples ≤ max_frames }
        requires sample { C.sample chip ≡ 0 }
        requires batches { C.batches chip ≡ 0 }
        ensures { IfOk result (λ render. IsOpenedOver C.meaning (opened_whole file.now (C.state chip) mask) (C.total chip) samples render) }
    {
        let lists = Lists::reserve(alloc)?;
        let state = opening(alloc, file)?;
        let bus = LagBus::open(alloc, state, chip, mask)?;
        Ok(Render {
            cpu: opened_cpu(file),
            bus,
            samples,
            lists,
        })
    }

    /// Makes the next piece, and returns whether it is the last one.
    fn make_next(&mut self) -> bool
        ensures { IsNextPiece C.meaning self.old self.new self.new.frames self.new.records result }
    {
        self.bus.matches_its_book();
        let is_last = make_piece(&mut self.cpu, &mut self.bus, self.samples, &mut self.lists);
        self.bus.matches_its_book();
        is_last
    }

    /// Makes the next piece: steps until a frame or a record was emitted, or all samples are made. It looks only where the bus ends its
    /// steps, so that a piece can have more than was emitted first. The pieces in order are the
    /// whole render, each with at most 128 frames and 1,344 records. After the last one each piece is empty and is a last one.
    pub fn next_piece(&mut self) -> Piece<'_>
        ensures* next { sem 𝓛 (Rests (the_row C.row C.State.row C.Saved.row C.Chip) self.entry
            (λ new. IsNextPiece C.meaning self.old new result.frames.now result.records.now result.done)) }
        ensures some { result.done ≡ false → 0 < length result.frames.now + length result.records.now }
        ensures few_frames { length result.frames.now ≤ frame_capacity }
        ensures few_records { length result.records.now ≤ record_capacity }
    {
        let done = self.make_next();
        piece_of(self, done)
    }

    /// Whether the render is at its length: all its frames were given, and no sample is pending. The chip's next sample is then
    /// the first one after it.
    pub fn is_done(&self) -> bool
        ensures done { result ≡ is_at_length self.now }
        ensures arrived { result ≡ true → HasArrived C.meaning self.now }
    {
        self.bus.due() >= self.samples
    }

    /// Saves the machine but for its memory.
    pub fn save(&self) -> PlayState<C::Saved>
        requires { is_at_length self.now ≡ true }
        ensures saved { result ≡ saved_whole C.saving (self.now.cpu, self.now.bus.machine) }
        ensures can_be_played { CanBePlayed C.saving result }
    {
        PlayState {
            cpu: self.cpu,
            bus: self.bus.save(),
        }
    }

    /// The memory of the machine.
    pub fn memory(&self) -> &Aram
        requires { is_at_length self.now ≡ true }
        ensures { result.now ≡ self.now.bus.machine.memory }
    {
        self.bus.memory()
    }

    /// Loads what was saved, of this render or of another one, over a memory: the length is where it was saved, and no frame is
    /// to come. The mask stays, the fixed part of the chip, and all that was counted.
    pub fn load(&mut self, saved: &PlayState<C::Saved>, memory: &Aram)
        requires done { is_at_length self.old ≡ true }
        requires saved { CanBePlayed C.saving saved.now }
        ensures loaded { self.new ≡ loaded_render C.meaning C.saving self.old saved.now memory.now }
        ensures done { is_at_length self.new ≡ true }
        ensures given { frames_to_come C.meaning self.new ≡ [] }
        ensures total { self.new.bus.chip_total ≡ self.old.bus.chip_total }
    {
        self.bus.load(&saved.bus, memory);
        self.cpu = saved.cpu;
        self.samples = self.bus.due();
        self.lists.pause = TrialPause::none();
    }

    /// Sends the render on to a greater length: the frames to come are then those of its machine's run until there.
    pub fn aim(&mut self, samples: u32)
        requires done { is_at_length self.old ≡ true }
        requires later { self.old.samples ≤ samples }
        requires few { samples ≤ max_frames }
        ensures { self.new ≡ record self.old { samples = samples } }
    {
        self.samples = samples;
    }

    /// The numbers of the current chip are those of the book.
    pub fn matches_its_book(&self)
        ensures { MatchesBook self.now.bus }
    {
        self.bus.matches_its_book();
    }

    /// The samples that the current chip made in all, those before a load too. It stays at its type's end.
    pub fn total(&self) -> u64
        ensures { result ≡ self.now.bus.chip_total }
    {
        self.bus.total()
    }

    /// The current chip. It made the batches and samples that are counted, and its next sample is the first one pending. At the length
    /// it is that of the machine.
    pub fn chip(&self) -> &C
        ensures batches { C.batches result.now ≡ self.now.bus.chip_batches }
        ensures sample { C.sample result.now ≡ self.now.bus.chip_sample }
        ensures total { C.total result.now ≡ self.now.bus.chip_total }
        ensures counted { C.batches result.now ≡ self.now.bus.book.counts.batches }
        ensures made { C.sample result.now ≡ samples_due self.now.bus.machine - self.now.bus.book.pending }
        ensures state { is_at_length self.now ≡ true → C.state result.now ≡ self.now.bus.machine.chip }
    {
        self.bus.chip()
    }

    /// How often the chip ran so far, and why. The current chip, which `chip` gives, made these batches, and all samples but
    /// those pending.
    pub fn counts(&self) -> Counts
        ensures counts { result ≡ self.now.bus.book.counts }
        ensures batches { self.now.bus.chip_batches ≡ result.batches }
        ensures sample { self.now.bus.chip_sample ≡ samples_due self.now.bus.machine - self.now.bus.book.pending }
    {
        self.bus.counts()
    }
}

// A chip with its memory and its output, some samples of which are deferred. What each access of the bus asks is inlined into it.
ghost use Rattle.std.specs.Prelude.{ℕ, ◌≡◌, ◌&&◌, ◌+◌, ◌-◌, ◌*◌, ◌^◌, ◌<◌, ◌≤◌, ◌++◌, ◌∷◌, [], ◌==◌, true, false, length, if◌then◌else◌, ◌||◌, not};
ghost use Rattle.aram_core.specs.Memory.{byte_at, with_byte};
ghost use Rattle.chip_form.specs.Samples.{samples, AddsSamples, count_after};
ghost use Rattle.lag_bus.specs.Book.{may_be_read, may_be_written, cause_of_read, cause_of_write};
ghost use Rattle.lag_bus.specs.Held.{IsMemoryAlone};
ghost use Rattle.lag_bus.specs.Deferred.{deferred_with_sample, deferred_with_samples, AreWritesWithin, AreReadsWithin};
ghost use Rattle.trace_form.specs.Capacities.{frame_capacity, record_capacity, event_capacity};
ghost use Rattle.chip_form.specs.Limits.{max_samples_of_batch, max_samples_of_chip};
ghost use Rattle.lock_step.specs.SampleNumbers.{sample_number};
ghost use Rattle.lag_bus.specs.Ready.{is_before_sample, ready_frames, pending_frames, ready_records, pending_records, NoneIsReady};

use crate::cause::Cause;
use crate::merging::merge_into;
use crate::reach_cache::ReachCache;
use aram_core::{Aram, page_of};
use chip_form::Chip;
use lock_step::{writes_port, writes_register};
use std::marker::Model;
use trace_form::{EVENT_CAPACITY, EventRing, Frames, Record, Records};

/// A chip, its memory and its output, with samples that are counted and not made yet. Of its reach that is asked which an access
/// needs, and what was found is kept until it may be another.
#[derive(Drop)]
pub struct DeferredChip<C: Chip> {
    chip: C,
    memory: Aram,
    mask: u8,
    pending: u8,
    known: ReachCache,
    frames: Frames,
    records: Records,
    voices: Records,
    ring: EventRing,
}

impl<C: Chip> Model for DeferredChip<C> {
    ghost use Rattle.lag_bus.specs.Deferred.{Deferred};
    ghost use Rattle.lag_bus.specs.Held.{deferred_of, IsHeld, IsKnown};
    ghost use Rattle.std.specs.Coded.{codes};
    ghost use Rattle.aram_core.specs.contracts.page_set.PageSet as page_set;

    ghost Value = { Deferred C.State };

    ghost coded = { Prim.hlevel (codes, page_set.the_row.coded) };

    ghost view = { λ b. deferred_of C.meaning (record {
      state = C.state b.chip;
      number = C.sample b.chip;
      batches = C.batches b.chip;
      total = C.total b.chip;
      memory = b.memory;
      frames = b.frames;
      records = b.records;
      ring = b.ring;
      mask = b.mask;
      pending = b.pending;
    }) };

    ghost invariant = { λ b. IsHeld C.meaning (record {
      state = C.state b.chip;
      number = C.sample b.chip;
      batches = C.batches b.chip;
      total = C.total b.chip;
      memory = b.memory;
      frames = b.frames;
      records = b.records;
      ring = b.ring;
      mask = b.mask;
      pending = b.pending;
    }) × IsKnown C.written_pages (C.meaning.reach (C.state b.chip)) b.memory b.known };
}

/// Clears a list and moves another one into it. Mostly that one is empty.
fn move_frames(from: &mut Frames, to: &mut Frames)
    ensures moved { to.new ≡ from.old }
    ensures none_left { from.new ≡ [] }
{
    to.clear();
    if !from.as_slice().is_empty() {
        std::mem::swap(from, to);
    }
}

/// Clears a list and moves another one into it. Mostly that one is empty.
fn move_records(from: &mut Records, to: &mut Records)
    ensures moved { to.new ≡ from.old }
    ensures none_left { from.new ≡ [] }
{
    to.clear();
    if !from.as_slice().is_empty() {
        std::mem::swap(from, to);
    }
}

/// The current chip is in a valid state, and the samples that it made in all are a number of 64 bits.
// Nothing but the chip's own calls shows so.
#[inline]
pub fn is_in_hand<C: Chip>(chip: &C)
    ensures valid { C.meaning.is_valid (C.state chip.now) ≡ true }
    ensures fits { C.total chip.now < 2 ^ 64 }
{
    let _numbers = (chip.sample(), chip.total());
}

/// Makes some samples as one batch: their frames at the end of a list, and the records of the voices in the mask as a list
/// of their own.
fn make_samples<C: Chip>(
    chip: &mut C,
    n: u8,
    memory: &mut Aram,
    mask: u8,
    frames: &mut Frames,
    voice_records: &mut Records,
)
    requires is_valid { C.meaning.is_valid (C.state chip.old) ≡ true }
    requires few { n ≤ max_samples_of_batch }
    requires number { C.sample chip.old + n ≤ max_samples_of_chip }
    requires room { length frames.old + n ≤ frame_capacity }
    ensures made { let made = samples C.meaning.one_sample n (C.sample chip.old) (C.state chip.old) memory.old in
        AddsSamples mask made (C.state chip.new) memory.new frames.old frames.new [] voice_records.new }
    ensures sample { C.sample chip.new ≡ C.sample chip.old + n }
    ensures batches { C.batches chip.new ≡ (if n == 0 then C.batches chip.old else count_after (C.batches chip.old) 1) }
    ensures total { C.total chip.new ≡ count_after (C.total chip.old) n }
{
    voice_records.clear();
    chip.advance(n, memory, mask, frames, voice_records);
}

impl<C: Chip> DeferredChip<C> {
    /// The current chip.
    pub fn chip(&self) -> &C
        ensures batches { C.batches result.now ≡ self.now.batches }
        ensures sample { C.sample result.now ≡ self.now.due - self.now.pending }
        ensures total { C.total result.now ≡ self.now.total }
        ensures state { self.now.pending ≡ 0 → C.state result.now ≡ self.now.chip }
    {
        &self.chip
    }

    /// The samples that are pending.
    #[inline]
    pub fn pending(&self) -> u8
        ensures pending { result ≡ self.now.pending }
        ensures few { result ≤ max_samples_of_batch }
        ensures reach { self.now.pending ≡ 0 → self.now.reach ≡ C.meaning.reach self.now.chip self.now.memory }
    {
        self.pending
    }

    /// Whether the pending samples may read the byte at an address. A page that they don't read is marked.
    pub fn may_be_read(&mut self, at: u16) -> bool
        ensures answer { result ≡ may_be_read self.old.reach at }
        ensures rest { self.new ≡ self.old }
    {
        self.known.may_be_read(&self.chip, &self.memory, at)
    }

    /// Whether the pending samples may write the byte at an address. A page that they don't write is marked.
    // Out of line: a page that was asked for is marked.
    #[inline(never)]
    fn may_be_written(&mut self, at: u16) -> bool
        ensures answer { result ≡ may_be_written self.old.reach at }
        ensures rest { self.new ≡ self.old }
    {
        self.known.may_be_written(&self.chip, &self.memory, at)
    }

    /// Whether a mark shows that memory alone is at an address and that no pending sample writes it.
    #[inline(always)]
    pub fn is_unwritten_memory(&self, at: u16) -> bool
        ensures unwritten { result ≡ true → may_be_written self.now.reach at ≡ false }
        ensures alone { result ≡ true → IsMemoryAlone at }
    {
        self.known.is_unwritten_memory(at)
    }

    /// Whether a mark shows that memory alone is at an address and that no pending sample reads it.
    #[inline(always)]
    pub fn is_unread_memory(&self, at: u16) -> bool
        ensures unread { result ≡ true → may_be_read self.now.reach at ≡ false }
        ensures alone { result ≡ true → IsMemoryAlone at }
    {
        self.known.is_unread_memory(at)
    }

    /// Whether a mark shows that no pending sample writes the byte at an address.
    #[inline]
    pub fn is_unwritten(&self, at: u16) -> bool
        ensures { result ≡ true → may_be_written self.now.reach at ≡ false }
    {
        self.known.is_unwritten(at)
    }

    /// Whether samples are pending that may write the byte at an address. Mostly a mark shows that they don't.
    #[inline]
    pub fn pending_may_write(&mut self, at: u16) -> bool
        ensures answer { result ≡ (not (self.old.pending == 0) && may_be_written self.old.reach at) }
        ensures rest { self.new ≡ self.old }
        ensures reach { self.old.pending ≡ 0 → self.old.reach ≡ C.meaning.reach self.old.chip self.old.memory }
    {
        if self.pending == 0 || self.is_unwritten(at) {
            return false;
        }
        self.may_be_written(at)
    }

    /// The cause for which a read has the pending samples made first.
    pub fn cause_of_read(&self, dsp_address: u8, at: u16) -> Option<Cause>
        ensures { result ≡ cause_of_read C.meaning self.now.reach dsp_address at }
    {
        if at == 0xF3 && self.chip.is_result(dsp_address % 0x80) {
            Some(Cause::Register)
        } else if self.is_written(at) {
            Some(Cause::Echo)
        } else {
            None
        }
    }

    /// The cause for which a write has the pending samples made first.
    pub fn cause_of_write(&mut self, dsp_address: u8, at: u16) -> Option<Cause>
        ensures cause { result ≡ cause_of_write self.old.reach dsp_address at self.old.pending self.old.events }
        ensures rest { self.new ≡ self.old }
    {
        let waits = writes_port(at) && self.pending > 0;
        let is_full = waits && self.ring.len() == EVENT_CAPACITY;
        if writes_register(dsp_address, at) {
            Some(Cause::Register)
        } else if self.may_be_read(at) {
            Some(Cause::Memory)
        } else if is_full {
            Some(Cause::Events)
        } else {
            None
        }
    }

    /// The register at an address. Where it is a result of samples, none is pending.
    pub fn reg_read(&self, address: u8) -> u8
        requires { (self.now.pending == 0 || not (C.meaning.is_result address)) ≡ true }
        ensures { result ≡ C.meaning.register_read self.now.chip address }
    {
        self.chip.reg_read(address)
    }

    /// The byte at an address. Where samples may write it, none is pending.
    #[inline]
    pub fn get(&self, at: u16) -> u8
        requires { (self.now.pending == 0 || not (may_be_written self.now.reach at)) ≡ true }
        ensures byte { result ≡ byte_at self.now.memory at }
        ensures writes { AreWritesWithin C.meaning self.now.reach self.now.pending self.now.due self.now.chip self.now.memory }
    {
        self.memory.get(at)
    }

    /// Puts a byte at an address. Where samples may read it, none is pending, and what was found of the reach is dropped.
    #[inline]
    pub fn put(&mut self, at: u16, value: u8)
        requires { (self.old.pending == 0 || not (may_be_read self.old.reach at)) ≡ true }
        ensures memory { self.new ≡ record self.old { memory = with_byte self.old.memory at value; reach = self.new.reach } }
        ensures reach { self.old.pending ≡ 0 → self.new.reach ≡ C.meaning.reach self.new.chip self.new.memory }
        ensures same_reach { may_be_read self.old.reach at ≡ false → self.new.reach ≡ self.old.reach }
    {
        if self.pending == 0 {
            self.known.before_write(&self.chip, &self.memory, at);
            self.memory.put(at, value);
        } else {
            self.memory.put(at, value);
        }
    }

    /// Puts a byte at an address that samples don't read, so that the reach stays.
    #[inline(always)]
    pub fn put_unread(&mut self, at: u16, value: u8)
        requires { may_be_read self.old.reach at ≡ false }
        ensures memory { self.new ≡ record self.old { memory = with_byte self.old.memory at value } }
        ensures reads { AreReadsWithin C.meaning self.old.reach self.old.pending self.old.due self.old.chip self.old.memory }
    {
        self.memory.put(at, value);
    }

    /// Writes a register while no sample is pending.
    pub fn reg_write(&mut self, address: u8, value: u8)
        requires { self.old.pending ≡ 0 }
        ensures { let written = C.meaning.register_write self.old.chip address value in
            self.new ≡ record self.old { chip = written; reach = C.meaning.reach written self.old.memory } }
    {
        self.chip.reg_write(address, value);
        self.known.renew(&self.chip);
    }

    /// Emits the record of a write. While samples are pending it waits for them.
    pub fn emit(&mut self, item: Record)
        requires number { sample_number item ≡ self.old.due }
        requires before { is_before_sample self.old.due item ≡ true }
        requires few { 0 < self.old.pending → self.old.events < event_capacity }
        requires room { self.old.records_used < record_capacity }
        ensures { self.new ≡ record self.old {
          records = self.old.records ++ item ∷ [];
          events = if self.old.pending == 0 then self.old.events else self.old.events + 1;
          records_used = self.old.records_used + 1;
        } }
    {
        if self.pending == 0 {
            self.records.push(item);
        } else {
            let _ = self.ring.try_push(item);
        }
    }

    /// Whether the pending samples, or those to come, may write the byte at an address.
    pub fn is_written(&self, at: u16) -> bool
        ensures { result ≡ may_be_written self.now.reach at }
    {
        self.chip.writes_page(&self.memory, page_of(at))
    }

    /// Whether nothing waits to be drained but what waits for pending samples. Samples to come, too, write where the reach says.
    pub fn is_drained(&self) -> bool
        ensures frames { result ≡ true → self.now.frames_used ≡ self.now.pending }
        ensures records { result ≡ true → self.now.records_used ≡ self.now.events + 8 * self.now.pending }
        ensures drained { result ≡ true → NoneIsReady self.now.pending (self.now.due - self.now.pending) self.now.frames self.now.records }
        ensures none { NoneIsReady self.now.pending (self.now.due - self.now.pending) self.now.frames self.now.records → result ≡ true }
        ensures writes { AreWritesWithin C.meaning self.now.reach self.now.pending self.now.due self.now.chip self.now.memory }
    {
        self.frames.as_slice().is_empty() && self.records.as_slice().is_empty()
    }

    /// Where nothing is ready to be drained, the room is taken by what pending samples and events will be alone.
    pub fn holds_only_what_waits(&self)
        ensures frames { let deferred = self.now in
            NoneIsReady deferred.pending (deferred.due - deferred.pending) deferred.frames deferred.records → deferred.frames_used ≡ deferred.pending }
        ensures records { let deferred = self.now in
            NoneIsReady deferred.pending (deferred.due - deferred.pending) deferred.frames deferred.records
            → deferred.records_used ≡ deferred.events + 8 * deferred.pending }
    {
        let _drained = self.is_drained();
    }

    /// Counts one sample more.
    pub fn queue(&mut self)
        requires few { self.old.pending < max_samples_of_batch }
        requires number { self.old.due < max_samples_of_chip }
        requires frames { self.old.frames_used < frame_capacity }
        requires records { self.old.records_used + 8 ≤ record_capacity }
        ensures { self.new ≡ deferred_with_sample C.meaning self.old }
    {
        self.pending += 1;
    }

    /// Makes the pending samples.
    pub fn settle(&mut self)
        ensures made { self.new ≡ record self.old {
          pending = 0;
          events = 0;
          reach = C.meaning.reach self.old.chip self.old.memory;
          batches = if self.old.pending == 0 then self.old.batches else count_after self.old.batches 1;
          total = count_after self.old.total self.old.pending;
          records_used = length self.old.records;
        } }
        ensures room { length self.old.records ≤ self.old.records_used }
    {
        make_samples(
            &mut self.chip,
            self.pending,
            &mut self.memory,
            self.mask,
            &mut self.frames,
            &mut self.voices,
        );
        merge_into(&self.voices, &mut self.ring, &mut self.records);
        self.pending = 0;
        self.known.renew(&self.chip);
    }

    /// Clears two lists and moves into them what was emitted before the first pending sample.
    pub fn drain(&mut self, frames: &mut Frames, records: &mut Records)
        ensures frames { frames.new ≡ ready_frames self.old.pending self.old.frames }
        ensures records { records.new ≡ ready_records (self.old.due - self.old.pending) self.old.records }
        ensures rest { self.new ≡ record self.old {
          frames = pending_frames self.old.pending self.old.frames;
          records = pending_records (self.old.due - self.old.pending) self.old.records;
          frames_used = self.old.pending;
          records_used = self.old.events + 8 * self.old.pending;
        } }
        ensures all_frames { self.old.frames ≡ frames.new ++ self.new.frames }
        ensures all_records { self.old.records ≡ records.new ++ self.new.records }
        ensures none_waits { self.old.pending ≡ 0 → self.new.records ≡ [] }
    {
        move_frames(&mut self.frames, frames);
        move_records(&mut self.records, records);
    }

    /// Saves the chip while no sample is pending.
    pub fn save(&self) -> C::Saved
        requires { self.now.pending ≡ 0 }
        ensures { result ≡ C.saving.saved self.now.chip self.now.due }
    {
        self.chip.save()
    }

    /// The memory while no sample is pending.
    pub fn memory(&self) -> &Aram
        requires { self.now.pending ≡ 0 }
        ensures { result.now ≡ self.now.memory }
    {
        &self.memory
    }

    /// Loads what was saved of a chip, over a memory, while no sample is pending and all was drained.
    pub fn load(&mut self, saved: &C::Saved, memory: &Aram)
        requires pending { self.old.pending ≡ 0 }
        requires frames { self.old.frames ≡ [] }
        requires records { self.old.records ≡ [] }
        requires number { C.saving.number saved.now ≤ max_samples_of_chip }
        ensures { let loaded = C.saving.loaded self.old.chip saved.now in
            self.new ≡ record self.old {
              chip = loaded;
              memory = memory.now;
              due = C.saving.number saved.now;
              events = 0;
              reach = C.meaning.reach loaded memory.now;
              frames_used = 0;
              records_used = 0;
            } }
    {
        self.chip.load(saved);
        self.memory.copy_from(memory);
        self.known = ReachCache::none(&self.chip);
    }

    /// The samples that the chip made in all, those before a load too.
    pub fn total(&self) -> u64
        ensures { result ≡ self.now.total }
    {
        self.chip.total()
    }

    /// The total is a number of 64 bits, and the pending samples are among those that are due.
    pub fn counts_fit(&self)
        ensures fits { self.now.total < 2 ^ 64 }
        ensures pending { self.now.pending ≤ self.now.due }
    {
        is_in_hand(&self.chip);
    }

    /// A chip that stands at sample 0, over a memory.
    pub fn new(
        chip: C,
        memory: Aram,
        mask: u8,
        frames: Frames,
        records: Records,
        voices: Records,
        ring: EventRing,
    ) -> Self
        requires chip { C.sample chip ≡ 0 }
        requires is_valid { C.meaning.is_valid (C.state chip) ≡ true }
        requires frames { frames ≡ [] }
        requires records { records ≡ [] }
        requires ring { ring ≡ [] }
        ensures { result ≡ record {
          chip = C.state chip;
          memory = memory;
          frames = [];
          records = [];
          mask = mask;
          due = 0;
          pending = 0;
          events = 0;
          reach = C.meaning.reach (C.state chip) memory;
          batches = C.batches chip;
          total = C.total chip;
          frames_used = 0;
          records_used = 0;
        } }
    {
        let known = ReachCache::none(&chip);
        DeferredChip {
            chip,
            memory,
            mask,
            pending: 0,
            known,
            frames,
            records,
            voices,
            ring,
        }
    }
}

/// Counts some samples more.
pub fn queue_all<C: Chip>(deferred: &mut DeferredChip<C>, fallen: u8)
    requires few { deferred.old.pending + fallen ≤ max_samples_of_batch }
    requires number { deferred.old.due + fallen ≤ max_samples_of_chip }
    requires frames { deferred.old.frames_used + fallen ≤ frame_capacity }
    requires records { deferred.old.records_used + 8 * fallen ≤ record_capacity }
    ensures { deferred.new ≡ deferred_with_samples C.meaning deferred.old fallen }
{
    'samples: for _ in 0..fallen {
        deferred.queue();
    }
}

//! The plan of a voice with a free-running envelope over the groups of a span of samples.

ghost use Rattle.std.specs.Prelude.{◌≡◌, ◌<◌, ◌≤◌, ◌+◌, ◌*◌, ◌^◌, ◌-◌, ℕ, true, false, slice_index, take};
ghost use Rattle.aram_core.specs.Memory.{byte_at};
ghost use Rattle.voice_unit.specs.Voice.{is_silencing};
ghost use Rattle.voice_batch.specs.Row.{IsGroup, next_place, last_of, kept_row, groups_before};
ghost use Rattle.voice_batch.specs.SpanPhases.{phase_at};
ghost use Rattle.voice_batch.specs.SpanPlan.{IsSpanPlan, IsSpan, AreEndsMarked, LeavesSounding, place_at, ends_at, ended_at};

use crate::playing::mark_ended;
use crate::row::{Headed, Place, ROW_SIZE, groups_left, read_rest};
use crate::span_phases::SpanPhases;
use aram_core::Aram;
use brr_decode::{BrrCache, has_end};
use envelope::Envelope;
use num_fix::BATCH_SIZE;
use voice_unit::is_silencing;

/// What the samples of a span depend on: in it the voice's envelope runs free, and the voice plays on.
#[derive(Clone, Copy)]
pub(crate) struct SpanPlan<'a> {
    /// The number of the voice, 0 to 7.
    pub voice: u8,
    /// The group that it reads first.
    pub first: Place,
    /// The word of its sample that says where it loops to.
    pub loop_word: u16,
    /// How far its samples stand in the row of kept samples.
    pub span_phases: SpanPhases<'a>,
    /// Its envelope, as it is before the first of them.
    pub envelope: Envelope,
    /// The soft reset of FLG.
    pub reset: bool,
    /// It is released at level 0, so that nothing silences it.
    pub silent: bool,
    /// Noise takes the place of its samples.
    pub noisy: bool,
}

/// A span of samples whose groups were read.
#[derive(Clone, Copy)]
pub(crate) struct Span {
    /// How many samples it has.
    pub samples: u8,
    /// How many groups were read in them.
    pub groups: u8,
    /// The group that follows.
    pub next: Place,
}

/// The block that a voice comes to after another one.
#[derive(Clone, Copy)]
pub(crate) struct NextBlock {
    /// Its first group.
    pub first: Place,
    /// Its header.
    pub header: u8,
    /// The header silences the voice while it sounds.
    pub silencing: bool,
}

impl<'a> SpanPlan<'a> {
    /// Adds the bit of the voice in the sample of a span from sample `at` on in which it reads the last group of a block, where that has its end bit.
    fn mark_end(
        &self,
        at: u8,
        n: u8,
        group: u8,
        last: &Headed,
        memory: &Aram,
        ends: &mut [u8; BATCH_SIZE],
    )
        requires span_plan { IsSpanPlan self.now n }
        requires header { last.now.header ≡ byte_at memory.now last.now.block }
        requires few { at + n ≤ BATCH_SIZE }
        requires read { group < groups_before (phase_at self.now.span_phases) n }
        requires lower { (j : ℕ) → j < n → groups_before (phase_at self.now.span_phases) j ≡ group → slice_index ends.old (at + j) < 2 ^ self.now.voice }
        ensures { AreEndsMarked at n self.now.voice (ends_at self.now memory.now (last_of last.now.block) group) ends.old ends.new }
    {
        if has_end(last.header) {
            let j = self.span_phases.reading_sample(group, n);
            mark_ended(ends, at + j, true, self.voice);
        }
    }

    /// Whether a header silences the voice while it sounds.
    fn is_silenced_by(&self, header: u8) -> bool
        ensures { result ≡ false → is_silencing self.now.reset header ≡ true → self.now.silent ≡ true }
    {
        !self.silent && is_silencing(self.reset, header)
    }

    /// Goes on after the last group of a block whose header is known. The end of the block is marked, and the header of the next one is looked at.
    fn next_block(
        &self,
        at: u8,
        n: u8,
        group: u8,
        last: &Headed,
        memory: &Aram,
        ends: &mut [u8; BATCH_SIZE],
    ) -> NextBlock
        requires span_plan { IsSpanPlan self.now n }
        requires header { last.now.header ≡ byte_at memory.now last.now.block }
        requires few { at + n ≤ BATCH_SIZE }
        requires read { group < groups_before (phase_at self.now.span_phases) n }
        requires lower { (j : ℕ) → j < n → groups_before (phase_at self.now.span_phases) j ≡ group → slice_index ends.old (at + j) < 2 ^ self.now.voice }
        ensures first { result.first ≡ next_place memory.now self.now.loop_word (last_of last.now.block) }
        ensures group { IsGroup result.first }
        ensures header { result.header ≡ byte_at memory.now result.first.block }
        ensures quiet { result.silencing ≡ false → LeavesSounding self.now memory.now result.first.block }
        ensures ends { AreEndsMarked at n self.now.voice (ends_at self.now memory.now (last_of last.now.block) group) ends.old ends.new }
    {
        self.mark_end(at, n, group, last, memory, ends);
        let block = last.next_block(self.loop_word);
        let header = memory.get(block);
        NextBlock {
            first: Place { block, offset: 1 },
            header,
            silencing: self.is_silenced_by(header),
        }
    }

    /// Reads the groups of a span of n samples from sample `at` on into a row, after the twelve samples of a voice, and marks where it comes to an end. The
    /// span is shorter where the header of a block silences the voice.
    pub(crate) fn read_span(
        &self,
        at: u8,
        n: u8,
        memory: &Aram,
        row: &mut [i16; ROW_SIZE],
        blocks: &mut BrrCache,
        ends: &mut [u8; BATCH_SIZE],
    ) -> Span
        requires span_plan { IsSpanPlan self.now n }
        requires some { 0 < n }
        requires few { at + n ≤ BATCH_SIZE }
        requires lower { (i : ℕ) → at ≤ i → i < BATCH_SIZE → slice_index ends.old i < 2 ^ self.now.voice }
        ensures span { IsSpan self.now memory.now n result }
        ensures row { take (12 + 4 * result.groups) row.new
            ≡ kept_row memory.now self.now.loop_word self.now.first (take 12 row.old) result.groups }
        ensures ends { AreEndsMarked at result.samples self.now.voice (ended_at self.now memory.now) ends.old ends.new }
        ensures quiet { LeavesSounding self.now memory.now self.now.first.block
            → (j : ℕ) → j < result.samples → LeavesSounding self.now memory.now (place_at self.now memory.now j).block }
    {
        let count = self.span_phases.groups_in(n);
        let mut place = self.first;
        let mut header = memory.get(place.block);
        let mut d = 0;
        'blocks: while d < count {
            let len = 12 + 4 * usize::from(d);
            read_rest(row, len, &place, header, memory, blocks);
            let left = groups_left(&place);
            if count - d < left {
                return Span {
                    samples: n,
                    groups: count,
                    next: place.further(count - d),
                };
            }
            d += left;
            let last = Headed {
                block: place.block,
                header,
            };
            let next = self.next_block(at, n, d - 1, &last, memory, ends);
            place = next.first;
            header = next.header;
            if next.silencing {
                let sample = self.span_phases.reading_sample(d - 1, n);
                return Span {
                    samples: sample + 1,
                    groups: d,
                    next: place,
                };
            }
        }
        Span {
            samples: n,
            groups: count,
            next: place,
        }
    }
}

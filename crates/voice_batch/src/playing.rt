//! A voice over a batch of samples, as rows of numbers alone.

ghost use Rattle.std.specs.Prelude.{◌≡◌, ◌<◌, ◌≤◌, ◌+◌, ◌-◌, ◌^◌, ℕ, List, true, false, slice_index, slice_set, if◌then◌else◌};
ghost use Rattle.rate_clock.specs.Counter.{counter_at};
ghost use Rattle.voice_unit.specs.Voice.{VoiceState};
ghost use Rattle.voice_batch.specs.OneSample.{IsStep};
ghost use Rattle.voice_batch.specs.Play.{IsPlayed};
ghost use Rattle.voice_unit.specs.Batch.{answer_at, lane_of};

use crate::plain::plain_samples;
use crate::render_span::{RenderedSpan, render_span};
use crate::span_phases::put_pitches;
use crate::workspace::Workspace;
use num_fix::BATCH_SIZE;
use voice_unit::{Voice, VoiceIn, VoiceOut, VoiceReads, high_byte, is_keyed};

/// What is made of a batch while its voices play, one after another.
#[derive(Clone, Copy)]
pub struct PlayedRows {
    /// The output of the voice that plays, in each sample.
    pub outs: [i16; BATCH_SIZE],
    /// The voices that come to an end in each sample: bit v is voice v.
    pub ends: [u8; BATCH_SIZE],
}

/// Adds the bit of a voice that ended in sample `j`.
pub(crate) fn mark_ended(ends: &mut [u8; BATCH_SIZE], j: u8, ended: bool, voice: u8)
    requires few { j < BATCH_SIZE }
    requires voice { voice < 8 }
    requires lower { slice_index ends.old j < 2 ^ voice }
    ensures { ends.new ≡ (if ended then slice_set ends.old j (slice_index ends.old j + 2 ^ voice) else ends.old) }
{
    if ended {
        ends[usize::from(j)] += 1 << voice;
    }
}

/// Whether the bit of a voice stands in the byte of sample `j`, where none of a voice after it does.
fn is_marked(ends: &[u8; BATCH_SIZE], j: u8, voice: u8) -> bool
    requires few { j < BATCH_SIZE }
    requires voice { voice < 8 }
    ensures unmarked { slice_index ends.now j < 2 ^ voice → result ≡ false }
    ensures marked { 2 ^ voice ≤ slice_index ends.now j → result ≡ true }
{
    ends[usize::from(j)] >= 1 << voice
}

/// A whole step in sample `j` of a batch. Out of line, so that the loop over spans is short.
#[inline(never)]
fn play_sample(voice: &mut Voice, j: u8, reads: &VoiceReads, input: &VoiceIn) -> VoiceOut
    requires pitch { reads.now.regs.pitch < 0x4000 }
    requires noise { input.now.noise < 0x8000 }
    ensures { (k : ℕ) → reads.now.clock ≡ counter_at k
        → IsStep reads.now.regs input.now reads.now.memory.now reads.now.table.now (counter_at (k + j)) voice.old result voice.new }
{
    let clock = reads.clock.after_samples(j);
    voice.step(&reads.regs, input, reads.memory, reads.table, &clock)
}

/// Makes n samples, or all of them but the last, where no span has that.
fn play_row(
    voice: &mut Voice,
    n: u8,
    reads: &VoiceReads,
    previous: &[i16; BATCH_SIZE],
    work: &mut Workspace,
    made: &mut PlayedRows,
) -> RenderedSpan
    requires some { 0 < n }
    requires few { n ≤ BATCH_SIZE }
    requires voice { reads.now.seen.voice < 8 }
    requires pitch { reads.now.regs.pitch < 0x4000 }
    requires noise { (j : ℕ) → j < n → slice_index reads.now.rows.now.noise j < 0x8000 }
    requires lower { (j : ℕ) → j < BATCH_SIZE → slice_index made.old.ends j < 2 ^ reads.now.seen.voice }
    ensures from { n - 1 ≤ result.at }
    ensures to { result.at ≤ n }
    ensures played { (k : ℕ) → reads.now.clock ≡ counter_at k → let lane = lane_of reads.now previous.now voice.old k in
        IsPlayed lane reads.now.seen.voice result.at made.old.ends made.new.ends made.new.outs voice.new }
    ensures within { result.level ≤ 0x7ff }
    ensures level { (k : ℕ) → reads.now.clock ≡ counter_at k → result.at ≡ n
        → result.level ≡ (answer_at (lane_of reads.now previous.now voice.old k) (n - 1)).level }
    ensures others { (j : ℕ) → result.at ≤ j → slice_index made.new.ends j ≡ slice_index made.old.ends j }
    ensures lower { (j : ℕ) → j < BATCH_SIZE → slice_index made.new.ends j < 2 ^ (reads.now.seen.voice + 1) }
{
    let last = n - 1;
    if last == 0 {
        return RenderedSpan { at: 0, level: 0 };
    }
    // a copy, so that what is the same in all samples is worked out once
    let seen = reads.seen;
    put_pitches(&mut work.pitches, &seen, reads.regs.pitch, previous);
    let plain = plain_samples(&seen, reads.rows);
    let mut j = 0;
    'samples: while j < last {
        let end = plain.end_from(j, n);
        let rendered = render_span(voice, j, end, reads, work, made);
        let to = rendered.at;
        if last <= to {
            return rendered;
        }
        let place = usize::from(to);
        let input = seen.input(reads.rows, previous[place], to);
        let answer = play_sample(voice, to, reads, &input);
        made.outs[place] = answer.out;
        mark_ended(&mut made.ends, to, answer.ended, seen.voice);
        j = to + 1;
    }
    RenderedSpan { at: j, level: 0 }
}

/// What sample `j` gave, the last of a span, at a level.
fn span_answer(
    voice: &Voice,
    j: u8,
    level: u16,
    reads: &VoiceReads,
    previous: &[i16; BATCH_SIZE],
    made: &PlayedRows,
) -> VoiceOut
    requires few { j < BATCH_SIZE }
    requires level { level ≤ 0x7ff }
    requires voice { reads.now.seen.voice < 8 }
    ensures { (k : ℕ) (before : List ℕ) (begun : VoiceState) → let lane = lane_of reads.now previous.now begun k in
        IsPlayed lane reads.now.seen.voice (j + 1) before made.now.ends made.now.outs voice.now
        → slice_index before j < 2 ^ reads.now.seen.voice
        → level ≡ (answer_at lane j).level → result ≡ answer_at lane j }
{
    let place = usize::from(j);
    let input = reads.seen.input(reads.rows, previous[place], j);
    let out = made.outs[place];
    VoiceOut {
        out,
        level,
        envx: (level / 0x10) as u8,
        outx: high_byte(out),
        block: voice.block(),
        ended: is_marked(&made.ends, j, reads.seen.voice),
        keyed: is_keyed(&input),
    }
}

/// Plays a batch of n samples over the row of outputs of the voice before. Its outputs are put into a row, and the bit of the voice is added to the byte
/// of each sample in which it comes to an end. The answer is that of the last sample.
pub fn play(
    voice: &mut Voice,
    n: u8,
    reads: &VoiceReads,
    previous: &[i16; BATCH_SIZE],
    work: &mut Workspace,
    made: &mut PlayedRows,
) -> VoiceOut
    requires some { 0 < n }
    requires few { n ≤ BATCH_SIZE }
    requires voice { reads.now.seen.voice < 8 }
    requires pitch { reads.now.regs.pitch < 0x4000 }
    requires noise { (j : ℕ) → j < n → slice_index reads.now.rows.now.noise j < 0x8000 }
    requires lower { (j : ℕ) → j < BATCH_SIZE → slice_index made.old.ends j < 2 ^ reads.now.seen.voice }
    ensures played { (k : ℕ) → reads.now.clock ≡ counter_at k
        → let lane = lane_of reads.now previous.now voice.old k in
        IsPlayed lane reads.now.seen.voice n made.old.ends made.new.ends made.new.outs voice.new }
    ensures lower { (j : ℕ) → j < BATCH_SIZE → slice_index made.new.ends j < 2 ^ (reads.now.seen.voice + 1) }
    ensures last { (k : ℕ) → reads.now.clock ≡ counter_at k → result ≡ answer_at (lane_of reads.now previous.now voice.old k) (n - 1) }
{
    let rendered = play_row(voice, n, reads, previous, work, made);
    let last = n - 1;
    if rendered.at == n {
        return span_answer(voice, last, rendered.level, reads, previous, made);
    }
    let place = usize::from(last);
    let input = reads.seen.input(reads.rows, previous[place], last);
    let answer = play_sample(voice, last, reads, &input);
    made.outs[place] = answer.out;
    mark_ended(&mut made.ends, last, answer.ended, reads.seen.voice);
    answer
}

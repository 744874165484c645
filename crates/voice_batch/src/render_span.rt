//! How a span is rendered: while a voice's envelope runs free and no key on is latched, the samples of a span differ in their phases and their levels alone,
//! so that they are read off one row of kept samples.

ghost use Rattle.std.specs.Prelude.{◌≡◌, ◌<◌, ◌≤◌, ◌+◌, ◌-◌, ◌^◌, ℕ, List, true, slice_index};
ghost use Rattle.num_fix.specs.Arithmetic.{has_bit};
ghost use Rattle.voice_unit.specs.Directory.{loop_word};
ghost use Rattle.voice_batch.specs.FreeEnvelope.{IsSilent, HasFreeEnvelope};
ghost use Rattle.voice_batch.specs.SpanPlan.{IsSpanPlan};
ghost use Rattle.voice_batch.specs.Row.{ArePhases, place_of};
ghost use Rattle.voice_batch.specs.SpanPhases.{MoveOn, pitches_from};
ghost use Rattle.voice_unit.specs.Voice.{is_modulated};
ghost use Rattle.voice_batch.specs.Play.{IsPlayed, CanRenderSpan};
ghost use Rattle.voice_unit.specs.Batch.{Lane, answer_at};

use crate::free_envelope::{has_free_envelope, is_silent};
use crate::playing::PlayedRows;
use crate::row::{begin_row, go_to, place_of};
use crate::span_phases::{PHASES, SpanPhases, put_phases};
use crate::span_plan::SpanPlan;
use crate::workspace::Workspace;
use num_fix::{BATCH_SIZE, has_bit};
use voice_unit::{Voice, VoiceReads, VoiceView, loop_word};

/// Where rendering a span has come to.
#[derive(Clone, Copy)]
pub(crate) struct RenderedSpan {
    /// The sample that is next.
    pub at: u8,
    /// The level at which the last one sounds, where the span has that one; else 0.
    pub level: u16,
}

/// Puts how far n samples from sample `at` on stand, where the voice is modulated.
fn put_phases_of(
    voice: &Voice,
    at: u8,
    n: u8,
    seen: &VoiceView,
    pitches: &[u16; BATCH_SIZE],
    phases: &mut [u32; PHASES],
)
    requires few { at + n ≤ BATCH_SIZE }
    requires voice { seen.now.voice < 8 }
    ensures phases { is_modulated seen.now.pmon seen.now.voice ≡ true →
        ArePhases (pitches_from pitches.now at) n voice.now.position (slice_index phases.new) }
    ensures moves { is_modulated seen.now.pmon seen.now.voice ≡ true → MoveOn (slice_index phases.new) n }
{
    if !seen.is_modulated() {
        return;
    }
    put_phases(phases, pitches, voice.position(), at, n);
}

/// What the samples of a span of n samples depend on.
fn span_plan<'a>(
    voice: &Voice,
    n: u8,
    reads: &VoiceReads,
    phases: &'a [u32; PHASES],
) -> SpanPlan<'a>
    requires voice { reads.now.seen.voice < 8 }
    requires pitch { reads.now.regs.pitch < 0x4000 }
    requires phases { is_modulated reads.now.seen.pmon reads.now.seen.voice ≡ true → MoveOn (slice_index phases.now) n }
    ensures voice { result.voice ≡ reads.now.seen.voice }
    ensures first { result.first ≡ place_of voice.now }
    ensures loop_word { result.loop_word ≡ loop_word reads.now.seen.dir reads.now.regs.srcn reads.now.memory.now }
    ensures position { result.span_phases.position ≡ voice.now.position }
    ensures pitch { result.span_phases.pitch ≡ reads.now.regs.pitch }
    ensures modulated { result.span_phases.modulated ≡ is_modulated reads.now.seen.pmon reads.now.seen.voice }
    ensures phases { result.span_phases.phases.now ≡ phases.now }
    ensures envelope { result.envelope ≡ voice.now.envelope }
    ensures reset { result.reset ≡ reads.now.seen.reset }
    ensures silent { result.silent ≡ true → IsSilent voice.now.envelope }
    ensures noisy { result.noisy ≡ has_bit reads.now.seen.non reads.now.seen.voice }
    ensures all_silent { IsSilent voice.now.envelope → result.silent ≡ true }
    ensures span_plan { IsSpanPlan result n }
{
    SpanPlan {
        voice: reads.seen.voice,
        first: place_of(voice),
        loop_word: loop_word(reads.seen.dir, reads.regs.srcn, reads.memory),
        span_phases: SpanPhases {
            position: voice.position(),
            pitch: reads.regs.pitch,
            modulated: reads.seen.is_modulated(),
            phases,
        },
        envelope: voice.envelope(),
        reset: reads.seen.reset,
        silent: is_silent(&voice.envelope()),
        noisy: has_bit(reads.seen.non, reads.seen.voice),
    }
}

/// Plays n samples of a voice with a free-running envelope from sample `at` on over the row of its kept samples; fewer, where the header of a block silences
/// it.
fn play_span(
    voice: &mut Voice,
    at: u8,
    n: u8,
    reads: &VoiceReads,
    work: &mut Workspace,
    made: &mut PlayedRows,
) -> RenderedSpan
    requires some { 0 < n }
    requires few { at + n ≤ BATCH_SIZE }
    requires free_envelope { HasFreeEnvelope reads.now.seen.reset (has_bit reads.now.seen.koff reads.now.seen.voice) reads.now.memory.now voice.old }
    requires voice { reads.now.seen.voice < 8 }
    requires pitch { reads.now.regs.pitch < 0x4000 }
    requires lower { (i : ℕ) → at ≤ i → i < BATCH_SIZE → slice_index made.old.ends i < 2 ^ reads.now.seen.voice }
    ensures from { at < result.at }
    ensures to { result.at ≤ at + n }
    ensures played { (lane : Lane) (before : List ℕ) → CanRenderSpan reads.now work.old.pitches lane at (at + n) before made.old.ends made.old.outs voice.old
        → IsPlayed lane reads.now.seen.voice result.at before made.new.ends made.new.outs voice.new }
    ensures pitches { work.new.pitches ≡ work.old.pitches }
    ensures within { result.level ≤ 0x7ff }
    ensures level { (lane : Lane) (before : List ℕ) → CanRenderSpan reads.now work.old.pitches lane at (at + n) before made.old.ends made.old.outs voice.old
        → result.level ≡ (answer_at lane (result.at - 1)).level }
    ensures later { (i : ℕ) → result.at ≤ i → slice_index made.new.ends i ≡ slice_index made.old.ends i }
    ensures before { (i : ℕ) → i < at → slice_index made.new.ends i ≡ slice_index made.old.ends i }
    ensures lower { (i : ℕ) → at ≤ i → i < BATCH_SIZE → slice_index made.new.ends i < 2 ^ (reads.now.seen.voice + 1) }
{
    put_phases_of(voice, at, n, &reads.seen, &work.pitches, &mut work.phases);
    let span_plan = span_plan(voice, n, reads, &work.phases);
    begin_row(voice, &mut work.row);
    let span = span_plan.read_span(
        at,
        n,
        reads.memory,
        &mut work.row,
        &mut work.blocks,
        &mut made.ends,
    );
    let samples = span.samples;
    let sounded = span_plan.sound(
        &mut made.outs,
        &mut work.rows,
        at,
        samples,
        &work.row,
        reads,
    );
    let position = span_plan.span_phases.position_after(&span);
    go_to(voice, &work.row, span.groups, position, span.next);
    voice.take_envelope(sounded.envelope);
    RenderedSpan {
        at: at + samples,
        level: sounded.level,
    }
}

/// Makes samples from sample `j` up to another one, between which no key on is latched, if its envelope runs free; fewer where a header silences it.
pub(crate) fn render_span(
    voice: &mut Voice,
    j: u8,
    end: u8,
    reads: &VoiceReads,
    work: &mut Workspace,
    made: &mut PlayedRows,
) -> RenderedSpan
    requires few { end ≤ BATCH_SIZE }
    requires from { j ≤ end }
    requires voice { reads.now.seen.voice < 8 }
    requires pitch { reads.now.regs.pitch < 0x4000 }
    requires lower { (i : ℕ) → j ≤ i → i < BATCH_SIZE → slice_index made.old.ends i < 2 ^ reads.now.seen.voice }
    requires before { (i : ℕ) → i < BATCH_SIZE → slice_index made.old.ends i < 2 ^ (reads.now.seen.voice + 1) }
    ensures from { j ≤ result.at }
    ensures to { result.at ≤ end }
    ensures played { (lane : Lane) (before : List ℕ) → CanRenderSpan reads.now work.old.pitches lane j end before made.old.ends made.old.outs voice.old
        → IsPlayed lane reads.now.seen.voice result.at before made.new.ends made.new.outs voice.new }
    ensures pitches { work.new.pitches ≡ work.old.pitches }
    ensures within { result.level ≤ 0x7ff }
    ensures level { (lane : Lane) (before : List ℕ) → CanRenderSpan reads.now work.old.pitches lane j end before made.old.ends made.old.outs voice.old
        → j < result.at → result.level ≡ (answer_at lane (result.at - 1)).level }
    ensures later { (i : ℕ) → result.at ≤ i → slice_index made.new.ends i ≡ slice_index made.old.ends i }
    ensures lower { (i : ℕ) → i < BATCH_SIZE → slice_index made.new.ends i < 2 ^ (reads.now.seen.voice + 1) }
{
    let seen = &reads.seen;
    if j < end
        && has_free_envelope(
            voice,
            seen.reset,
            has_bit(seen.koff, seen.voice),
            reads.memory,
        )
    {
        return play_span(voice, j, end - j, reads, work, made);
    }
    RenderedSpan { at: j, level: 0 }
}

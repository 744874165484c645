//! How far the samples of a span stand in the row of kept samples.

ghost use Rattle.std.specs.Prelude.{◌≡◌, ◌<◌, ◌≤◌, ◌+◌, ◌*◌, ℕ, pos, true, slice_index};
ghost use Rattle.num_fix.specs.SignedWords.{number_at};
ghost use Rattle.voice_unit.specs.Voice.{modulated_pitch, is_modulated};
ghost use Rattle.voice_batch.specs.Row.{ArePhases, groups_before, next_phase};
ghost use Rattle.voice_batch.specs.SpanPhases.{AreSpanPhases, MoveOn, pitches_from, steady_phases, phase_at};

use crate::span_plan::Span;
use num_fix::{BATCH_SIZE, scaled};
use voice_unit::VoiceView;

/// Places for how far the samples of a batch stand, and the one after them.
pub(crate) const PHASES: usize = BATCH_SIZE + 1;

/// The greatest pitch that leads no position to its end at 7FFFh.
const MAX_FREE_PITCH: u16 = 0x4000;

/// How far the samples of a span stand in the row of kept samples, in 4096ths of one. Where the pitch isn't modulated, each stands a pitch after the one
/// before.
#[derive(Clone, Copy)]
pub(crate) struct SpanPhases<'a> {
    /// The position of the first sample, below 8000h.
    pub position: u16,
    /// The pitch of the registers, below 4000h.
    pub pitch: u16,
    /// The pitch is modulated by the voice before.
    pub modulated: bool,
    /// Where it is modulated: how far each sample stands, and the one after the last.
    pub phases: &'a [u32; PHASES],
}

/// The double of a pitch for each sample of a batch, so that 16-bit numbers meet 16-bit numbers.
fn doubles_of(pitch: u16) -> [i16; BATCH_SIZE]
    requires { pitch < 0x4000 }
    ensures { (j : ℕ) → j < BATCH_SIZE → number_at result j ≡ pos (2 * pitch) }
{
    [2 * pitch as i16; BATCH_SIZE]
}

/// A pitch modulated by the output of the voice before, by its double: one multiplication of 16-bit numbers.
fn modulated_by_double(pitch: u16, double: i16, previous: i16) -> u16
    requires pitch { pitch < 0x4000 }
    requires double { double ≡ pos (2 * pitch) }
    ensures { result ≡ modulated_pitch pitch previous }
{
    let bend = scaled((previous >> 5) * 32, double, 16) as i16;
    (pitch as i16 + bend) as u16
}

/// The pitches of a batch, modulated by the outputs of the voice before.
fn put_modulated_pitches(pitches: &mut [u16; BATCH_SIZE], pitch: u16, previous: &[i16; BATCH_SIZE])
    requires { pitch < 0x4000 }
    ensures { (j : ℕ) → j < BATCH_SIZE → slice_index pitches.new j ≡ modulated_pitch pitch (number_at previous.now j) }
{
    let doubles = doubles_of(pitch);
    for j in 0..BATCH_SIZE {
        pitches[j] = modulated_by_double(pitch, doubles[j], previous[j]);
    }
}

/// The pitches of a batch, where the voice is modulated by the outputs of the voice before.
pub(crate) fn put_pitches(
    pitches: &mut [u16; BATCH_SIZE],
    seen: &VoiceView,
    pitch: u16,
    previous: &[i16; BATCH_SIZE],
)
    requires voice { seen.now.voice < 8 }
    requires pitch { pitch < 0x4000 }
    ensures { is_modulated seen.now.pmon seen.now.voice ≡ true
        → (j : ℕ) → j < BATCH_SIZE → slice_index pitches.new j ≡ modulated_pitch pitch (number_at previous.now j) }
{
    if !seen.is_modulated() {
        return;
    }
    put_modulated_pitches(pitches, pitch, previous);
}

/// Whether no pitch of a batch leads a position to its end.
fn are_free(pitches: &[u16; BATCH_SIZE]) -> bool
    ensures { result ≡ true → (j : ℕ) → j < BATCH_SIZE → slice_index pitches.now j ≤ 0x4000 }
{
    let mut greatest = 0;
    for j in 0..BATCH_SIZE {
        greatest = greatest.max(pitches[j]);
    }
    greatest <= MAX_FREE_PITCH
}

/// How far the next sample stands, a pitch after one that stands so far.
fn next_phase(phase: u32, pitch: u16) -> u32
    requires { phase < 0x1000000 }
    ensures value { result ≡ next_phase phase pitch }
    ensures bound { result ≤ phase + 0x7fff }
{
    let begun = phase % 0x4000;
    phase - begun + (begun + u32::from(pitch)).min(0x7fff)
}

/// How far n samples stand from sample `at` on, the first at a position, where a pitch may lead to its end.
fn put_clamped_phases(
    phases: &mut [u32; PHASES],
    pitches: &[u16; BATCH_SIZE],
    position: u16,
    at: u8,
    n: u8,
)
    requires few { at + n ≤ BATCH_SIZE }
    requires position { position < 0x8000 }
    ensures { ArePhases (pitches_from pitches.now at) n position (slice_index phases.new) }
{
    let from = usize::from(at);
    let mut phase = u32::from(position);
    phases[0] = phase;
    for j in 0..usize::from(n) {
        phase = next_phase(phase, pitches[from + j]);
        phases[j + 1] = phase;
    }
}

/// How far n samples stand from sample `at` on, the first at a position, where no pitch leads to its end.
fn put_summed_phases(
    phases: &mut [u32; PHASES],
    pitches: &[u16; BATCH_SIZE],
    position: u16,
    at: u8,
    n: u8,
)
    requires few { at + n ≤ BATCH_SIZE }
    requires position { position < 0x8000 }
    requires free { (j : ℕ) → j < BATCH_SIZE → slice_index pitches.now j ≤ 0x4000 }
    ensures { ArePhases (pitches_from pitches.now at) n position (slice_index phases.new) }
{
    let from = usize::from(at);
    let mut phase = u32::from(position);
    phases[0] = phase;
    for j in 0..usize::from(n) {
        phase += u32::from(pitches[from + j]);
        phases[j + 1] = phase;
    }
}

/// How far n samples stand from sample `at` on, the first at a position, by the pitches of a batch. Out of line, since few voices are modulated.
#[inline(never)]
pub(crate) fn put_phases(
    phases: &mut [u32; PHASES],
    pitches: &[u16; BATCH_SIZE],
    position: u16,
    at: u8,
    n: u8,
)
    requires few { at + n ≤ BATCH_SIZE }
    requires position { position < 0x8000 }
    ensures { ArePhases (pitches_from pitches.now at) n position (slice_index phases.new) }
{
    if are_free(pitches) {
        put_summed_phases(phases, pitches, position, at, n);
    } else {
        put_clamped_phases(phases, pitches, position, at, n);
    }
}

/// The sample of n that reads the group after so many others, where each stands a pitch after the one before.
fn steady_sample(position: u16, pitch: u16, group: u8, n: u8) -> u8
    requires position { position < 0x8000 }
    requires pitch { pitch < 0x4000 }
    requires few { n ≤ BATCH_SIZE }
    requires read { group < groups_before (steady_phases position pitch) n }
    ensures within { result < n }
    ensures before { groups_before (steady_phases position pitch) result ≡ group }
    ensures after { groups_before (steady_phases position pitch) (result + 1) ≡ group + 1 }
{
    let end = 0x4000 * (u32::from(group) + 1);
    let from = u32::from(position);
    if from >= end {
        return 0;
    }
    ((end - 1 - from) / u32::from(pitch) + 1) as u8
}

/// The sample of n that reads the group after so many others, by how far each stands. Out of line, since few voices are modulated.
#[inline(never)]
fn sample_at_phase(phases: &[u32; PHASES], group: u8, n: u8) -> u8
    requires few { n ≤ BATCH_SIZE }
    requires moves { MoveOn (slice_index phases.now) n }
    requires read { group < groups_before (slice_index phases.now) n }
    ensures within { result < n }
    ensures before { groups_before (slice_index phases.now) result ≡ group }
    ensures after { groups_before (slice_index phases.now) (result + 1) ≡ group + 1 }
{
    let end = 0x4000 * (u32::from(group) + 1);
    for j in 0..n {
        if phases[usize::from(j)] >= end {
            return j;
        }
    }
    n
}

impl<'a> SpanPhases<'a> {
    /// How far sample `j` stands.
    #[tactic(auto, unfolding(crate::specs::SpanPhases::phase_at))]
    fn phase(&self, j: u8) -> u32
        requires position { self.now.position < 0x8000 }
        requires pitch { self.now.pitch < 0x4000 }
        requires few { j ≤ BATCH_SIZE }
        ensures { result ≡ phase_at self.now j }
    {
        if self.modulated {
            self.phases[usize::from(j)]
        } else {
            u32::from(self.position) + u32::from(j) * u32::from(self.pitch)
        }
    }

    /// How many groups are read in n samples.
    pub(crate) fn groups_in(&self, n: u8) -> u8
        requires span_phases { AreSpanPhases self.now n }
        requires some { 0 < n }
        requires few { n ≤ BATCH_SIZE }
        ensures value { result ≡ groups_before (phase_at self.now) n }
        ensures few { result ≤ BATCH_SIZE }
    {
        (self.phase(n - 1) / 0x4000) as u8
    }

    /// The sample of n that reads the group after so many others.
    #[tactic(auto, unfolding(crate::specs::SpanPhases::phase_at))]
    pub(crate) fn reading_sample(&self, group: u8, n: u8) -> u8
        requires span_phases { AreSpanPhases self.now n }
        requires few { n ≤ BATCH_SIZE }
        requires read { group < groups_before (phase_at self.now) n }
        ensures within { result < n }
        ensures before { groups_before (phase_at self.now) result ≡ group }
        ensures after { groups_before (phase_at self.now) (result + 1) ≡ group + 1 }
    {
        if self.modulated {
            sample_at_phase(self.phases, group, n)
        } else {
            steady_sample(self.position, self.pitch, group, n)
        }
    }

    /// The position of the voice after a span of samples, in which so many groups were read.
    pub(crate) fn position_after(&self, span: &Span) -> u16
        requires span_phases { AreSpanPhases self.now span.now.samples }
        requires some { 0 < span.now.samples }
        requires few { span.now.samples ≤ BATCH_SIZE }
        requires groups { span.now.groups ≡ groups_before (phase_at self.now) span.now.samples }
        ensures value { result + 0x4000 * span.now.groups ≡ phase_at self.now span.now.samples }
        ensures within { result < 0x8000 }
    {
        (self.phase(span.samples) - 0x4000 * u32::from(span.groups)) as u16
    }
}

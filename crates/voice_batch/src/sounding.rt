//! The outputs of a span of samples, over a row of kept samples or over noise.

ghost use Rattle.std.specs.Prelude.{◌≡◌, ◌<◌, ◌≤◌, ◌+◌, ◌-◌, ◌*◌, ◌%◌, ℕ, List, ℤ, pos, slice_index};
ghost use Rattle.num_fix.specs.Arithmetic.{wrap16};
ghost use Rattle.num_fix.specs.SignedWords.{number_at};
ghost use Rattle.gauss_table.specs.Interpolation.{mix_of};
ghost use Rattle.gauss_table.specs.Quads.{AreQuads};
ghost use Rattle.rate_clock.specs.Counter.{counter_at};
ghost use Rattle.voice_batch.specs.SpanPlan.{IsSpanPlan};
ghost use Rattle.voice_batch.specs.Levels.{envelope_from, level_in};
ghost use Rattle.voice_unit.specs.Voice.{interpolation};
ghost use Rattle.voice_batch.specs.SpanPhases.{AreSpanPhases, phase_at};
ghost use Rattle.voice_batch.specs.OutsOverRow.{mixed_at, sounding_at, out_in_span};

use crate::levels::{LEVELS, clock_in, put_levels};
use crate::row::ROW_SIZE;
use crate::short_sounding::{
    HALF_LEVEL, LAST_OF_EIGHT, factors_of_level, put_short, put_short_by_levels,
    take_short_span_taps,
};
use crate::span_phases::{PHASES, SpanPhases};
use crate::span_plan::SpanPlan;
use crate::workspace::SpanRows;
use envelope::Envelope;
use gauss_table::{GaussTable, Quad, Taps};
use num_fix::{BATCH_SIZE, clear_bit0, wrap16};
use voice_unit::{VoiceReads, at_level};

/// The phase of the last four samples of a row, in 65,536ths of a sample.
pub(crate) const PHASE_END: u32 = 0x10000 * (ROW_SIZE as u32 - 4);

/// The taps at a phase of a row of kept samples, in 65,536ths of a sample, so that the place of the weights is a byte of it.
#[tactic(auto, unfolding(voice_unit::specs::Voice::interpolation))]
fn taps_at(row: &[i16; ROW_SIZE], phase: u32, quads: &[Quad; 256]) -> Taps
    requires { phase < PHASE_END }
    ensures { (table : List ℤ) (place : ℕ) → AreQuads table quads.now → phase ≡ 0x10 * place
        → mix_of result.oldest result.older result.newer result.newest ≡ interpolation table row.now place }
{
    let m = (phase / 0x10000) as usize;
    let i = (phase / 0x100 % 0x100) as u8;
    Taps::at(quads, i, row[m], row[m + 1], row[m + 2], row[m + 3])
}

/// The taps of n samples, from a position in a row on.
fn take_taps(
    taps: &mut [Taps; BATCH_SIZE],
    n: u8,
    row: &[i16; ROW_SIZE],
    table: &GaussTable,
    position: u16,
    pitch: u16,
)
    requires few { n ≤ BATCH_SIZE }
    requires position { position < 0x8000 }
    requires pitch { pitch < 0x4000 }
    ensures { (j : ℕ) → j < n → mixed_at taps.new j ≡ interpolation table.now row.now (position + j * pitch) }
{
    let quads = table.quads();
    let step = 0x10 * u32::from(pitch);
    let mut phase = 0x10 * u32::from(position);
    for j in 0..usize::from(n) {
        taps[j] = taps_at(row, phase, quads);
        phase += step;
    }
}

/// The taps of n samples that stand so far in a row. Out of line, since few voices are modulated.
#[inline(never)]
fn take_modulated_taps(
    taps: &mut [Taps; BATCH_SIZE],
    n: u8,
    row: &[i16; ROW_SIZE],
    table: &GaussTable,
    phases: &[u32; PHASES],
)
    requires few { n ≤ BATCH_SIZE }
    requires within { (j : ℕ) → j < n → 0x10 * slice_index phases.now j < PHASE_END }
    ensures { (j : ℕ) → j < n → mixed_at taps.new j ≡ interpolation table.now row.now (slice_index phases.now j) }
{
    let quads = table.quads();
    for j in 0..usize::from(n) {
        taps[j] = taps_at(row, 0x10 * phases[j], quads);
    }
}

/// The taps of n samples of a span.
#[inline(always)]
#[tactic(auto, unfolding(crate::specs::SpanPhases::phase_at))]
fn take_span_taps(
    taps: &mut [Taps; BATCH_SIZE],
    n: u8,
    row: &[i16; ROW_SIZE],
    table: &GaussTable,
    span_phases: &SpanPhases,
)
    requires few { n ≤ BATCH_SIZE }
    requires span_phases { AreSpanPhases span_phases.now n }
    ensures { (j : ℕ) → j < n → mixed_at taps.new j ≡ interpolation table.now row.now (phase_at span_phases.now j) }
{
    if span_phases.modulated {
        take_modulated_taps(taps, n, row, table, span_phases.phases);
        return;
    }
    take_taps(taps, n, row, table, span_phases.position, span_phases.pitch);
}

/// The outputs of n samples at a level.
fn put_at_level(outs: &mut [i16; BATCH_SIZE], at: u8, n: u8, taps: &[Taps; BATCH_SIZE], level: u16)
    requires few { at + n ≤ BATCH_SIZE }
    requires level { level ≤ 0x7ff }
    ensures outs { (j : ℕ) → j < n → number_at outs.new (at + j) ≡ sounding_at level (mixed_at taps.now j) }
    ensures before { (i : ℕ) → i < at → number_at outs.new i ≡ number_at outs.old i }
{
    let from = usize::from(at);
    for j in 0..usize::from(n) {
        outs[from + j] = clear_bit0(at_level(taps[j].mixed(), level));
    }
}

/// The outputs of n samples of noise at a level. Out of line, since few voices play noise.
#[inline(never)]
fn put_noise(outs: &mut [i16; BATCH_SIZE], at: u8, n: u8, noise: &[u16; BATCH_SIZE], level: u16)
    requires few { at + n ≤ BATCH_SIZE }
    requires level { level ≤ 0x7ff }
    ensures outs { (j : ℕ) → j < n → number_at outs.new (at + j) ≡ sounding_at level (wrap16 (pos (2 * slice_index noise.now (at + j)))) }
    ensures before { (i : ℕ) → i < at → number_at outs.new i ≡ number_at outs.old i }
{
    let from = usize::from(at);
    for j in 0..usize::from(n) {
        let sample = wrap16(2 * i32::from(noise[from + j]));
        outs[from + j] = clear_bit0(at_level(sample, level));
    }
}

/// The outputs of n samples, each at its own level. That each is a level is made plain by what is left of it below LEVELS, so that no condition is wanted.
/// Out of line, since few spans are so.
#[inline(never)]
fn put_by_levels(
    outs: &mut [i16; BATCH_SIZE],
    at: u8,
    n: u8,
    taps: &[Taps; BATCH_SIZE],
    levels: &[u16; BATCH_SIZE],
)
    requires few { at + n ≤ BATCH_SIZE }
    ensures outs { (j : ℕ) → j < n
        → number_at outs.new (at + j) ≡ sounding_at (slice_index levels.now (at + j) % LEVELS) (mixed_at taps.now j) }
    ensures before { (i : ℕ) → i < at → number_at outs.new i ≡ number_at outs.old i }
{
    let from = usize::from(at);
    for j in 0..usize::from(n) {
        let level = levels[from + j] % LEVELS;
        outs[from + j] = clear_bit0(at_level(taps[j].mixed(), level));
    }
}

/// The outputs of n samples of noise, each at its own level. That each is a level is made plain by what is left of it below LEVELS, so that no condition is
/// wanted. Out of line, since few voices play noise.
#[inline(never)]
fn put_noise_by_levels(
    outs: &mut [i16; BATCH_SIZE],
    at: u8,
    n: u8,
    noise: &[u16; BATCH_SIZE],
    levels: &[u16; BATCH_SIZE],
)
    requires few { at + n ≤ BATCH_SIZE }
    ensures outs { (j : ℕ) → j < n
        → number_at outs.new (at + j) ≡ sounding_at (slice_index levels.now (at + j) % LEVELS) (wrap16 (pos (2 * slice_index noise.now (at + j)))) }
    ensures before { (i : ℕ) → i < at → number_at outs.new i ≡ number_at outs.old i }
{
    let from = usize::from(at);
    for j in 0..usize::from(n) {
        let level = levels[from + j] % LEVELS;
        let source = wrap16(2 * i32::from(noise[from + j]));
        outs[from + j] = clear_bit0(at_level(source, level));
    }
}

/// The outputs of n samples at level 0. What stands behind them in the row is ignored, so that those of a whole batch are put at once.
fn put_silence(outs: &mut [i16; BATCH_SIZE], at: u8, n: u8)
    requires { at + n ≤ BATCH_SIZE }
    ensures outs { (j : ℕ) → j < n → number_at outs.new (at + j) ≡ pos 0 }
    ensures before { (i : ℕ) → i < at → number_at outs.new i ≡ number_at outs.old i }
{
    if at == 0 {
        *outs = [0; BATCH_SIZE];
        return;
    }
    let from = usize::from(at);
    for j in 0..usize::from(n) {
        outs[from + j] = 0;
    }
}

/// What a span that sounded leaves: its envelope, and the level of its last sample.
#[derive(Clone, Copy)]
pub(crate) struct Sounded {
    /// The envelope after the last sample.
    pub envelope: Envelope,
    /// The level at which the last sample sounds.
    pub level: u16,
}

impl<'a> SpanPlan<'a> {
    /// The outputs of n samples from sample `at` on at the level of the envelope, over a row of kept samples or over noise. At level 0 they are 0, whatever
    /// the samples are.
    fn sound_at_level(
        &self,
        outs: &mut [i16; BATCH_SIZE],
        rows: &mut SpanRows,
        at: u8,
        n: u8,
        row: &[i16; ROW_SIZE],
        reads: &VoiceReads,
    )
        requires span_plan { IsSpanPlan self.now n }
        requires few { at + n ≤ BATCH_SIZE }
        ensures outs { (j : ℕ) → j < n
            → number_at outs.new (at + j) ≡ out_in_span self.now.noisy (slice_index reads.now.rows.now.noise (at + j))
            reads.now.table.now row.now (phase_at self.now.span_phases j) self.now.envelope.level }
        ensures before { (i : ℕ) → i < at → number_at outs.new i ≡ number_at outs.old i }
    {
        let level = self.envelope.level();
        if level == 0 {
            put_silence(outs, at, n);
            return;
        }
        if self.noisy {
            put_noise(outs, at, n, &reads.rows.noise, level);
            return;
        }
        match reads.table.factors() {
            Some(factors) if at <= LAST_OF_EIGHT => {
                take_short_span_taps(&mut rows.short_taps, n, row, factors, &self.span_phases);
                let factors = factors_of_level(level);
                let wrapped = HALF_LEVEL <= level;
                put_short(outs, at, n, &rows.short_taps, &factors, wrapped);
            }
            _ => {
                take_span_taps(&mut rows.taps, n, row, reads.table, &self.span_phases);
                put_at_level(outs, at, n, &rows.taps, level);
            }
        }
    }

    /// The outputs of n samples from sample `at` on, each at its own level, over a row of kept samples or over noise. Out of line, since most spans
    /// have one level.
    #[inline(never)]
    fn sound_by_levels(
        &self,
        outs: &mut [i16; BATCH_SIZE],
        rows: &mut SpanRows,
        at: u8,
        n: u8,
        row: &[i16; ROW_SIZE],
        reads: &VoiceReads,
    )
        requires span_plan { IsSpanPlan self.now n }
        requires few { at + n ≤ BATCH_SIZE }
        ensures outs { (j : ℕ) → j < n
            → number_at outs.new (at + j) ≡ out_in_span self.now.noisy (slice_index reads.now.rows.now.noise (at + j))
            reads.now.table.now row.now (phase_at self.now.span_phases j) (slice_index rows.old.levels (at + j) % LEVELS) }
        ensures before { (i : ℕ) → i < at → number_at outs.new i ≡ number_at outs.old i }
    {
        if self.noisy {
            put_noise_by_levels(outs, at, n, &reads.rows.noise, &rows.levels);
            return;
        }
        match reads.table.factors() {
            Some(factors) if at <= LAST_OF_EIGHT => {
                take_short_span_taps(&mut rows.short_taps, n, row, factors, &self.span_phases);
                put_short_by_levels(outs, at, n, &rows.short_taps, &rows.levels);
            }
            _ => {
                take_span_taps(&mut rows.taps, n, row, reads.table, &self.span_phases);
                put_by_levels(outs, at, n, &rows.taps, &rows.levels);
            }
        }
    }

    /// The outputs of n samples from sample `at` on, over a row of kept samples or over noise, each at the level that the steps of the envelope in the
    /// samples before it leave.
    pub(crate) fn sound(
        &self,
        outs: &mut [i16; BATCH_SIZE],
        rows: &mut SpanRows,
        at: u8,
        n: u8,
        row: &[i16; ROW_SIZE],
        reads: &VoiceReads,
    ) -> Sounded
        requires span_plan { IsSpanPlan self.now n }
        requires some { 0 < n }
        requires few { at + n ≤ BATCH_SIZE }
        ensures outs { (k : ℕ) → reads.now.clock ≡ counter_at k → (j : ℕ) → j < n
            → number_at outs.new (at + j) ≡ out_in_span self.now.noisy (slice_index reads.now.rows.now.noise (at + j))
            reads.now.table.now row.now (phase_at self.now.span_phases j) (level_in self.now.envelope reads.now.regs (k + at) j) }
        ensures before { (i : ℕ) → i < at → number_at outs.new i ≡ number_at outs.old i }
        ensures envelope { (k : ℕ) → reads.now.clock ≡ counter_at k
            → result.envelope ≡ envelope_from self.now.envelope reads.now.regs (k + at) n }
        ensures within { result.level ≤ 0x7ff }
        ensures level { (k : ℕ) → reads.now.clock ≡ counter_at k
            → result.level ≡ level_in self.now.envelope reads.now.regs (k + at) (n - 1) }
    {
        let regs = &reads.regs;
        let mut envelope = self.envelope;
        let clock = clock_in(reads, at);
        let samples_until_change = envelope.samples_until_change(
            regs.adsr1, regs.adsr2, regs.gain, &clock,
        );
        if u16::from(n) <= samples_until_change {
            self.sound_at_level(outs, rows, at, n, row, reads);
            return Sounded {
                envelope,
                level: envelope.level(),
            };
        }
        put_levels(&mut rows.levels, at, n, &mut envelope, reads);
        let level = rows.levels[usize::from(at + n) - 1];
        self.sound_by_levels(outs, rows, at, n, row, reads);
        Sounded { envelope, level }
    }
}

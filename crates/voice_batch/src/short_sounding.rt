//! The outputs of a span of samples by products of 16 bits, eight at a time, where each weight of the table is from 0 to 2,047.

ghost use Rattle.std.specs.Prelude.{◌≡◌, ◌≢◌, ◌<◌, ◌≤◌, ◌+◌, ◌*◌, ◌%◌, ℕ, List, ℤ, pos, nat_le, slice_index};
ghost use Rattle.num_fix.specs.Arithmetic.{scaled};
ghost use Rattle.num_fix.specs.SignedWords.{number_at};
ghost use Rattle.gauss_table.specs.Factors.{AreFactors, factor_of};
ghost use Rattle.gauss_table.specs.Interpolation.{mix_of};
ghost use Rattle.voice_batch.specs.SpanPhases.{AreSpanPhases, phase_at};
ghost use Rattle.voice_unit.specs.Voice.{interpolation};
ghost use Rattle.voice_batch.specs.OutsOverRow.{AreFactorsOfLevel, short_mixed_at, sounding_at};

use crate::levels::LEVELS;
use crate::row::ROW_SIZE;
use crate::sounding::PHASE_END;
use crate::span_phases::{PHASES, SpanPhases};
use gauss_table::{
    Factors, Products, ShortTaps, factor_of, product_by_factor, product_by_high_factor,
    product_by_low_factor,
};
use num_fix::{BATCH_SIZE, clear_bit0};

/// How many samples are put at a level at once.
pub(crate) const AT_ONCE: usize = 8;

/// The last sample of a batch with which so many can begin.
pub(crate) const LAST_OF_EIGHT: u8 = (BATCH_SIZE - AT_ONCE) as u8;

/// Half of the level that would be a whole.
pub(crate) const HALF_LEVEL: u16 = 0x400;

/// What four samples give at a phase of a row of kept samples, in 65,536ths of a sample.
#[tactic(auto, unfolding(voice_unit::specs::Voice::interpolation))]
fn products_at(row: &[i16; ROW_SIZE], phase: u32, factors: &[Factors; 256]) -> Products
    requires { phase < PHASE_END }
    ensures { (table : List ℤ) (place : ℕ) → AreFactors table factors.now → phase ≡ 0x10 * place
        → mix_of result.oldest result.older result.newer result.newest ≡ interpolation table row.now place }
{
    let m = (phase / 0x10000) as usize;
    let i = (phase / 0x100 % 0x100) as u8;
    Products::at(factors, i, row[m], row[m + 1], row[m + 2], row[m + 3])
}

/// Puts what four samples give into a row.
fn put_products(taps: &mut [ShortTaps; BATCH_SIZE], j: usize, products: &Products)
    requires { j < BATCH_SIZE }
    ensures here { short_mixed_at taps.new j ≡ mix_of products.now.oldest products.now.older products.now.newer products.now.newest }
    ensures others { (i : ℕ) → i ≢ j → short_mixed_at taps.new i ≡ short_mixed_at taps.old i }
{
    taps[j].put(products);
}

/// Puts the taps of two samples, which stand at these phases. Two have eight products, which are made at once.
/// Inlined, so that the loops over it keep their numbers in registers.
#[inline(always)]
fn put_two(
    taps: &mut [ShortTaps; BATCH_SIZE],
    j: usize,
    row: &[i16; ROW_SIZE],
    phase: u32,
    next: u32,
    factors: &[Factors; 256],
)
    requires few { j + 2 ≤ BATCH_SIZE }
    requires phase { phase < PHASE_END }
    requires next { next < PHASE_END }
    ensures first { (table : List ℤ) (place : ℕ) → AreFactors table factors.now → phase ≡ 0x10 * place
        → short_mixed_at taps.new j ≡ interpolation table row.now place }
    ensures second { (table : List ℤ) (place : ℕ) → AreFactors table factors.now → next ≡ 0x10 * place
        → short_mixed_at taps.new (j + 1) ≡ interpolation table row.now place }
    ensures before { (i : ℕ) → i < j → short_mixed_at taps.new i ≡ short_mixed_at taps.old i }
{
    let first = products_at(row, phase, factors);
    let second = products_at(row, next, factors);
    put_products(taps, j, &first);
    put_products(taps, j + 1, &second);
}

/// The taps of n samples, from a position in a row on, four at a time. Out of line, so that its loop keeps its numbers in registers.
#[inline(never)]
fn take_short_taps(
    taps: &mut [ShortTaps; BATCH_SIZE],
    n: u8,
    row: &[i16; ROW_SIZE],
    factors: &[Factors; 256],
    position: u16,
    pitch: u16,
)
    requires few { n ≤ BATCH_SIZE }
    requires position { position < 0x8000 }
    requires pitch { pitch < 0x4000 }
    ensures { (table : List ℤ) → AreFactors table factors.now → (j : ℕ) → j < n
        → short_mixed_at taps.new j ≡ interpolation table row.now (position + j * pitch) }
{
    let step = 0x10 * u32::from(pitch);
    let mut phase = 0x10 * u32::from(position);
    for c in 0..(usize::from(n) + 3) / 4 {
        put_two(taps, 4 * c, row, phase, phase + step, factors);
        put_two(
            taps,
            4 * c + 2,
            row,
            phase + 2 * step,
            phase + 3 * step,
            factors,
        );
        phase += 4 * step;
    }
}

/// The taps of n samples that stand so far in a row, each at its own phase, two at a time: of an odd number the sample after the last has its own too.
fn take_short_modulated_taps(
    taps: &mut [ShortTaps; BATCH_SIZE],
    n: u8,
    row: &[i16; ROW_SIZE],
    factors: &[Factors; 256],
    phases: &[u32; PHASES],
)
    requires few { n ≤ BATCH_SIZE }
    requires within { (j : ℕ) → j ≤ n → 0x10 * slice_index phases.now j < PHASE_END }
    ensures { (table : List ℤ) → AreFactors table factors.now → (j : ℕ) → j < n
        → short_mixed_at taps.new j ≡ interpolation table row.now (slice_index phases.now j) }
{
    for c in 0..(usize::from(n) + 1) / 2 {
        let j = 2 * c;
        put_two(
            taps,
            j,
            row,
            0x10 * phases[j],
            0x10 * phases[j + 1],
            factors,
        );
    }
}

/// The taps of n samples of a span.
#[tactic(auto, unfolding(crate::specs::SpanPhases::phase_at))]
pub(crate) fn take_short_span_taps(
    taps: &mut [ShortTaps; BATCH_SIZE],
    n: u8,
    row: &[i16; ROW_SIZE],
    factors: &[Factors; 256],
    span_phases: &SpanPhases,
)
    requires few { n ≤ BATCH_SIZE }
    requires span_phases { AreSpanPhases span_phases.now n }
    ensures { (table : List ℤ) → AreFactors table factors.now → (j : ℕ) → j < n
        → short_mixed_at taps.new j ≡ interpolation table row.now (phase_at span_phases.now j) }
{
    if span_phases.modulated {
        take_short_modulated_taps(taps, n, row, factors, span_phases.phases);
        return;
    }
    take_short_taps(
        taps,
        n,
        row,
        factors,
        span_phases.position,
        span_phases.pitch,
    );
}

/// The factor of a level eight times, so that 16-bit numbers meet 16-bit numbers.
pub(crate) fn factors_of_level(level: u16) -> [i16; AT_ONCE]
    requires { level ≤ 0x7ff }
    ensures { AreFactorsOfLevel level result }
{
    let factor = factor_of(level as i16);
    [factor; AT_ONCE]
}

/// A sample at a level by the level's factor. From half the greatest level on the factor has wrapped.
fn product_at_level(factor: i16, wrapped: bool, sample: i16) -> i16
    ensures { (level : ℕ) → level ≤ 0x7ff → factor ≡ factor_of (pos level) → wrapped ≡ nat_le HALF_LEVEL level
        → result ≡ scaled (pos level) sample 11 }
{
    if wrapped {
        product_by_high_factor(factor, sample)
    } else {
        product_by_low_factor(factor, sample)
    }
}

/// The outputs of eight samples from one on, at the level of eight factors.
fn eight_at_level(
    taps: &[ShortTaps; BATCH_SIZE],
    from: usize,
    factors: &[i16; AT_ONCE],
    wrapped: bool,
) -> [i16; AT_ONCE]
    requires { from + AT_ONCE ≤ BATCH_SIZE }
    ensures { (level : ℕ) → level ≤ 0x7ff → AreFactorsOfLevel level factors.now → wrapped ≡ nat_le HALF_LEVEL level → (k : ℕ) → k < AT_ONCE
        → number_at result k ≡ sounding_at level (short_mixed_at taps.now (from + k)) }
{
    let mut eight = [0; AT_ONCE];
    for k in 0..AT_ONCE {
        let product = product_at_level(factors[k], wrapped, taps[from + k].mixed());
        eight[k] = clear_bit0(product);
    }
    eight
}

/// Puts eight outputs from a place on.
fn put_eight(outs: &mut [i16; BATCH_SIZE], at: usize, eight: &[i16; AT_ONCE])
    requires { at + AT_ONCE ≤ BATCH_SIZE }
    ensures outs { (k : ℕ) → k < AT_ONCE → number_at outs.new (at + k) ≡ number_at eight.now k }
    ensures before { (i : ℕ) → i < at → number_at outs.new i ≡ number_at outs.old i }
{
    for k in 0..AT_ONCE {
        outs[at + k] = eight[k];
    }
}

/// The outputs of n samples at the level of eight factors, eight at a time: where fewer are left, some after them are written too, and where the row
/// ends, some of those before them are made again.
#[inline(never)]
pub(crate) fn put_short(
    outs: &mut [i16; BATCH_SIZE],
    at: u8,
    n: u8,
    taps: &[ShortTaps; BATCH_SIZE],
    factors: &[i16; AT_ONCE],
    wrapped: bool,
)
    requires few { at + n ≤ BATCH_SIZE }
    requires early { at ≤ LAST_OF_EIGHT }
    ensures outs { (level : ℕ) → level ≤ 0x7ff → AreFactorsOfLevel level factors.now → wrapped ≡ nat_le HALF_LEVEL level → (j : ℕ) → j < n
        → number_at outs.new (at + j) ≡ sounding_at level (short_mixed_at taps.now j) }
    ensures before { (i : ℕ) → i < at → number_at outs.new i ≡ number_at outs.old i }
{
    let begin = usize::from(at);
    let last = usize::from(LAST_OF_EIGHT - at);
    for c in 0..(usize::from(n) + AT_ONCE - 1) / AT_ONCE {
        let from = (AT_ONCE * c).min(last);
        let eight = eight_at_level(taps, from, factors, wrapped);
        put_eight(outs, begin + from, &eight);
    }
}

/// The outputs of eight samples from one on, each at its own level. After the levels of a span any numbers may stand in the row, which are brought down
/// to levels.
fn eight_by_levels(
    taps: &[ShortTaps; BATCH_SIZE],
    from: usize,
    levels: &[u16; BATCH_SIZE],
    at: usize,
) -> [i16; AT_ONCE]
    requires from { from + AT_ONCE ≤ BATCH_SIZE }
    requires at { at + AT_ONCE ≤ BATCH_SIZE }
    ensures { (k : ℕ) → k < AT_ONCE
        → number_at result k ≡ sounding_at (slice_index levels.now (at + k) % LEVELS) (short_mixed_at taps.now (from + k)) }
{
    let mut eight = [0; AT_ONCE];
    for k in 0..AT_ONCE {
        let level = (levels[at + k] % LEVELS) as i16;
        let product = product_by_factor(factor_of(level), taps[from + k].mixed());
        eight[k] = clear_bit0(product);
    }
    eight
}

/// The outputs of n samples, each at its own level, eight at a time: what is written besides is as where they have one level.
#[inline(never)]
pub(crate) fn put_short_by_levels(
    outs: &mut [i16; BATCH_SIZE],
    at: u8,
    n: u8,
    taps: &[ShortTaps; BATCH_SIZE],
    levels: &[u16; BATCH_SIZE],
)
    requires few { at + n ≤ BATCH_SIZE }
    requires early { at ≤ LAST_OF_EIGHT }
    ensures outs { (j : ℕ) → j < n
        → number_at outs.new (at + j) ≡ sounding_at (slice_index levels.now (at + j) % LEVELS) (short_mixed_at taps.now j) }
    ensures before { (i : ℕ) → i < at → number_at outs.new i ≡ number_at outs.old i }
{
    let begin = usize::from(at);
    let last = usize::from(LAST_OF_EIGHT - at);
    for c in 0..(usize::from(n) + AT_ONCE - 1) / AT_ONCE {
        let from = (AT_ONCE * c).min(last);
        let eight = eight_by_levels(taps, from, levels, begin + from);
        put_eight(outs, begin + from, &eight);
    }
}

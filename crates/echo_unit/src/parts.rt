//! Rows of samples at coefficients and volumes. Each is one multiplication of 16-bit numbers or two, so that eight samples are made at once.

ghost use Rattle.std.specs.Prelude.{◌≡◌, ◌≤◌, ◌<◌, ◌+◌, ℕ, ℤ, pos, ◌+ℤ◌, ◌*ℤ◌, length, unsigned_abs};
ghost use Rattle.num_fix.specs.Arithmetic.{scaled, wrap16};
ghost use Rattle.num_fix.specs.SignedWords.{number_at};
ghost use Rattle.echo_unit.specs.Parts.{by_parts};

use crate::wrapped::{high_product, wrapped_product, wrapped_sum};
use num_fix::BATCH_SIZE;

/// A number as the nearest whole one, and what it has beyond that in 65,536ths.
#[derive(Clone, Copy)]
pub struct Parts {
    pub whole: i16,
    pub part: i16,
}

/// The parts of a coefficient over 64.
pub fn over_64(coefficient: i16) -> Parts
    requires { unsigned_abs coefficient ≤ 128 }
    ensures { (sample : ℤ) → by_parts sample result ≡ scaled sample coefficient 6 }
{
    let whole = (coefficient + 32) >> 6;
    let part = (coefficient - 64 * whole) * 1024;
    Parts { whole, part }
}

/// The parts of a volume over 128.
pub fn over_128(volume: i16) -> Parts
    requires { unsigned_abs volume ≤ 128 }
    ensures { (sample : ℤ) → by_parts sample result ≡ scaled sample volume 7 }
{
    let whole = (volume + 64) >> 7;
    let part = (volume - 128 * whole) * 512;
    Parts { whole, part }
}

/// A factor for each sample, so that 16-bit numbers meet 16-bit numbers.
fn row_of(factor: i16) -> [i16; BATCH_SIZE]
    ensures { (j : ℕ) → j < BATCH_SIZE → number_at result j ≡ factor }
{
    [factor; BATCH_SIZE]
}

/// Adds samples of a row, from a place on, times so many 65,536ths.
#[inline(always)]
fn add_part(sums: &mut [i16; BATCH_SIZE], row: &[i16], place: usize, part: i16)
    requires { place + BATCH_SIZE ≤ length row.now }
    ensures { (j : ℕ) → j < BATCH_SIZE
        → number_at sums.new j ≡ wrap16 (number_at sums.old j +ℤ scaled (number_at row.now (place + j)) part 16) }
{
    let parts = row_of(part);
    for j in 0..BATCH_SIZE {
        sums[j] = wrapped_sum(sums[j], high_product(row[place + j], parts[j]));
    }
}

/// Adds samples of a row, from a place on, times a whole number.
#[inline(always)]
fn add_whole(sums: &mut [i16; BATCH_SIZE], row: &[i16], place: usize, whole: i16)
    requires { place + BATCH_SIZE ≤ length row.now }
    ensures { (j : ℕ) → j < BATCH_SIZE → number_at sums.new j ≡ wrap16 (number_at sums.old j +ℤ number_at row.now (place + j) *ℤ whole) }
{
    let wholes = row_of(whole);
    for j in 0..BATCH_SIZE {
        sums[j] = wrapped_sum(sums[j], wrapped_product(row[place + j], wholes[j]));
    }
}

/// Adds samples of a row, from a place on, times a number that has these parts. The sums wrap in 16 bits. Inlined, since only there the rows are known to
/// lie apart.
#[inline(always)]
pub fn add_row(sums: &mut [i16; BATCH_SIZE], row: &[i16], place: usize, by: Parts)
    requires { place + BATCH_SIZE ≤ length row.now }
    ensures { (j : ℕ) (sum : ℤ) → j < BATCH_SIZE → number_at sums.old j ≡ wrap16 sum
        → number_at sums.new j ≡ wrap16 (sum +ℤ by_parts (number_at row.now (place + j)) by) }
{
    add_part(sums, row, place, by.part);
    if by.whole != 0 {
        add_whole(sums, row, place, by.whole);
    }
}

//! The weights of a place as factors of 16 bits.

ghost use Rattle.std.specs.Prelude.{◌≡◌, ◌<◌, ◌≤ℤ◌, ◌<ℤ◌, ◌↔◌, ℕ, ℤ, pos, Some, IsTrue, slice_get};
ghost use Rattle.num_fix.specs.Arithmetic.{scaled};
ghost use Rattle.gauss_table.specs.Factors.{AreFractions, IsFraction, factor_of, factors_at};

use num_fix::{scaled, wrap16};

/// The four weights of a place as factors of 16 bits: each weight is from 0 to 2,047, and its factor is the weight in 65,536ths, so that the high word of
/// its product with a sample is what the sample gives. From 1,024 on a factor has wrapped, and stands for one whole more than it says.
#[derive(Clone, Copy)]
pub struct Factors {
    /// The factor of the oldest sample.
    pub oldest: i16,
    /// The factor of the sample before the place.
    pub older: i16,
    /// The factor of the sample after the place.
    pub newer: i16,
    /// The factor of the newest sample.
    pub newest: i16,
}

/// The factor of a weight.
pub fn factor_of(weight: i16) -> i16
    ensures { result ≡ factor_of weight }
{
    wrap16(i32::from(weight) * 32)
}

/// What a sample gives under a weight whose factor isn't negative: one multiplication of 16-bit numbers.
pub fn product_by_low_factor(factor: i16, sample: i16) -> i16
    ensures { (weight : ℤ) → IsFraction weight → factor ≡ factor_of weight → pos 0 ≤ℤ factor → result ≡ scaled weight sample 11 }
{
    scaled(sample, factor, 16) as i16
}

/// What a sample gives under a weight whose factor wrapped, and is negative: the same, and the sample itself.
pub fn product_by_high_factor(factor: i16, sample: i16) -> i16
    ensures { (weight : ℤ) → IsFraction weight → factor ≡ factor_of weight → factor <ℤ pos 0 → result ≡ scaled weight sample 11 }
{
    let high = scaled(sample, factor, 16) as i16;
    high.wrapping_add(sample)
}

/// What a sample gives under a weight from 0 to 2,047, by its factor. The product is made before it is asked whether the factor wrapped, so that eight are
/// made at once.
pub fn product_by_factor(factor: i16, sample: i16) -> i16
    ensures { (weight : ℤ) → IsFraction weight → factor ≡ factor_of weight → result ≡ scaled weight sample 11 }
{
    let high = scaled(sample, factor, 16) as i16;
    if factor < 0 {
        high.wrapping_add(sample)
    } else {
        high
    }
}

/// The factors of place `i` of 256.
fn factors_at(weights: &[i16; 512], i: u8) -> Factors
    ensures { result ≡ factors_at weights.now i }
{
    let place = usize::from(i);
    Factors {
        oldest: factor_of(weights[255 - place]),
        older: factor_of(weights[511 - place]),
        newer: factor_of(weights[256 + place]),
        newest: factor_of(weights[place]),
    }
}

/// Whether each weight is from 0 to 2,047.
pub(crate) fn are_fractions(weights: &[i16; 512]) -> bool
    ensures { IsTrue result ↔ AreFractions weights.now }
{
    weights.iter().all(|weight| 0 <= *weight && *weight < 2048)
}

/// The factors of all places.
pub(crate) fn factors_of(weights: &[i16; 512]) -> [Factors; 256]
    ensures { (i : ℕ) → i < 256 → slice_get result i ≡ Some (factors_at weights.now i) }
{
    let mut factors = [factors_at(weights, 0); 256];
    for i in 0..256u16 {
        factors[usize::from(i)] = factors_at(weights, i as u8);
    }
    factors
}

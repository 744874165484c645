//! What four samples give under their weights, and the interpolation that comes of it.

ghost use Rattle.std.specs.Prelude.{◌≡◌, ◌≤◌, List, ℤ, ◌+ℤ◌, unsigned_abs};
ghost use Rattle.num_fix.specs.Arithmetic.{wrap16};
ghost use Rattle.gauss_table.specs.Interpolation.{mix, mix_of, tap};
ghost use Rattle.gauss_table.specs.Quads.{AreQuads};
ghost use Rattle.gauss_table.specs.TapBounds.{AreSmall, max_tap};

use crate::quad::Quad;
use num_fix::{clamp16, clear_bit0, scaled, wrap16};

/// What four samples give, oldest first: the product of each with its weight, over 2,048 and rounded down. None is above 80000h or
/// below its negative.
#[derive(Clone, Copy)]
pub struct Taps {
    /// What the oldest sample gives.
    pub oldest: i32,
    /// What the sample before the place gives.
    pub older: i32,
    /// What the sample after the place gives.
    pub newer: i32,
    /// What the newest sample gives.
    pub newest: i32,
    ghost are_small: { AreSmall oldest older newer newest },
}

/// What one sample gives under its weight.
fn tap(weight: i16, sample: i16) -> i32
    ensures value { result ≡ tap weight sample }
    ensures bound { unsigned_abs result ≤ max_tap }
{
    scaled(weight, sample, 11)
}

impl Taps {
    /// What four samples, oldest first, give under the weights of place `i` of 256 between the middle two.
    #[tactic(auto, unfolding(crate::specs::Interpolation::mix))]
    pub fn at(quads: &[Quad; 256], i: u8, x0: i16, x1: i16, x2: i16, x3: i16) -> Taps
        ensures { (table : List ℤ) → AreQuads table quads.now → mix_of result.oldest result.older result.newer result.newest ≡ mix table i x0 x1 x2 x3 }
    {
        Taps::new(&quads[usize::from(i)], x0, x1, x2, x3)
    }

    /// What four samples give, oldest first, each under its weight.
    fn new(weights: &Quad, x0: i16, x1: i16, x2: i16, x3: i16) -> Taps
        ensures oldest { result.oldest ≡ tap weights.now.oldest x0 }
        ensures older { result.older ≡ tap weights.now.older x1 }
        ensures newer { result.newer ≡ tap weights.now.newer x2 }
        ensures newest { result.newest ≡ tap weights.now.newest x3 }
    {
        Taps {
            oldest: tap(weights.oldest, x0),
            older: tap(weights.older, x1),
            newer: tap(weights.newer, x2),
            newest: tap(weights.newest, x3),
        }
    }

    /// The sum of the three older taps.
    fn older_sum(&self) -> i32
        ensures { result ≡ self.now.oldest +ℤ self.now.older +ℤ self.now.newer }
    {
        self.oldest + self.older + self.newer
    }

    /// That sum at 16 bits, where it wraps.
    fn wrapped(&self) -> i16
        ensures { result ≡ wrap16 (self.now.oldest +ℤ self.now.older +ℤ self.now.newer) }
    {
        wrap16(self.older_sum())
    }

    /// The interpolation: the sum of the older taps, which wraps, with the newest is clamped.
    pub fn mixed(&self) -> i16
        ensures { result ≡ mix_of self.now.oldest self.now.older self.now.newer self.now.newest }
    {
        clear_bit0(clamp16(i32::from(self.wrapped()) + self.newest))
    }
}

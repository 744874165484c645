//! What four samples give under weights from 0 to 2,047, in 16 bits each, and the interpolation that comes of it.

ghost use Rattle.std.specs.Prelude.{◌≡◌, ◌<◌, ◌≤◌, ◌+◌, ◌*◌, ◌/◌, ◌%◌, ℕ, List, ℤ, pos};
ghost use Rattle.std.specs.Int.{w16, cast_signed, cast_unsigned};
ghost use Rattle.gauss_table.specs.Factors.{AreFactors};
ghost use Rattle.gauss_table.specs.Interpolation.{mix, mix_of};
ghost use Rattle.gauss_table.specs.ShortTaps.{bits_of_tap, short_mix, short_tap};

use crate::factors::{Factors, product_by_factor};
use num_fix::{add_clamped, clear_bit0};

/// What four samples give under weights from 0 to 2,047, oldest first: the product of each with its weight, over 2,048 and rounded down.
#[derive(Clone, Copy)]
pub struct Products {
    /// What the oldest sample gives.
    pub oldest: i16,
    /// What the sample before the place gives.
    pub older: i16,
    /// What the sample after the place gives.
    pub newer: i16,
    /// What the newest sample gives.
    pub newest: i16,
}

/// Four products as two bytes each, oldest first, the low byte first. As bytes they are read two by two, as numbers of 32 bits, by which a row of taps is
/// summed.
#[derive(Clone, Copy)]
pub struct ShortTaps {
    bytes: [u8; 8],
}

/// The low byte of a number.
fn low_byte(number: i16) -> u8
    ensures { result ≡ cast_unsigned w16 number % 0x100 }
{
    (number.cast_unsigned() % 0x100) as u8
}

/// The high byte of a number.
fn top_byte(number: i16) -> u8
    ensures { result ≡ cast_unsigned w16 number / 0x100 }
{
    (number.cast_unsigned() / 0x100) as u8
}

/// The low half of a number of 32 bits.
fn low_half(pair: u32) -> i16
    ensures { result ≡ cast_signed w16 (pair % 0x10000) }
{
    ((pair % 0x10000) as u16).cast_signed()
}

/// The high half of a number of 32 bits.
fn high_half(pair: u32) -> i16
    ensures { result ≡ cast_signed w16 (pair / 0x10000) }
{
    ((pair / 0x10000) as u16).cast_signed()
}

impl Products {
    /// The products of four samples, oldest first, with the factors of place `i` of 256 between the middle two. They are out of line, so
    /// that those of two samples are made at once.
    #[tactic(auto, unfolding(crate::specs::Interpolation::mix))]
    pub fn at(factors: &[Factors; 256], i: u8, x0: i16, x1: i16, x2: i16, x3: i16) -> Products
        ensures { (table : List ℤ) → AreFactors table factors.now
            → mix_of result.oldest result.older result.newer result.newest ≡ mix table i x0 x1 x2 x3 }
    {
        let by = &factors[usize::from(i)];
        Products {
            oldest: product_by_factor(by.oldest, x0),
            older: product_by_factor(by.older, x1),
            newer: product_by_factor(by.newer, x2),
            newest: product_by_factor(by.newest, x3),
        }
    }
}

impl ShortTaps {
    /// The taps of silence.
    pub fn silent() -> ShortTaps
        ensures { (k : ℕ) → k < 4 → short_tap result k ≡ pos 0 }
    {
        ShortTaps { bytes: [0; 8] }
    }

    /// Puts four products in place of what was there. They are written where they are to stand, byte by byte, so that eight products of two samples are
    /// stored at once.
    pub fn put(&mut self, products: &Products)
        ensures { short_mix self.new ≡ mix_of products.now.oldest products.now.older products.now.newer products.now.newest }
    {
        self.bytes[0] = low_byte(products.oldest);
        self.bytes[1] = top_byte(products.oldest);
        self.bytes[2] = low_byte(products.older);
        self.bytes[3] = top_byte(products.older);
        self.bytes[4] = low_byte(products.newer);
        self.bytes[5] = top_byte(products.newer);
        self.bytes[6] = low_byte(products.newest);
        self.bytes[7] = top_byte(products.newest);
    }

    /// Two taps as one number of 32 bits, tap `k` in its low half.
    fn pair(&self, k: usize) -> u32
        requires { k ≤ 2 }
        ensures value { result ≡ bits_of_tap self.now k + 0x10000 * bits_of_tap self.now (k + 1) }
        ensures low { bits_of_tap self.now k < 0x10000 }
        ensures high { bits_of_tap self.now (k + 1) < 0x10000 }
    {
        let at = 2 * k;
        u32::from(self.bytes[at])
            + 0x100 * u32::from(self.bytes[at + 1])
            + 0x10000 * u32::from(self.bytes[at + 2])
            + 0x1000000 * u32::from(self.bytes[at + 3])
    }

    /// The interpolation: the sum of the older taps, which wraps, with the newest is clamped.
    pub fn mixed(&self) -> i16
        ensures { result ≡ short_mix self.now }
    {
        let first = self.pair(0);
        let second = self.pair(2);
        let sum = first.wrapping_add(first / 0x10000).wrapping_add(second);
        clear_bit0(add_clamped(low_half(sum), high_half(second)))
    }
}

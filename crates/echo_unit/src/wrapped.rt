//! Sums and products of 16-bit numbers, in 16 bits, so that eight are made at once.

ghost use Rattle.std.specs.Prelude.{◌≡◌, ◌+ℤ◌, ◌*ℤ◌};
ghost use Rattle.num_fix.specs.Arithmetic.{scaled, wrap16};

use num_fix::scaled;

/// A sum, wrapped in 16 bits.
pub fn wrapped_sum(a: i16, b: i16) -> i16
    ensures { result ≡ wrap16 (a +ℤ b) }
{
    a.wrapping_add(b)
}

/// A product, wrapped in 16 bits.
pub fn wrapped_product(a: i16, b: i16) -> i16
    ensures { result ≡ wrap16 (a *ℤ b) }
{
    a.wrapping_mul(b)
}

/// The high word of a product.
pub fn high_product(a: i16, b: i16) -> i16
    ensures { result ≡ scaled a b 16 }
{
    scaled(a, b, 16) as i16
}

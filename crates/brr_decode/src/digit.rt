// The sample that is kept of one digit. It is inlined into the group, where the filter is a constant.
ghost use Rattle.std.specs.Prelude.{◌≡◌, ◌<◌, ◌≤◌, ◌^◌, ◌+ℤ◌, ◌-ℤ◌, ◌*ℤ◌, neg_ℤ, pos, unsigned_abs};
ghost use Rattle.num_fix.specs.Arithmetic.{clamp16, scaled, wrap16};
ghost use Rattle.brr_decode.specs.Header.{filter_of, has_end, has_loop, shift_of};
ghost use Rattle.brr_decode.specs.Kept.{shifted_digit, prediction, kept_sample};

use num_fix::{clamp16, half, has_bit, scaled, wrap16};

/// The shift that a header names.
pub fn shift_of(header: u8) -> u8
    ensures { result ≡ shift_of header }
{
    header / 16
}

/// The filter that a header names.
pub fn filter_of(header: u8) -> u8
    ensures { result ≡ filter_of header }
{
    header / 4 % 4
}

/// Whether a header has its end bit: its block is the last of its sample.
pub fn has_end(header: u8) -> bool
    ensures { result ≡ has_end header }
{
    has_bit(header, 0)
}

/// Whether a header has its loop bit: where its block is the last one, it doesn't silence the voice.
pub fn has_loop(header: u8) -> bool
    ensures { result ≡ has_loop header }
{
    has_bit(header, 1)
}

/// 2 to the `shift`.
fn power_of_two(shift: u8) -> i16
    requires { shift ≤ 12 }
    ensures { result ≡ pos (2 ^ shift) }
{
    1 << shift
}

/// A digit under the shift of its block.
#[tactic(auto, unfolding(crate::specs::Kept::shifted_digit))]
#[inline(always)]
pub fn shifted_digit(shift: u8, digit: i16) -> i32
    ensures value { result ≡ shifted_digit shift digit }
    ensures bound { unsigned_abs result ≤ 2 ^ 29 }
{
    if shift <= 12 {
        scaled(digit, power_of_two(shift), 1)
    } else if digit < 0 {
        -2048
    } else {
        0
    }
}

/// What filter 1 adds.
fn first_prediction(p1: i16) -> i32
    ensures value { result ≡ scaled p1 (pos 1) 1 +ℤ scaled p1 (neg_ℤ (pos 1)) 5 }
    ensures bound { unsigned_abs result ≤ 2 ^ 30 }
{
    scaled(p1, 1, 1) + scaled(p1, -1, 5)
}

/// What filter 2 adds to the straight line through the last two samples.
fn second_damping(q: i16, p1: i16) -> i32
    ensures value { result ≡ scaled q (pos 1) 4 +ℤ scaled p1 (neg_ℤ (pos 3)) 6 }
    ensures bound { unsigned_abs result ≤ 2 ^ 27 }
{
    scaled(q, 1, 4) + scaled(p1, -3, 6)
}

/// The same of filter 3.
fn third_damping(q: i16, p1: i16) -> i32
    ensures value { result ≡ scaled q (pos 3) 4 +ℤ scaled p1 (neg_ℤ (pos 13)) 7 }
    ensures bound { unsigned_abs result ≤ 2 ^ 27 }
{
    scaled(q, 3, 4) + scaled(p1, -13, 7)
}

/// How far `p1` lies above `q`.
fn rise(p1: i16, q: i16) -> i32
    ensures { result ≡ p1 -ℤ q }
{
    i32::from(p1) - i32::from(q)
}

/// What filter 2 adds, by half of the sample before the last.
fn second_prediction(q: i16, p1: i16) -> i32
    ensures value { result ≡ (p1 -ℤ q) +ℤ (scaled q (pos 1) 4 +ℤ scaled p1 (neg_ℤ (pos 3)) 6) }
    ensures bound { unsigned_abs result ≤ 2 ^ 28 }
{
    rise(p1, q) + second_damping(q, p1)
}

/// What filter 3 adds, by half of the sample before the last.
fn third_prediction(q: i16, p1: i16) -> i32
    ensures value { result ≡ (p1 -ℤ q) +ℤ (scaled q (pos 3) 4 +ℤ scaled p1 (neg_ℤ (pos 13)) 7) }
    ensures bound { unsigned_abs result ≤ 2 ^ 28 }
{
    rise(p1, q) + third_damping(q, p1)
}

/// What a filter adds to a shifted digit.
#[tactic(auto, unfolding(crate::specs::Kept::prediction))]
#[inline(always)]
fn prediction(filter: u8, p1: i16, p2: i16) -> i32
    ensures value { result ≡ prediction filter p1 p2 }
    ensures bound { unsigned_abs result ≤ 2 ^ 30 }
{
    let q = half(p2);
    match filter {
        0 => 0,
        1 => first_prediction(p1),
        2 => second_prediction(q, p1),
        _ => third_prediction(q, p1),
    }
}

/// Twice a number, at 16 bits, where it wraps.
#[inline(always)]
fn doubled(number: i16) -> i16
    ensures { result ≡ wrap16 (pos 2 *ℤ number) }
{
    wrap16(2 * i32::from(number))
}

/// The sample that is kept of a shifted digit under a filter.
#[inline(always)]
pub fn filtered(filter: u8, shifted: i32, p1: i16, p2: i16) -> i16
    requires { unsigned_abs shifted ≤ 2 ^ 29 }
    ensures { result ≡ wrap16 (pos 2 *ℤ clamp16 (shifted +ℤ prediction filter p1 p2)) }
{
    doubled(clamp16(shifted + prediction(filter, p1, p2)))
}

/// The sample that is kept of a digit, −8 to 7, under the header of its block.
/// `p1` is the last kept sample and `p2` the kept sample before it.
#[tactic(auto, unfolding(crate::specs::Kept::kept_sample))]
pub fn kept_sample(header: u8, digit: i16, p1: i16, p2: i16) -> i16
    ensures { result ≡ kept_sample header digit p1 p2 }
{
    let shifted = shifted_digit(shift_of(header), digit);
    filtered(filter_of(header), shifted, p1, p2)
}

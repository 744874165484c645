// The FIR filter.
ghost use Rattle.std.specs.Prelude.{◌≡◌, ◌<◌, ◌≤◌, ◌+◌, map, length, slice_index};
ghost use Rattle.num_fix.specs.Arithmetic.{scaled, sign8, wrap16};
ghost use Rattle.num_fix.specs.SignedWords.{number_at};
ghost use Rattle.echo_unit.specs.Fir.{filtered_sample, eight_from};
ghost use Rattle.echo_unit.specs.Echo.{filtered_pair};

use crate::volume::signed;
use crate::wrapped::wrapped_sum;
use num_fix::{Frame, add_clamped, clear_bit0, scaled, wrap16};

/// One tap of the filter, over the samples of a row from a place on, in 16 bits.
fn tap(row: &[i16], place: usize, coefficients: &[u8; 8], i: usize) -> i16
    requires tap { i < 8 }
    requires row { place + 8 ≤ length row.now }
    ensures { result ≡ wrap16 (scaled (number_at row.now (place + i)) (sign8 (slice_index coefficients.now i)) 6) }
{
    wrap16(scaled(row[place + i], signed(coefficients[i]), 6))
}

/// The filter over the eight samples of a row from a place on.
#[tactic(auto, unfolding(crate::specs::Fir::filtered_sample))]
pub fn filtered_sample(row: &[i16], place: usize, coefficients: &[u8; 8]) -> i16
    requires { place + 8 ≤ length row.now }
    ensures { result ≡ filtered_sample (eight_from row.now place) coefficients.now }
{
    let mut sum = 0;
    for i in 0..7 {
        sum = wrapped_sum(sum, tap(row, place, coefficients, i));
    }
    clear_bit0(add_clamped(sum, tap(row, place, coefficients, 7)))
}

/// The left sample of a pair.
pub fn left_of(pair: &Frame) -> i16
    ensures { result ≡ pair.now.left }
{
    pair.left
}

/// The right sample of a pair.
pub fn right_of(pair: &Frame) -> i16
    ensures { result ≡ pair.now.right }
{
    pair.right
}

/// The left samples of eight pairs.
fn lefts(pairs: &[Frame; 8]) -> [i16; 8]
    ensures { result ≡ map (λ pair. pair.left) pairs.now }
{
    [
        left_of(&pairs[0]),
        left_of(&pairs[1]),
        left_of(&pairs[2]),
        left_of(&pairs[3]),
        left_of(&pairs[4]),
        left_of(&pairs[5]),
        left_of(&pairs[6]),
        left_of(&pairs[7]),
    ]
}

/// The right samples of eight pairs.
fn rights(pairs: &[Frame; 8]) -> [i16; 8]
    ensures { result ≡ map (λ pair. pair.right) pairs.now }
{
    [
        right_of(&pairs[0]),
        right_of(&pairs[1]),
        right_of(&pairs[2]),
        right_of(&pairs[3]),
        right_of(&pairs[4]),
        right_of(&pairs[5]),
        right_of(&pairs[6]),
        right_of(&pairs[7]),
    ]
}

/// The filter over eight pairs.
#[tactic(auto, unfolding(crate::specs::Echo::filtered_pair))]
pub fn filtered_pair(pairs: &[Frame; 8], coefficients: &[u8; 8]) -> Frame
    ensures { result ≡ filtered_pair pairs.now coefficients.now }
{
    Frame {
        left: filtered_sample(&lefts(pairs), 0, coefficients),
        right: filtered_sample(&rights(pairs), 0, coefficients),
    }
}

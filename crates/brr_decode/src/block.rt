// Groups of four digits, and blocks of sixteen. The filter and the shift of a group are distinguished once: all of a digit is inlined under them.
ghost use Rattle.std.specs.Prelude.{◌≡◌, ◌++◌, List, ℤ};
ghost use Rattle.num_fix.specs.Arithmetic.{sign4};
ghost use Rattle.brr_decode.specs.Header.{filter_of};
ghost use Rattle.brr_decode.specs.Kept.{EndsWith, with_group, with_all_kept, digits_of};

use crate::digit::{filter_of, filtered, shift_of, shifted_digit};
use num_fix::sign4;

/// The low digit of a byte.
fn digit(byte: u8) -> i16
    ensures { result ≡ sign4 byte }
{
    sign4(byte) as i16
}

/// Decodes a group under the filter of its header. Where the filter is a constant, the code is straight.
/// All four digits are shifted before the first sample is kept, so that one test of the shift is enough.
#[inline(always)]
pub(crate) fn group_under(filter: u8, header: u8, b0: u8, b1: u8, p1: i16, p2: i16) -> [i16; 4]
    requires { filter ≡ filter_of header }
    ensures { (samples : List ℤ) → EndsWith samples p2 p1 → with_group samples header b0 b1 ≡ samples ++ result }
{
    let shift = shift_of(header);
    let a = shifted_digit(shift, digit(b0 / 16));
    let b = shifted_digit(shift, digit(b0));
    let c = shifted_digit(shift, digit(b1 / 16));
    let d = shifted_digit(shift, digit(b1));
    let first = filtered(filter, a, p1, p2);
    let second = filtered(filter, b, first, p1);
    let third = filtered(filter, c, second, first);
    let fourth = filtered(filter, d, third, second);
    [first, second, third, fourth]
}

/// Decodes a group, the four digits of two bytes.
/// `p1` is the last kept sample and `p2` the kept sample before it.
pub fn decode_group(header: u8, b0: u8, b1: u8, p1: i16, p2: i16) -> [i16; 4]
    ensures { (samples : List ℤ) → EndsWith samples p2 p1 → with_group samples header b0 b1 ≡ samples ++ result }
{
    match filter_of(header) {
        0 => group_under(0, header, b0, b1, p1, p2),
        1 => group_under(1, header, b0, b1, p1, p2),
        2 => group_under(2, header, b0, b1, p1, p2),
        _ => group_under(3, header, b0, b1, p1, p2),
    }
}

/// Decodes a block: a header, and the sixteen digits of eight bytes.
/// `p1` is the last kept sample and `p2` the kept sample before it.
pub fn decode_block(block: &[u8; 9], p1: i16, p2: i16) -> [i16; 16]
    ensures { (samples : List ℤ) → EndsWith samples p2 p1 → with_all_kept samples (digits_of block.now) ≡ samples ++ result }
{
    let a = decode_group(block[0], block[1], block[2], p1, p2);
    let b = decode_group(block[0], block[3], block[4], a[3], a[2]);
    let c = decode_group(block[0], block[5], block[6], b[3], b[2]);
    let d = decode_group(block[0], block[7], block[8], c[3], c[2]);
    [
        a[0], a[1], a[2], a[3], b[0], b[1], b[2], b[3], c[0], c[1], c[2], c[3], d[0], d[1], d[2],
        d[3],
    ]
}

//! Sums, comparisons, products and quotients of words.
//!
//! Each operation is inlined into the arm of its opcode, where its kind is a constant.

ghost use Rattle.std.specs.Prelude.{◌≡◌, ◌≤◌};
ghost use Rattle.spc700_alu.specs.WordArithmetic.{word_sum, addw_of, subw_of, cmpw_of, mul_of, div_of};

use crate::Out16;
use crate::flags::{CARRY, HALF, OVERFLOW, put, put_nz, put_nz16};

/// The sum with a carry in of 0 or 1.
#[inline]
#[tactic(auto, unfolding(crate::specs::WordArithmetic::word_sum))]
fn add_words(a: u16, b: u16, carry: u16, psw: u8) -> Out16
    requires { carry ≤ 1 }
    ensures { result ≡ word_sum a b carry psw }
{
    let whole = a as u32 + b as u32 + carry as u32;
    let value = (whole % 0x10000) as u16;
    let same_sign = (a >= 0x8000) == (b >= 0x8000);
    let overflow = same_sign && (a >= 0x8000) != (value >= 0x8000);
    let psw = put(psw, CARRY, whole >= 0x10000);
    let psw = put(psw, HALF, a % 0x1000 + b % 0x1000 + carry >= 0x1000);
    let psw = put(psw, OVERFLOW, overflow);
    Out16 {
        value,
        psw: put_nz16(psw, value),
    }
}

/// ADDW: `ya` and `w`, without the carry.
#[inline]
pub fn addw(ya: u16, w: u16, psw: u8) -> Out16
    ensures { result ≡ addw_of ya w psw }
{
    add_words(ya, w, 0, psw)
}

/// SUBW: `ya` less `w`, without the carry.
#[inline]
pub fn subw(ya: u16, w: u16, psw: u8) -> Out16
    ensures { result ≡ subw_of ya w psw }
{
    add_words(ya, !w, 1, psw)
}

/// The status after CMPW of `ya` with `w`.
#[inline]
#[tactic(auto, unfolding(crate::specs::WordArithmetic::cmpw_of))]
pub fn cmpw(ya: u16, w: u16, psw: u8) -> u8
    ensures { result ≡ cmpw_of ya w psw }
{
    put_nz16(put(psw, CARRY, ya >= w), ya.wrapping_sub(w))
}

/// MUL: `y` times `a`.
#[inline]
#[tactic(auto, unfolding(crate::specs::WordArithmetic::mul_of))]
pub fn mul(y: u8, a: u8, psw: u8) -> Out16
    ensures { result ≡ mul_of y a psw }
{
    let value = y as u16 * a as u16;
    Out16 {
        value,
        psw: put_nz(psw, (value / 0x100) as u8),
    }
}

/// DIV: the low byte of the quotient of `ya` by `x` goes to A, the rest to Y. A quotient above 511, or a divisor of 0, has
/// the processor's own result.
#[tactic(auto, unfolding(crate::specs::WordArithmetic::div_of))]
pub fn div(ya: u16, x: u8, psw: u8) -> Out16
    ensures { result ≡ div_of ya x psw }
{
    let y = (ya / 0x100) as u8;
    let psw = put(psw, HALF, x % 0x10 <= y % 0x10);
    let psw = put(psw, OVERFLOW, x <= y);
    let x = x as u16;
    if (y as u16) < 2 * x {
        let a = ya / x % 0x100;
        Out16 {
            value: 0x100 * (ya % x) + a,
            psw: put_nz(psw, a as u8),
        }
    } else {
        let rest = ya - 0x200 * x;
        let a = 0xff - rest / (0x100 - x);
        Out16 {
            value: 0x100 * (x + rest % (0x100 - x)) + a,
            psw: put_nz(psw, a as u8),
        }
    }
}

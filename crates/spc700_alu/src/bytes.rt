//! Sums, comparisons, logic and shifts of bytes.
//!
//! Each operation is inlined into the arm of its opcode, where its kind is a constant.

ghost use Rattle.std.specs.Prelude.{◌≡◌, ◌≤◌};
ghost use Rattle.spc700_alu.specs.Bytes.{byte_sum, adc_of, sbc_of, cmp_of, logic_of, shift_of, bump_of, nz_result};
ghost use Rattle.spc700_alu.specs.Flags.{C, with_flag};

use crate::Out8;
use crate::flags::{CARRY, HALF, OVERFLOW, carry, put, put_nz};

/// The logic operations.
#[derive(Clone, Copy)]
pub enum LogicKind {
    /// OR.
    Or,
    /// AND.
    And,
    /// EOR: exclusive or.
    Eor,
}

/// The shifts.
#[derive(Clone, Copy)]
pub enum ShiftKind {
    /// ASL: left, and 0 comes in.
    Asl,
    /// ROL: left, and C comes in.
    Rol,
    /// LSR: right, and 0 comes in.
    Lsr,
    /// ROR: right, and C comes in.
    Ror,
}

/// The sum with a carry in of 0 or 1.
#[inline]
#[tactic(auto, unfolding(crate::specs::Bytes::byte_sum))]
fn add_with_carry(a: u8, b: u8, carry: u8, psw: u8) -> Out8
    requires { carry ≤ 1 }
    ensures { result ≡ byte_sum a b carry psw }
{
    let whole = a as u16 + b as u16 + carry as u16;
    let value = (whole % 0x100) as u8;
    let out = (whole / 0x100) as u8;
    // In bit 4 a sum differs from its terms without carries where one comes in. It overflows where its sign is neither term's.
    let half = ((a ^ b ^ value) & 0x10) / 2;
    let overflow = ((a ^ value) & (b ^ value) & 0x80) / 2;
    let psw = psw & !(CARRY | HALF | OVERFLOW) | out | half | overflow;
    Out8 {
        value,
        psw: put_nz(psw, value),
    }
}

/// ADC: `a`, `b` and the carry.
#[inline]
pub fn adc(a: u8, b: u8, psw: u8) -> Out8
    ensures { result ≡ adc_of a b psw }
{
    add_with_carry(a, b, carry(psw), psw)
}

/// SBC: `a` less `b`, and less 1 where the carry is clear.
#[inline]
pub fn sbc(a: u8, b: u8, psw: u8) -> Out8
    ensures { result ≡ sbc_of a b psw }
{
    add_with_carry(a, !b, carry(psw), psw)
}

/// The status after CMP of `a` with `b`.
#[inline]
#[tactic(auto, unfolding(crate::specs::Bytes::cmp_of))]
pub fn cmp(a: u8, b: u8, psw: u8) -> u8
    ensures { result ≡ cmp_of a b psw }
{
    put_nz(put(psw, CARRY, a >= b), a.wrapping_sub(b))
}

/// OR, AND and EOR.
#[inline]
#[tactic(auto, unfolding(crate::specs::Bytes::logic_of))]
pub fn logic(kind: LogicKind, a: u8, b: u8, psw: u8) -> Out8
    ensures { result ≡ logic_of kind a b psw }
{
    let value = match kind {
        LogicKind::Or => a | b,
        LogicKind::And => a & b,
        LogicKind::Eor => a ^ b,
    };
    Out8 {
        value,
        psw: put_nz(psw, value),
    }
}

/// ASL, ROL, LSR and ROR.
#[inline]
#[tactic(auto, unfolding(crate::specs::Bytes::shift_of))]
pub fn shift(kind: ShiftKind, v: u8, psw: u8) -> Out8
    ensures { result ≡ shift_of kind v psw }
{
    match kind {
        ShiftKind::Asl => shift_result((v as u16 * 2 % 0x100) as u8, v >= 0x80, psw),
        ShiftKind::Rol => {
            shift_result((v as u16 * 2 % 0x100) as u8 + carry(psw), v >= 0x80, psw)
        }
        ShiftKind::Lsr => shift_result(v / 2, v % 2 == 1, psw),
        ShiftKind::Ror => shift_result(v / 2 + 0x80 * carry(psw), v % 2 == 1, psw),
    }
}

/// A shifted byte, with the bit that went out as the carry.
#[inline]
fn shift_result(value: u8, out: bool, psw: u8) -> Out8
    ensures { result ≡ nz_result value (with_flag C out psw) }
{
    Out8 {
        value,
        psw: put_nz(put(psw, CARRY, out), value),
    }
}

/// INC, or DEC where `up` is false.
#[inline]
#[tactic(auto, unfolding(crate::specs::Bytes::bump_of))]
pub fn bump(v: u8, up: bool, psw: u8) -> Out8
    ensures { result ≡ bump_of v up psw }
{
    let value = if up {
        v.wrapping_add(1)
    } else {
        v.wrapping_sub(1)
    };
    Out8 {
        value,
        psw: put_nz(psw, value),
    }
}

//! The operations on one bit of a byte and the carry.
//!
//! Each operation is inlined into the arm of its opcode, where its kind is a constant.

ghost use Rattle.std.specs.Prelude.{◌≡◌, ◌<◌};
ghost use Rattle.spc700_alu.specs.Bits.{bitop_of};
ghost use Rattle.spc700_alu.specs.Flags.{C, with_flag};

use crate::Out8;
use crate::flags::{CARRY, is_set, put};

/// The operations on a bit: the first six change the carry alone, the last four the byte alone.
#[derive(Clone, Copy)]
pub enum BitKind {
    /// C or the bit.
    Or,
    /// C or the bit's complement.
    OrNot,
    /// C and the bit.
    And,
    /// C and the bit's complement.
    AndNot,
    /// C exclusive or the bit.
    Eor,
    /// The bit goes to C.
    Load,
    /// C goes to the bit.
    Store,
    /// The bit is turned over.
    Not,
    /// The bit is set.
    Set,
    /// The bit is cleared.
    Clear,
}

/// OR1, AND1, EOR1, MOV1, NOT1, SET1 and CLR1 on the bit of that number.
#[inline]
#[tactic(auto, unfolding(crate::specs::Bits::bitop_of))]
pub fn bitop(kind: BitKind, byte: u8, bit: u8, psw: u8) -> Out8
    requires { bit < 8 }
    ensures { result ≡ bitop_of kind byte bit psw }
{
    let mask = 1u8 << bit;
    let carry = is_set(psw, CARRY);
    let on = is_set(byte, mask);
    match kind {
        BitKind::Or => carry_result(byte, psw, carry || on),
        BitKind::OrNot => carry_result(byte, psw, carry || !on),
        BitKind::And => carry_result(byte, psw, carry && on),
        BitKind::AndNot => carry_result(byte, psw, carry && !on),
        BitKind::Eor => carry_result(byte, psw, carry != on),
        BitKind::Load => carry_result(byte, psw, on),
        BitKind::Store => bit_result(put(byte, mask, carry), psw),
        BitKind::Not => bit_result(put(byte, mask, !on), psw),
        BitKind::Set => bit_result(put(byte, mask, true), psw),
        BitKind::Clear => bit_result(put(byte, mask, false), psw),
    }
}

/// The byte as it was, and a new carry.
#[inline]
fn carry_result(byte: u8, psw: u8, on: bool) -> Out8
    ensures { result ≡ record { value = byte; psw = with_flag C on psw } }
{
    Out8 {
        value: byte,
        psw: put(psw, CARRY, on),
    }
}

/// A new byte, and the status as it was.
#[inline]
fn bit_result(value: u8, psw: u8) -> Out8
    ensures { result ≡ record { value = value; psw = psw } }
{
    Out8 { value, psw }
}

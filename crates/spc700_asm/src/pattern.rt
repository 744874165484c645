//! How the operands of the instructions are written.
ghost use Rattle.std.specs.Prelude.{◌≡◌, []};
ghost use Rattle.spc700_asm.specs.Patterns.{pattern_of};

use spc700_table::Form;
use std::marker::Model;

/// What an operand has in the place of a number.
#[derive(Clone, Copy, PartialEq, Eq)]
pub enum Slot {
    /// There is no operand.
    Absent,
    /// A register, and no number.
    Register,
    /// A byte.
    Byte,
    /// An address.
    Address,
    /// The address that a branch goes to.
    Target,
    /// An address below 2000h and a bit.
    MemoryBit,
    /// A byte, and this bit, which is the opcode's own.
    OwnBit(u8),
    /// This number, which is the opcode's own.
    OwnEntry(u8),
}

/// An operand's text: a register or the number that fills a slot, with something before it and something after.
#[derive(Drop)]
pub struct Pattern {
    pub before: &'static [u8],
    pub register: &'static [u8],
    pub slot: Slot,
    pub after: &'static [u8],
}

impl Model for Pattern {
    ghost use Rattle.spc700_asm.specs.Patterns.{Pattern};

    ghost Value = { Pattern };

    ghost view = { λ pattern. record { before = pattern.before.now; register = pattern.register.now; slot = pattern.slot; after = pattern.after.now } };
}

/// A register, with something before it and something after.
fn name_between(before: &'static [u8], register: &'static [u8], after: &'static [u8]) -> Pattern
    ensures { result ≡ record { before = before.now; register = register.now; slot = Slot.Register; after = after.now } }
{
    Pattern {
        before,
        register,
        slot: Slot::Register,
        after,
    }
}

/// A number, with something before it and something after.
fn number_between(before: &'static [u8], slot: Slot, after: &'static [u8]) -> Pattern
    ensures { result ≡ record { before = before.now; register = []; slot = slot; after = after.now } }
{
    Pattern {
        before,
        register: b"",
        slot,
        after,
    }
}

/// How an operand of a form is written.
pub fn pattern_for(form: Form) -> Pattern
    ensures { result ≡ pattern_of form }
{
    match form {
        Form::None => number_between(b"", Slot::Absent, b""),
        Form::A => name_between(b"", b"A", b""),
        Form::X => name_between(b"", b"X", b""),
        Form::Y => name_between(b"", b"Y", b""),
        Form::Ya => name_between(b"", b"YA", b""),
        Form::Psw => name_between(b"", b"PSW", b""),
        Form::Sp => name_between(b"", b"SP", b""),
        Form::Carry => name_between(b"", b"C", b""),
        Form::Imm => number_between(b"#", Slot::Byte, b""),
        Form::Direct | Form::Upper => number_between(b"", Slot::Byte, b""),
        Form::DirectX => number_between(b"", Slot::Byte, b"+X"),
        Form::DirectY => number_between(b"", Slot::Byte, b"+Y"),
        Form::Abs => number_between(b"!", Slot::Address, b""),
        Form::AbsX => number_between(b"!", Slot::Address, b"+X"),
        Form::AbsY => number_between(b"!", Slot::Address, b"+Y"),
        Form::PtrX => name_between(b"(", b"X", b")"),
        Form::PtrY => name_between(b"(", b"Y", b")"),
        Form::PtrXInc => name_between(b"(", b"X", b")+"),
        Form::IndX => number_between(b"[", Slot::Byte, b"+X]"),
        Form::IndY => number_between(b"[", Slot::Byte, b"]+Y"),
        Form::AbsPtrX => number_between(b"[!", Slot::Address, b"+X]"),
        Form::Bit => number_between(b"", Slot::MemoryBit, b""),
        Form::NotBit => number_between(b"/", Slot::MemoryBit, b""),
        Form::DirectBit(bit) => number_between(b"", Slot::OwnBit(bit), b""),
        Form::Rel => number_between(b"", Slot::Target, b""),
        Form::Table(entry) => number_between(b"", Slot::OwnEntry(entry), b""),
    }
}

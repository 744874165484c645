//! An instruction as its line shows it, and its bytes at an address.
ghost use Rattle.std.specs.Prelude.{◌≡◌, ◌+◌, ◌<◌, ◌≤◌, length};
ghost use Rattle.spc700_table.specs.Opcodes.{row_of, is_distance, operand_bytes, length_of};
ghost use Rattle.spc700_table.specs.Branches.{branch_target};
ghost use Rattle.spc700_asm.specs.Instructions.{memory_end, first_place, second_place, number_at, number_in_line, instruction_in, instruction_at};

use aram_core::MEMORY_SIZE;
use spc700_table::{Form, OpRow, branch_target, byte_count, is_in_text_order, length, row};

/// Where the memory ends.
pub(crate) const MEMORY_END: u32 = MEMORY_SIZE as u32;

/// An instruction: its opcode, and the number that stands in the line for each operand: the target of a branch, of a bit of
/// memory the word of address and bit, and 0 where there is no number.
#[derive(Clone, Copy, PartialEq, Eq)]
pub struct Instruction {
    pub opcode: u8,
    pub first: u16,
    pub second: u16,
}

/// Whether an operand is the distance of a branch, for which the target stands in the line.
pub fn is_distance(form: Form) -> bool
    ensures { result ≡ is_distance form }
{
    matches!(form, Form::Rel)
}

/// The address that a distance leads to from the address after the instruction, which may be past the last one.
fn target(next: u32, distance: u8) -> u16
    requires { next ≤ memory_end }
    ensures { result ≡ branch_target next distance }
{
    branch_target((next % 0x1_0000) as u16, distance)
}

/// The little-endian number in the first `count` bytes.
pub fn number_at(count: u8, bytes: &[u8]) -> u16
    requires few { count ≤ 2 }
    requires inside { count ≤ length bytes.now }
    ensures { result ≡ number_at count bytes.now }
{
    match count {
        0 => 0,
        1 => u16::from(bytes[0]),
        _ => u16::from(bytes[0]) + 0x100 * u16::from(bytes[1]),
    }
}

/// What stands in the line for an operand whose bytes are at the front.
fn number_in_line_at(form: Form, next: u32, bytes: &[u8]) -> u16
    requires next { next ≤ memory_end }
    requires few { operand_bytes form ≤ 2 }
    requires inside { operand_bytes form ≤ length bytes.now }
    ensures { result ≡ number_in_line form next (number_at (operand_bytes form) bytes.now) }
{
    if is_distance(form) {
        target(next, bytes[0])
    } else {
        number_at(byte_count(form), bytes)
    }
}

/// Where the bytes of the first operand begin, after the opcode.
fn first_place(row: &OpRow) -> usize
    ensures { result ≡ first_place row.now }
{
    if is_in_text_order(row) {
        0
    } else {
        usize::from(byte_count(row.second))
    }
}

/// Where the bytes of the second operand begin.
fn second_place(row: &OpRow) -> usize
    ensures { result ≡ second_place row.now }
{
    if is_in_text_order(row) {
        usize::from(byte_count(row.first))
    } else {
        0
    }
}

/// The instruction of an opcode with these bytes after it.
fn instruction_in(opcode: u8, next: u32, operands: &[u8]) -> Instruction
    requires next { next ≤ memory_end }
    requires inside { length_of opcode ≤ length operands.now + 1 }
    ensures { result ≡ instruction_in opcode (row_of opcode) next operands.now }
{
    let row = row(opcode);
    let first = first_place(&row);
    let second = second_place(&row);
    Instruction {
        opcode,
        first: number_in_line_at(row.first, next, &operands[first..]),
        second: number_in_line_at(row.second, next, &operands[second..]),
    }
}

/// The instruction at the front of bytes that stand at an address, where all its bytes are there.
#[tactic(auto, unfolding(crate::specs::Instructions::instruction_at))]
pub fn instruction_at(at: u32, bytes: &[u8]) -> Option<Instruction>
    requires { at + length bytes.now ≤ memory_end }
    ensures { result ≡ instruction_at at bytes.now }
{
    let (opcode, operands) = bytes.split_first()?;
    let count = length(*opcode);
    if operands.len() + 1 < usize::from(count) {
        return None;
    }
    Some(instruction_in(*opcode, at + u32::from(count), operands))
}

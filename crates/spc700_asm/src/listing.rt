//! The line of an instruction, and the listing of bytes.
ghost use Rattle.std.specs.Prelude.{◌≡◌, ◌+◌, ◌<◌, ◌≤◌, ◌++◌, length, map, codes, OnOk, IfOk, IfSome, IfNone};
ghost use Rattle.std.specs.List.{flat_map};
ghost use Rattle.spc700_table.specs.Opcodes.{length_of};
ghost use Rattle.spc700_asm.specs.Instructions.{memory_end};
ghost use Rattle.spc700_asm.specs.Listing.{byte_text, word_text, bit_text, slot_text, operand_text, operand_after, text_of, rest_text, listing};

use crate::OutOfMemory;
use crate::instruction::{Instruction, instruction_at};
use crate::pattern::{Slot, pattern_for};
use itoa::Buffer;
use spc700_table::{Form, length, mnemonic, row};
use std::alloc::Global;
use text_form::{four_digits, two_digits};

/// Adds a byte.
fn push_byte(out: &mut Vec<u8>, byte: u8) -> Result<(), OutOfMemory>
    ensures { OnOk result (out.new.items ≡ out.old.items ++ byte_text byte) }
{
    out.extend_from_slice(b"$")?;
    out.extend_from_slice(&two_digits(byte))
}

/// Adds a word.
fn push_word(out: &mut Vec<u8>, word: u16) -> Result<(), OutOfMemory>
    ensures { OnOk result (out.new.items ≡ out.old.items ++ word_text word) }
{
    out.extend_from_slice(b"$")?;
    out.extend_from_slice(&four_digits(word))
}

/// Adds a bit after an address.
fn push_bit(out: &mut Vec<u8>, bit: u8) -> Result<(), OutOfMemory>
    ensures { OnOk result (out.new.items ≡ out.old.items ++ bit_text bit) }
{
    out.extend_from_slice(b".")?;
    out.extend_from_slice(Buffer::new().format(bit).as_bytes())
}

/// Adds what stands for the number of an operand.
fn push_number(out: &mut Vec<u8>, slot: Slot, number: u16) -> Result<(), OutOfMemory>
    ensures { OnOk result (out.new.items ≡ out.old.items ++ slot_text slot number) }
{
    match slot {
        Slot::Absent | Slot::Register => Ok(()),
        Slot::Byte => push_byte(out, (number % 0x100) as u8),
        Slot::Address | Slot::Target => push_word(out, number),
        Slot::MemoryBit => {
            push_word(out, number % 0x2000)?;
            push_bit(out, (number / 0x2000) as u8)
        }
        Slot::OwnBit(bit) => {
            push_byte(out, (number % 0x100) as u8)?;
            push_bit(out, bit)
        }
        Slot::OwnEntry(entry) => out.extend_from_slice(Buffer::new().format(entry).as_bytes()),
    }
}

/// Adds an operand with something before it; nothing where there is none.
fn push_operand(
    out: &mut Vec<u8>,
    before: &[u8],
    form: Form,
    number: u16,
) -> Result<(), OutOfMemory>
    ensures { OnOk result (out.new.items ≡ out.old.items ++ operand_after before.now form number) }
{
    let pattern = pattern_for(form);
    if matches!(pattern.slot, Slot::Absent) {
        return Ok(());
    }
    out.extend_from_slice(before)?;
    out.extend_from_slice(pattern.before)?;
    out.extend_from_slice(pattern.register)?;
    push_number(out, pattern.slot, number)?;
    out.extend_from_slice(pattern.after)
}

/// Adds the line of an instruction, without its line feed.
#[tactic(auto, unfolding(crate::specs::Listing::text_of))]
fn push_text(out: &mut Vec<u8>, instruction: Instruction) -> Result<(), OutOfMemory>
    ensures { OnOk result (out.new.items ≡ out.old.items ++ text_of instruction) }
{
    let row = row(instruction.opcode);
    out.extend_from_slice(mnemonic(row.kind))?;
    push_operand(out, b" ", row.first, instruction.first)?;
    push_operand(out, b",", row.second, instruction.second)
}

/// Adds bytes, each with a comma before it.
fn push_others(out: &mut Vec<u8>, bytes: &[u8]) -> Result<(), OutOfMemory>
    ensures { OnOk result (out.new.items ≡ out.old.items ++ flat_map (λ byte. codes "," ++ byte_text byte) bytes.now) }
{
    for byte in bytes {
        out.extend_from_slice(b",")?;
        push_byte(out, *byte)?;
    }
    Ok(())
}

/// Adds the line of bytes that are no whole instruction; none where there are no bytes.
fn push_rest(out: &mut Vec<u8>, bytes: &[u8]) -> Result<(), OutOfMemory>
    ensures { OnOk result (out.new.items ≡ out.old.items ++ rest_text bytes.now) }
{
    let [first, others @ ..] = bytes else {
        return Ok(());
    };
    out.extend_from_slice(b".byte ")?;
    push_byte(out, *first)?;
    push_others(out, others)?;
    out.extend_from_slice(b"\n")
}

/// The instruction at the front of bytes, where all its bytes are there, and what is after it.
fn first_instruction(at: u32, bytes: &[u8]) -> Option<(Instruction, &[u8])>
    requires { at + length bytes.now ≤ memory_end }
    ensures found { IfSome result (λ first. listing at bytes.now ≡ text_of first.0 ++ codes "\n" ++ listing (at + length_of first.0.opcode) first.1.now) }
    ensures after { IfSome result (λ first. length_of first.0.opcode + length first.1.now ≡ length bytes.now) }
    ensures none { IfNone result (listing at bytes.now ≡ rest_text bytes.now) }
{
    let instruction = instruction_at(at, bytes)?;
    let count = usize::from(length(instruction.opcode));
    Some((instruction, bytes.split_at(count).1))
}

/// The listing of bytes that stand at an origin and end at 65,536 at most: a line for each instruction, and one more, of
/// `.byte`, for bytes at the end that are no whole instruction. It may want memory.
pub fn disassemble(alloc: Global, bytes: &[u8], origin: u16) -> Result<Vec<u8>, OutOfMemory>
    requires { origin + length bytes.now ≤ memory_end }
    ensures { IfOk result (λ text. text.items ≡ listing origin bytes.now) }
{
    let mut text = Vec::new(alloc);
    let mut at = u32::from(origin);
    let mut rest = bytes;
    'instructions: while let Some((instruction, after)) = first_instruction(at, rest) {
        push_text(&mut text, instruction)?;
        text.extend_from_slice(b"\n")?;
        at += u32::from(length(instruction.opcode));
        rest = after;
    }
    push_rest(&mut text, rest)?;
    Ok(text)
}

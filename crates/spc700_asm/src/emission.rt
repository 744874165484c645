//! The second going over a source: the bytes of its lines, or the first line with one of the last two faults.
ghost use Rattle.std.specs.Prelude.{◌≡◌, ◌+◌, ◌-◌, ◌*◌, ◌%◌, ◌/◌, ◌≤◌, ◌<◌, ◌++◌, [], length, false, unwrap_or, Some, None, Ok, IsSome, IfSome, IfOk, IfErr, OnOk};
ghost use Rattle.std.specs.Option.{option_map};
ghost use Rattle.spc700_table.specs.Opcodes.{row_of, length_of, operand_bytes};
ghost use Rattle.spc700_asm.specs.Instructions.{memory_end, distance_ahead, is_near, bytes_of_number, bytes_of_operand, bytes_of_operands, bytes_of};
ghost use Rattle.spc700_asm.specs.Operands.{is_above, written_of};
ghost use Rattle.spc700_asm.specs.Characters.{number_of};
ghost use Rattle.spc700_asm.specs.Statements.{all_of, items_of, statement_of};
ghost use Rattle.spc700_asm.specs.Labels.{Labels, size_of_line};
ghost use Rattle.spc700_asm.specs.Faults.{has_great_operand, has_great_number};
ghost use Rattle.spc700_asm.specs.Assembly.{number_written, plain_number, operand_number, instruction_written, is_far_operand, is_far, instruction_bytes, number_bytes, line_bytes, with_front, bytes_of_lines, lines_of, max_source, Refuses};
ghost use Rattle.spc700_asm.specs.Seen.{written_seen, operand_seen, statement_seen, as_seen};
ghost use Rattle.spc700_asm.specs.Names.{Holds, Adds, AddsLine, word_bytes, bytes_of_source, IsBytesFault, IsFine, AreFine};

use crate::OutOfMemory;
use crate::characters::{number, trim};
use crate::faults::size_within;
use crate::instruction::{Instruction, MEMORY_END, is_distance};
use crate::names::Names;
use crate::operand::{Operand, Written, written_in};
use crate::pattern::{Slot, pattern_for};
use crate::refusal::{AsmRefusal, LineError, LineFault};
use crate::statement::{Statement, statement_in};
use spc700_table::{Form, OpRow, byte_count, is_in_text_order, length, row};
use std::alloc::Global;
use text_form::first_part;

/// How far a target is ahead.
fn distance_ahead(next: u32, target: u16) -> u32
    ensures ahead { result ≡ distance_ahead next target }
    ensures bound { result < 0x1_0000 }
{
    (u32::from(target) + (0x1_0000 - next % 0x1_0000)) % 0x1_0000
}

/// Whether an operand is a target that no distance leads to.
fn is_far_operand(form: Form, next: u32, number: u16) -> bool
    ensures { result ≡ is_far_operand form next number }
{
    let ahead = distance_ahead(next, number);
    is_distance(form) && !(ahead < 0x80 || ahead >= 0xff80)
}

/// Whether an instruction at an address has one.
fn is_far(at: u32, instruction: Instruction) -> bool
    requires { at ≤ memory_end }
    ensures { result ≡ is_far at instruction }
{
    let row = row(instruction.opcode);
    let next = at + u32::from(length(instruction.opcode));
    is_far_operand(row.first, next, instruction.first)
        || is_far_operand(row.second, next, instruction.second)
}

/// Adds the bytes of an operand.
fn push_operand(out: &mut Vec<u8>, form: Form, next: u32, number: u16) -> Result<(), OutOfMemory>
    requires { operand_bytes form ≤ 2 }
    ensures { OnOk result (out.new.items ≡ out.old.items ++ bytes_of_operand form next number) }
{
    let bytes_number = if is_distance(form) {
        (distance_ahead(next, number) % 0x100) as u16
    } else {
        number
    };
    match byte_count(form) {
        0 => Ok(()),
        1 => out.extend_from_slice(&[(bytes_number % 0x100) as u8]),
        _ => out.extend_from_slice(&[(bytes_number % 0x100) as u8, (bytes_number / 0x100) as u8]),
    }
}

/// Adds the bytes of both operands.
fn push_operands(
    out: &mut Vec<u8>,
    row: &OpRow,
    next: u32,
    first: u16,
    second: u16,
) -> Result<(), OutOfMemory>
    requires { operand_bytes row.now.first + operand_bytes row.now.second ≤ 2 }
    ensures { OnOk result (out.new.items ≡ out.old.items ++ bytes_of_operands row.now next first second) }
{
    if is_in_text_order(row) {
        push_operand(out, row.first, next, first)?;
        push_operand(out, row.second, next, second)
    } else {
        push_operand(out, row.second, next, second)?;
        push_operand(out, row.first, next, first)
    }
}

/// Adds the bytes of an instruction at an address.
#[tactic(auto, unfolding(crate::specs::Instructions::bytes_of))]
fn push_instruction(out: &mut Vec<u8>, at: u32, instruction: Instruction) -> Result<(), LineError>
    requires { at ≤ memory_end }
    ensures { Adds out.old.items out.new.items (instruction_bytes at (Some instruction)) result }
{
    if is_far(at, instruction) {
        return Err(LineError::Fault(LineFault::Far));
    }
    let next = at + u32::from(length(instruction.opcode));
    out.extend_from_slice(&[instruction.opcode])?;
    push_operands(
        out,
        &row(instruction.opcode),
        next,
        instruction.first,
        instruction.second,
    )?;
    Ok(())
}

/// The number that is written, or that the name has.
fn written_number(names: &Names, value: Written) -> Option<u32>
    ensures { (labels : Labels) → Holds names.now labels → result ≡ number_written labels (written_seen value.entry) }
{
    match value {
        Written::Plain(number) => Some(number),
        Written::Named(name) => match names.value(name) {
            Some(value) => Some(u32::from(value)),
            None => None,
        },
    }
}

/// The address that is written, or that the name has.
fn written_address(names: &Names, value: Written) -> Option<u16>
    requires { is_above 0xFFFF (written_seen value) ≡ false }
    ensures { (labels : Labels) → Holds names.now labels → result ≡ number_written labels (written_seen value.entry) }
{
    match value {
        Written::Plain(number) => Some(number as u16),
        Written::Named(name) => names.value(name),
    }
}

/// The number that is written where no name may stand.
fn plain_number(value: Written, greatest: u32) -> u16
    requires small { is_above greatest (written_seen value) ≡ false }
    requires greatest { greatest ≤ 0xFFFF }
    ensures number { result ≡ plain_number (written_seen value.entry) }
    ensures bound { result ≤ greatest }
{
    match value {
        Written::Plain(number) => number as u16,
        Written::Named(_) => 0,
    }
}

/// The number of an operand.
fn operand_value(names: &Names, form: Form, operand: &Option<Operand>) -> Option<u16>
    requires { has_great_operand form (as_seen operand.now) ≡ false }
    ensures { (labels : Labels) → Holds names.now labels → result ≡ operand_number labels form (as_seen operand.now) }
{
    let Some(operand) = operand else {
        return Some(0);
    };
    match pattern_for(form).slot {
        Slot::Absent | Slot::Register | Slot::OwnEntry(_) => Some(0),
        Slot::Byte | Slot::OwnBit(_) => Some(plain_number(operand.value, 0xff)),
        Slot::Address | Slot::Target => written_address(names, operand.value),
        Slot::MemoryBit => {
            let bit = operand.bit.unwrap_or(0) as u16;
            Some(plain_number(operand.value, 0x1fff) + 0x2000 * bit)
        }
    }
}

/// The instruction of an opcode and operands.
#[tactic(auto, unfolding(crate::specs::Assembly::instruction_written))]
fn instruction_written(
    names: &Names,
    opcode: u8,
    first: &Option<Operand>,
    second: &Option<Operand>,
) -> Option<Instruction>
    requires first { has_great_operand (row_of opcode).first (as_seen first.now) ≡ false }
    requires second { has_great_operand (row_of opcode).second (as_seen second.now) ≡ false }
    ensures { (labels : Labels) → Holds names.now labels → result ≡ instruction_written labels opcode (as_seen first.now) (as_seen second.now) }
{
    let row = row(opcode);
    let first = operand_value(names, row.first, first)?;
    let second = operand_value(names, row.second, second)?;
    Some(Instruction {
        opcode,
        first,
        second,
    })
}

/// Adds the bytes that are written between commas.
fn push_bytes(out: &mut Vec<u8>, items: &[u8]) -> Result<(), LineError>
    requires { IsSome (all_of number_of (items_of items.now)) }
    ensures { Adds out.old.items out.new.items (number_bytes 1 (all_of number_of (items_of items.now))) result }
{
    let mut rest = Some(items);
    'items: while let Some(text) = rest {
        let (item, after) = first_part(b',', text);
        let value = number(trim(item)).unwrap_or(0);
        out.extend_from_slice(&[(value % 0x100) as u8])?;
        rest = after;
    }
    Ok(())
}

/// Adds the words that are written between commas.
fn push_words(out: &mut Vec<u8>, names: &Names, items: &[u8]) -> Result<(), LineError>
    requires { IsSome (all_of written_of (items_of items.now)) }
    ensures { (labels : Labels) → Holds names.now labels → Adds out.old.items out.new.items (word_bytes labels items.now) result }
{
    let mut rest = Some(items);
    'items: while let Some(text) = rest {
        let (item, after) = first_part(b',', text);
        let value = written_in(trim(item)).unwrap_or(Written::Plain(0));
        let Some(word) = written_number(names, value) else {
            return Err(LineError::Fault(LineFault::Name));
        };
        out.extend_from_slice(&[(word % 0x100) as u8, (word / 0x100 % 0x100) as u8])?;
        rest = after;
    }
    Ok(())
}

/// Adds the bytes of a statement at an address.
fn push_statement(
    out: &mut Vec<u8>,
    names: &Names,
    at: u32,
    statement: &Statement,
) -> Result<(), LineError>
    requires at { at ≤ memory_end }
    requires seen { IsSome (statement_seen statement.now) }
    requires small { IfSome (statement_seen statement.now) (λ seen. has_great_number seen ≡ false) }
    ensures { (labels : Labels) → Holds names.now labels → Adds out.old.items out.new.items (line_bytes labels at (statement_seen statement.now)) result }
{
    match statement {
        Statement::Nothing | Statement::Name(_) => Ok(()),
        Statement::Bytes(items) => push_bytes(out, items),
        Statement::Words(items) => push_words(out, names, items),
        Statement::Code {
            opcode,
            first,
            second,
        } => match instruction_written(names, *opcode, first, second) {
            Some(instruction) => push_instruction(out, at, instruction),
            None => Err(LineError::Fault(LineFault::Name)),
        },
    }
}

/// Adds the bytes of a line at an address that has none of the first four faults: the address after it.
fn push_line(out: &mut Vec<u8>, names: &Names, at: u32, line: &[u8]) -> Result<u32, LineError>
    requires at { at ≤ memory_end }
    requires fine { IsFine at (statement_of line.now) }
    ensures bytes { (labels : Labels) → Holds names.now labels → OnOk result (AddsLine labels at line.now out.old.items out.new.items) }
    ensures fault { (labels : Labels) → Holds names.now labels
        → IfErr result (λ error. IsBytesFault error (line_bytes labels at (statement_of line.now))) }
    ensures next { IfOk result (λ next. next ≡ at + size_of_line (statement_of line.now)) }
    ensures within { IfOk result (λ next. next ≤ memory_end) }
{
    let Some(statement) = statement_in(line) else {
        return Ok(at);
    };
    push_statement(out, names, at, &statement)?;
    Ok(at + size_within(&statement, MEMORY_END - at).unwrap_or(0))
}

/// The bytes of lines from an origin on that have none of the first four faults, or the first line with one of the last two.
pub fn emit(alloc: Global, names: &Names, source: &[u8], origin: u16) -> Result<Vec<u8>, AsmRefusal>
    requires length { length source.now ≤ max_source }
    requires fine { AreFine origin (lines_of source.now) }
    ensures bytes { (labels : Labels) → Holds names.now labels → IfOk result (λ bytes. bytes_of_source labels origin source.now ≡ Ok bytes.items) }
    ensures refusal { (labels : Labels) → Holds names.now labels → IfErr result (λ refusal. Refuses refusal (bytes_of_source labels origin source.now)) }
{
    let mut out = Vec::new(alloc);
    let mut at = u32::from(origin);
    let mut number = 1;
    let mut rest = Some(source);
    'lines: while let Some(text) = rest {
        let (line, after) = first_part(b'\n', text);
        match push_line(&mut out, names, at, line) {
            Ok(next) => at = next,
            Err(error) => return Err(error.at(number)),
        }
        number += 1;
        rest = after;
    }
    Ok(out)
}

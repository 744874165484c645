//! What a line of a source says.
ghost use Rattle.std.specs.Prelude.{◌≡◌, ◌+◌, ◌<◌, ◌≤◌, ◌==◌, ◌∷◌, length, map, take, drop, reverse, position, codes, IfSome, IsSome, option_and_then, Option, Some, None};
ghost use Rattle.std.specs.Option.{option_map, option_or};
ghost use Rattle.std.specs.List.{before_first, after_first};
ghost use Rattle.std.specs.Str.{bytes_eq};
ghost use Rattle.spc700_table.specs.Opcodes.{row_of};
ghost use Rattle.spc700_asm.specs.Characters.{is_semicolon, is_blank, trim, capitals};
ghost use Rattle.spc700_asm.specs.Operands.{is_plain, is_register, is_number, fills, has_form, is_own};
ghost use Rattle.spc700_asm.specs.Statements.{fits, owns, is_alike, is_this, all_rows, opcode_written, code, with_operands, instruction_of, statement_of_word, label_of, statement_or_label, text_statement, statement_of};
ghost use Rattle.spc700_asm.specs.Seen.{written_seen, operand_seen, statement_seen, as_seen};

use crate::characters::{blank_place, is_capitals_of, is_name, trim};
use crate::operand::{Operand, Written, operand_in};
use crate::parts::{are_numbers, are_words};
use crate::pattern::{Pattern, Slot, pattern_for};
use spc700_table::{Form, OpRow, mnemonic, row};
use text_form::place_of;

/// What a line says.
#[derive(Clone, Copy)]
pub enum Statement<'a> {
    /// Nothing.
    Nothing,
    /// A name for its address.
    Name(&'a [u8]),
    /// Bytes: the text of numbers between commas.
    Bytes(&'a [u8]),
    /// Words: the text of numbers and names between commas.
    Words(&'a [u8]),
    /// An instruction.
    Code {
        opcode: u8,
        first: Option<Operand<'a>>,
        second: Option<Operand<'a>>,
    },
}

/// Whether two texts are the same.
fn is_same(text: &[u8], other: &[u8]) -> bool
    ensures { result ≡ bytes_eq text.now other.now }
{
    text == other
}

/// Whether the name of a register is written.
fn is_register(value: Written, register: &[u8]) -> bool
    ensures { result ≡ is_register register.now (written_seen value.entry) }
{
    match value {
        Written::Plain(_) => false,
        Written::Named(name) => is_capitals_of(name, register),
    }
}

/// Whether a number is written, and not a name.
fn is_plain(value: Written) -> bool
    ensures { result ≡ is_plain (written_seen value.entry) }
{
    matches!(value, Written::Plain(_))
}

/// Whether what is written may fill a slot, its greatest value aside.
fn fills(pattern: &Pattern, value: Written, bit: Option<u32>) -> bool
    ensures { result ≡ fills pattern.now.register pattern.now.slot (written_seen value.entry) bit }
{
    match pattern.slot {
        Slot::Absent => false,
        Slot::Register => bit.is_none() && is_register(value, pattern.register),
        Slot::Byte | Slot::OwnEntry(_) => bit.is_none() && is_plain(value),
        Slot::Address | Slot::Target => bit.is_none(),
        Slot::MemoryBit | Slot::OwnBit(_) => bit.is_some() && is_plain(value),
    }
}

/// Whether an operand is written as one of a form.
fn has_form(form: Form, operand: &Operand) -> bool
    ensures { result ≡ has_form form (operand_seen operand.now) }
{
    let pattern = pattern_for(form);
    is_same(operand.before, pattern.before)
        && is_capitals_of(operand.after, pattern.after)
        && fills(&pattern, operand.value, operand.bit)
}

/// Whether an operand is written as one of a form, or there is none of either.
fn fits(form: Form, operand: &Option<Operand>) -> bool
    ensures { result ≡ fits form (as_seen operand.now) }
{
    match operand {
        None => matches!(pattern_for(form).slot, Slot::Absent),
        Some(operand) => has_form(form, operand),
    }
}

/// Whether this number is written.
fn is_number(value: Written, own: u8) -> bool
    ensures { result ≡ is_number own (written_seen value.entry) }
{
    match value {
        Written::Plain(number) => number == u32::from(own),
        Written::Named(_) => false,
    }
}

/// Whether the number that is the opcode's own is written, where there is one.
fn owns(form: Form, operand: &Option<Operand>) -> bool
    ensures { result ≡ owns form (as_seen operand.now) }
{
    let Some(operand) = operand else {
        return true;
    };
    match pattern_for(form).slot {
        Slot::Absent
        | Slot::Register
        | Slot::Byte
        | Slot::Address
        | Slot::Target
        | Slot::MemoryBit => true,
        Slot::OwnBit(own) => operand.bit.unwrap_or(8) == u32::from(own),
        Slot::OwnEntry(own) => is_number(operand.value, own),
    }
}

/// Whether an instruction is written as one of a row, whatever its numbers.
fn is_alike(word: &[u8], first: &Option<Operand>, second: &Option<Operand>, row: &OpRow) -> bool
    ensures { result ≡ is_alike (capitals word.now) (as_seen first.now) (as_seen second.now) row.now }
{
    is_capitals_of(word, mnemonic(row.kind)) && fits(row.first, first) && fits(row.second, second)
}

/// Whether an instruction is written as one of a row, and has the row's own numbers.
fn is_this(word: &[u8], first: &Option<Operand>, second: &Option<Operand>, row: &OpRow) -> bool
    ensures { result ≡ is_this (capitals word.now) (as_seen first.now) (as_seen second.now) row.now }
{
    is_alike(word, first, second, row) && owns(row.first, first) && owns(row.second, second)
}

/// The least opcode whose row an instruction is.
fn this_opcode(word: &[u8], first: &Option<Operand>, second: &Option<Operand>) -> Option<u8>
    ensures { result ≡ position (is_this (capitals word.now) (as_seen first.now) (as_seen second.now)) all_rows }
{
    for opcode in 0..256u16 {
        if is_this(word, first, second, &row(opcode as u8)) {
            return Some(opcode as u8);
        }
    }
    None
}

/// The least opcode that an instruction is written as, whatever its numbers.
fn alike_opcode(word: &[u8], first: &Option<Operand>, second: &Option<Operand>) -> Option<u8>
    ensures { result ≡ position (is_alike (capitals word.now) (as_seen first.now) (as_seen second.now)) all_rows }
{
    for opcode in 0..256u16 {
        if is_alike(word, first, second, &row(opcode as u8)) {
            return Some(opcode as u8);
        }
    }
    None
}

/// The instruction of a mnemonic and operands.
#[tactic(auto, unfolding(crate::specs::Statements::opcode_written))]
fn code<'a>(
    word: &[u8],
    first: Option<Operand<'a>>,
    second: Option<Operand<'a>>,
) -> Option<Statement<'a>>
    ensures meaning { option_and_then statement_seen result ≡ code (capitals word.now) (as_seen first.entry) (as_seen second.entry) }
    ensures seen { IfSome result (λ statement. IsSome (statement_seen statement)) }
{
    let opcode = match this_opcode(word, &first, &second) {
        Some(opcode) => opcode,
        None => alike_opcode(word, &first, &second)?,
    };
    Some(Statement::Code {
        opcode,
        first,
        second,
    })
}

/// The instruction of a mnemonic and the text of its operands.
fn instruction_in<'a>(word: &[u8], text: &'a [u8]) -> Option<Statement<'a>>
    ensures meaning { option_and_then statement_seen result ≡ instruction_of (capitals word.now) text.now }
    ensures seen { IfSome result (λ statement. IsSome (statement_seen statement)) }
{
    if text.is_empty() {
        return code(word, None, None);
    }
    match place_of(b',', text) {
        None => code(word, Some(operand_in(text)?), None),
        Some(comma) => {
            let first = operand_in(trim(text.split_at(comma).0))?;
            let second = operand_in(trim(text.split_at(comma + 1).1))?;
            code(word, Some(first), Some(second))
        }
    }
}

/// A line by its first word and what is after it.
#[tactic(auto, unfolding(crate::specs::Statements::statement_of_word))]
fn statement_of_word<'a>(word: &[u8], text: &'a [u8]) -> Option<Statement<'a>>
    ensures meaning { option_and_then statement_seen result ≡ statement_of_word word.now text.now }
    ensures seen { IfSome result (λ statement. IsSome (statement_seen statement)) }
{
    if is_same(word, b".byte") {
        are_numbers(text).then_some(Statement::Bytes(text))
    } else if is_same(word, b".word") {
        are_words(text).then_some(Statement::Words(text))
    } else {
        instruction_in(word, text)
    }
}

/// A line with a colon is a name and nothing more.
#[tactic(auto, unfolding(crate::specs::Statements::label_of))]
fn label(text: &[u8], colon: usize) -> Option<Statement<'_>>
    requires { colon < length text.now }
    ensures meaning { option_and_then statement_seen result ≡ label_of text.now colon }
    ensures seen { IfSome result (λ statement. IsSome (statement_seen statement)) }
{
    let name = text.split_at(colon).0;
    if colon + 1 == text.len() && is_name(name) {
        Some(Statement::Name(name))
    } else {
        None
    }
}

/// A line's first word, and what is after the blanks after it.
fn first_word(text: &[u8]) -> (&[u8], &[u8])
    ensures word { result.0.now ≡ before_first is_blank text.now }
    ensures after { result.1.now ≡ trim (after_first is_blank text.now) }
{
    match blank_place(text) {
        Some(place) => (text.split_at(place).0, trim(text.split_at(place + 1).1)),
        None => (text, &[]),
    }
}

/// What stands before a comment.
fn before_comment(line: &[u8]) -> &[u8]
    ensures { result.now ≡ before_first is_semicolon line.now }
{
    match place_of(b';', line) {
        Some(place) => line.split_at(place).0,
        None => line,
    }
}

/// A line without its comment and the blanks at its ends.
fn text_statement(text: &[u8]) -> Option<Statement<'_>>
    ensures meaning { option_and_then statement_seen result ≡ text_statement text.now }
    ensures seen { IfSome result (λ statement. IsSome (statement_seen statement)) }
{
    if text.is_empty() {
        return Some(Statement::Nothing);
    }
    match place_of(b':', text) {
        Some(colon) => label(text, colon),
        None => {
            let (word, after) = first_word(text);
            statement_of_word(word, after)
        }
    }
}

/// What a line says, if it has a form.
#[tactic(auto, unfolding(crate::specs::Statements::statement_of))]
pub fn statement_in(line: &[u8]) -> Option<Statement<'_>>
    ensures meaning { option_and_then statement_seen result ≡ statement_of line.now }
    ensures seen { IfSome result (λ statement. IsSome (statement_seen statement)) }
{
    text_statement(trim(before_comment(line)))
}

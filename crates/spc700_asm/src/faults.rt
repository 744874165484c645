//! The four faults that are looked for first.
ghost use Rattle.std.specs.Prelude.{◌≡◌, [], ◌+◌, ◌*◌, ◌≤◌, ◌<◌, length, unwrap_or, nat_lt, false, Option, Some, None, IsSome, IfSome, IfOk, ◌-◌};
ghost use Rattle.std.specs.Option.{option_map};
ghost use Rattle.std.specs.List.{list_any};
ghost use Rattle.std.specs.Result.{result_err};
ghost use Rattle.spc700_asm.specs.Instructions.{memory_end};
ghost use Rattle.spc700_asm.specs.Characters.{number_of};
ghost use Rattle.spc700_asm.specs.Operands.{written_of, is_above, is_great};
ghost use Rattle.spc700_asm.specs.Statements.{all_of, items_of};
ghost use Rattle.spc700_asm.specs.Labels.{Labels, size_of, size_of_line};
ghost use Rattle.spc700_asm.specs.Faults.{has_great_operand, has_great_number, defines_again, first_fault};
ghost use Rattle.spc700_asm.specs.Seen.{written_seen, operand_seen, statement_seen, within, as_seen};
ghost use Rattle.spc700_asm.specs.Names.{value_in_table, Holds};

use crate::characters::{number, trim};
use crate::instruction::MEMORY_END;
use crate::names::Names;
use crate::operand::{Operand, Written, written_in};
use crate::pattern::{Slot, pattern_for};
use crate::refusal::LineFault;
use crate::statement::Statement;
use spc700_table::{Form, length, row};
use text_form::first_part;

/// Whether a number is above the greatest of its place.
pub fn is_above(greatest: u32, value: Written) -> bool
    ensures { result ≡ is_above greatest (written_seen value.entry) }
{
    match value {
        Written::Plain(number) => number > greatest,
        Written::Named(_) => false,
    }
}

/// Whether a number of an operand is.
fn has_great_operand(form: Form, operand: &Option<Operand>) -> bool
    ensures { result ≡ has_great_operand form (as_seen operand.now) }
{
    let Some(operand) = operand else {
        return false;
    };
    match pattern_for(form).slot {
        Slot::Absent | Slot::Register => false,
        Slot::Byte => is_above(0xff, operand.value),
        Slot::Address | Slot::Target => is_above(0xffff, operand.value),
        Slot::MemoryBit => is_above(0x1fff, operand.value) || operand.bit.unwrap_or(0) > 7,
        Slot::OwnBit(_) => is_above(0xff, operand.value) || operand.bit.unwrap_or(0) > 7,
        Slot::OwnEntry(_) => is_above(15, operand.value),
    }
}

/// Whether a number among items is above the greatest of a byte.
fn has_great_byte(items: &[u8]) -> bool
    requires { IsSome (all_of number_of (items_of items.now)) }
    ensures { result ≡ list_any (nat_lt 0xFF) (unwrap_or (all_of number_of (items_of items.now)) []) }
{
    let mut rest = Some(items);
    'items: while let Some(text) = rest {
        let (item, after) = first_part(b',', text);
        if number(trim(item)).unwrap_or(0) > 0xff {
            return true;
        }
        rest = after;
    }
    false
}

/// Whether a number among items is above the greatest of a word.
fn has_great_word(items: &[u8]) -> bool
    requires { IsSome (all_of written_of (items_of items.now)) }
    ensures { result ≡ list_any (is_above 0xFFFF) (unwrap_or (all_of written_of (items_of items.now)) []) }
{
    let mut rest = Some(items);
    'items: while let Some(text) = rest {
        let (item, after) = first_part(b',', text);
        if is_above(0xffff, written_in(trim(item)).unwrap_or(Written::Plain(0))) {
            return true;
        }
        rest = after;
    }
    false
}

/// How many bytes items have, where that isn't more than there is room for.
fn items_size(items: &[u8], each: u32, room: u32) -> Option<u32>
    requires { room ≤ memory_end }
    ensures { result ≡ within room (each * length (items_of items.now)) }
{
    let mut rest = Some(items);
    let mut size = 0;
    'items: while let Some(text) = rest {
        let (_, after) = first_part(b',', text);
        if room - size < each {
            return None;
        }
        size += each;
        rest = after;
    }
    Some(size)
}

/// How many bytes a statement gives, where that isn't more than there is room for.
pub fn size_within(statement: &Statement, room: u32) -> Option<u32>
    requires { room ≤ memory_end }
    ensures { IfSome (statement_seen statement.now) (λ seen. result ≡ within room (size_of seen)) }
{
    match *statement {
        Statement::Nothing | Statement::Name(_) => Some(0),
        Statement::Bytes(items) => items_size(items, 1, room),
        Statement::Words(items) => items_size(items, 2, room),
        Statement::Code { opcode, .. } => {
            let size = u32::from(length(opcode));
            (size <= room).then_some(size)
        }
    }
}

/// Whether a number of a statement is above the greatest of its place.
fn has_great_number(statement: &Statement) -> bool
    requires { IsSome (statement_seen statement.now) }
    ensures { IfSome (statement_seen statement.now) (λ seen. result ≡ has_great_number seen) }
{
    match statement {
        Statement::Nothing | Statement::Name(_) => false,
        Statement::Bytes(items) => has_great_byte(items),
        Statement::Words(items) => has_great_word(items),
        Statement::Code {
            opcode,
            first,
            second,
        } => {
            let row = row(*opcode);
            has_great_operand(row.first, first) || has_great_operand(row.second, second)
        }
    }
}

/// Whether a statement defines a name that is defined.
fn defines_again(names: &Names, statement: &Statement) -> bool
    ensures { (labels : Labels) → Holds names.now labels → IfSome (statement_seen statement.now) (λ seen. result ≡ defines_again labels seen) }
{
    match *statement {
        Statement::Name(name) => names.value(name).is_some(),
        _ => false,
    }
}

/// The size of a statement at an address after lines that define these names, or the first of the four faults.
pub fn checked_size(names: &Names, at: u32, statement: &Statement) -> Result<u32, LineFault>
    requires at { at ≤ memory_end }
    requires seen { IsSome (statement_seen statement.now) }
    ensures fault { (labels : Labels) → Holds names.now labels → first_fault labels at (statement_seen statement.now) ≡ result_err result }
    ensures size { IfOk result (λ size. size ≡ size_of_line (statement_seen statement.now)) }
    ensures within { IfOk result (λ size. at + size ≤ memory_end) }
{
    if has_great_number(statement) {
        Err(LineFault::Number)
    } else if defines_again(names, statement) {
        Err(LineFault::Twice)
    } else {
        size_within(statement, MEMORY_END - at).ok_or(LineFault::Long)
    }
}

//! An operand as it is written in a source.
ghost use Rattle.std.specs.Prelude.{◌≡◌, ◌+◌, ◌<◌, ◌≤◌, length, take, drop, IfSome, Option, Some, None};
ghost use Rattle.std.specs.Option.{option_map};
ghost use Rattle.std.specs.List.{prefix_len, take_while};
ghost use Rattle.spc700_asm.specs.Operands.{written_of, is_mark, is_value_character, operand_with, operand_after_marks, operand_of, fills, has_form, is_own, is_great};
ghost use Rattle.spc700_asm.specs.Seen.{written_seen, operand_seen};

use crate::characters::{is_capitals_of, is_name, is_name_character, number};
use crate::pattern::{Pattern, Slot, pattern_for};
use spc700_table::Form;

/// What is written for a number: the number, or a name.
#[derive(Clone, Copy)]
pub enum Written<'a> {
    Plain(u32),
    Named(&'a [u8]),
}

/// An operand: a number or a name, or a number and a bit, with something before it and something after.
#[derive(Clone, Copy)]
pub struct Operand<'a> {
    pub before: &'a [u8],
    pub value: Written<'a>,
    pub bit: Option<u32>,
    pub after: &'a [u8],
}

/// A number, or else a name.
#[tactic(auto, unfolding(crate::specs::Operands::written_of))]
pub fn written_in(text: &[u8]) -> Option<Written<'_>>
    ensures { option_map written_seen result ≡ written_of text.now }
{
    match number(text) {
        Some(number) => Some(Written::Plain(number)),
        None if is_name(text) => Some(Written::Named(text)),
        None => None,
    }
}

/// How many characters stand before a number.
fn mark_count(text: &[u8]) -> usize
    ensures count { result ≡ prefix_len is_mark text.now }
    ensures inside { result ≤ length text.now }
{
    text.iter()
        .take_while(|character| matches!(character, b'#' | b'!' | b'/' | b'(' | b'['))
        .count()
}

/// How many characters a number or a name has.
fn value_count(text: &[u8]) -> usize
    ensures count { result ≡ prefix_len is_value_character text.now }
    ensures inside { result ≤ length text.now }
{
    text.iter()
        .take_while(|character| is_name_character(**character) || **character == b'$')
        .count()
}

/// An operand with a value, and what stands after it.
fn operand_with<'a>(before: &'a [u8], value: Written<'a>, after: &'a [u8]) -> Option<Operand<'a>>
    ensures { option_map operand_seen result ≡ operand_with before.now (written_seen value.entry) after.now }
{
    let (bit, after): (Option<u32>, &[u8]) = match after {
        [b'.', digits @ ..] => (Some(number(digits)?), &[]),
        _ => (None, after),
    };
    Some(Operand {
        before,
        value,
        bit,
        after,
    })
}

/// The operand that a text is.
#[tactic(auto, unfolding(crate::specs::Operands::operand_of, crate::specs::Operands::operand_after_marks))]
pub fn operand_in(text: &[u8]) -> Option<Operand<'_>>
    ensures { option_map operand_seen result ≡ operand_of text.now }
{
    let (before, text) = text.split_at(mark_count(text));
    let (word, after) = text.split_at(value_count(text));
    operand_with(before, written_in(word)?, after)
}

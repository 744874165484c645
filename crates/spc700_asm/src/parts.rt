//! Items between commas.
ghost use Rattle.std.specs.Prelude.{◌≡◌, is_some};
ghost use Rattle.spc700_asm.specs.Characters.{number_of};
ghost use Rattle.spc700_asm.specs.Operands.{written_of};
ghost use Rattle.spc700_asm.specs.Statements.{all_of, items_of};

use crate::characters::{number, trim};
use crate::operand::written_in;
use text_form::first_part;

/// Whether items between commas are numbers.
pub fn are_numbers(items: &[u8]) -> bool
    ensures { result ≡ is_some (all_of number_of (items_of items.now)) }
{
    let mut rest = Some(items);
    'items: while let Some(text) = rest {
        let (item, after) = first_part(b',', text);
        if number(trim(item)).is_none() {
            return false;
        }
        rest = after;
    }
    true
}

/// Whether items between commas are numbers or names.
pub fn are_words(items: &[u8]) -> bool
    ensures { result ≡ is_some (all_of written_of (items_of items.now)) }
{
    let mut rest = Some(items);
    'items: while let Some(text) = rest {
        let (item, after) = first_part(b',', text);
        if written_in(trim(item)).is_none() {
            return false;
        }
        rest = after;
    }
    true
}

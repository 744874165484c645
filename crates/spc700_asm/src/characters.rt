//! Blanks, names and numbers in a source.
ghost use Rattle.std.specs.Prelude.{◌≡◌, ◌+◌, ◌*◌, ◌<◌, ◌≤◌, ◌==◌, ◌^◌, length, position, reverse, map, IfSome};
ghost use Rattle.std.specs.List.{before_first, after_first, list_all};
ghost use Rattle.std.specs.Str.{bytes_eq};
ghost use Rattle.hex.specs.Hex.{hex_digit_value};
ghost use Rattle.spc700_asm.specs.Characters.{is_blank, is_semicolon, is_name_character, is_name, trim, without_first_blanks, capitals, hex_number, decimal_number, number_of_hex_digits, number_of};

use text_form::{decimal_value, is_number};

/// The most characters of a name.
const MAX_NAME_CHARACTERS: usize = 32;

/// A blank: a space, a tab or a carriage return.
pub fn is_blank(character: u8) -> bool
    ensures { result ≡ is_blank character }
{
    character == b' ' || character == b'\t' || character == b'\r'
}

/// A text without the blanks that it begins with.
fn without_first_blanks(text: &[u8]) -> &[u8]
    ensures { result.now ≡ without_first_blanks text.now }
{
    let mut rest = text;
    'blanks: while let [first, after @ ..] = rest {
        if !is_blank(*first) {
            break;
        }
        rest = after;
    }
    rest
}

/// A text without the blanks that it ends with.
fn without_last_blanks(text: &[u8]) -> &[u8]
    ensures { result.now ≡ reverse (without_first_blanks (reverse text.now)) }
{
    let mut rest = text;
    'blanks: while let [before @ .., last] = rest {
        if !is_blank(*last) {
            break;
        }
        rest = before;
    }
    rest
}

/// A text without the blanks at both ends.
#[tactic(auto, unfolding(crate::specs::Characters::trim))]
pub fn trim(text: &[u8]) -> &[u8]
    ensures { result.now ≡ trim text.now }
{
    without_last_blanks(without_first_blanks(text))
}

/// The place of the first blank.
pub fn blank_place(text: &[u8]) -> Option<usize>
    ensures place { result ≡ position is_blank text.now }
    ensures inside { IfSome result (λ place. place < length text.now) }
{
    text.iter().position(|character| is_blank(*character))
}

/// A letter, a digit or `_`.
pub fn is_name_character(character: u8) -> bool
    ensures { result ≡ is_name_character character }
{
    character.is_ascii_alphanumeric() || character == b'_'
}

/// Whether there is no other character.
fn are_name_characters(text: &[u8]) -> bool
    ensures { result ≡ list_all is_name_character text.now }
{
    text.iter().all(|character| is_name_character(*character))
}

/// Whether a text is a name.
#[tactic(auto, unfolding(crate::specs::Characters::is_name))]
pub fn is_name(text: &[u8]) -> bool
    ensures { result ≡ is_name text.now }
{
    if text.is_empty() || text.len() > MAX_NAME_CHARACTERS {
        return false;
    }
    !text[0].is_ascii_digit() && are_name_characters(text)
}

/// Whether a text is a name of capitals, its letters of either case.
pub fn is_capitals_of(text: &[u8], name: &[u8]) -> bool
    ensures { result ≡ bytes_eq (capitals text.now) name.now }
{
    let mut rest = text;
    for capital in name {
        let [character, after @ ..] = rest else {
            return false;
        };
        if character.to_ascii_uppercase() != *capital {
            return false;
        }
        rest = after;
    }
    rest.is_empty()
}

/// The value of a hexadecimal digit.
fn hex_digit(character: u8) -> Option<u32>
    ensures value { result ≡ hex_digit_value character }
    ensures bound { IfSome result (λ digit. digit < 16) }
{
    match character {
        b'A'..=b'F' => Some(u32::from(character - 55)),
        b'a'..=b'f' => Some(u32::from(character - 87)),
        b'0'..=b'9' => Some(u32::from(character - 48)),
        _ => None,
    }
}

/// A number of 1 to 4 hexadecimal digits.
fn hex_number(digits: &[u8]) -> Option<u32>
    ensures value { result ≡ hex_number digits.now }
    ensures bound { IfSome result (λ number. number < 100000) }
{
    if digits.is_empty() || digits.len() > 4 {
        return None;
    }
    let mut number = 0;
    for digit in digits {
        number = number * 16 + hex_digit(*digit)?;
    }
    Some(number)
}

/// A number of 1 to 5 decimal digits.
fn decimal_number(digits: &[u8]) -> Option<u32>
    ensures value { result ≡ decimal_number digits.now }
    ensures bound { IfSome result (λ number. number < 100000) }
{
    if is_number(5, digits) {
        Some(decimal_value(digits) as u32)
    } else {
        None
    }
}

/// The number that a text is: `$` and hexadecimal digits, or decimal digits.
#[tactic(auto, unfolding(crate::specs::Characters::number_of))]
pub fn number(text: &[u8]) -> Option<u32>
    ensures value { result ≡ number_of text.now }
    ensures bound { IfSome result (λ number. number < 100000) }
{
    match text {
        [] => None,
        [b'$', digits @ ..] => hex_number(digits),
        _ => decimal_number(text),
    }
}

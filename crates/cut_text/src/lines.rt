// The lines of a text, the words of a line, and the numbers that words are.
ghost use Rattle.std.specs.Prelude.{◌≡◌, ◌<◌, ◌∷◌, [], length, IfSome, IfNone};
ghost use Rattle.cut_form.specs.TextLines.{text_lines, without_return, max_digits, number_of_word};
ghost use Rattle.cut_text.specs.Reading.{number_bound};

use text_form::{decimal_value, first_part, is_number};

/// The most digits of a number.
const MAX_DIGITS: usize = 9;

/// A line without the carriage return at its end.
fn without_return(line: &[u8]) -> &[u8]
    ensures { result.now ≡ without_return line.now }
{
    let Some((last, front)) = line.split_last() else {
        return line;
    };
    if *last == b'\r' { front } else { line }
}

/// The first line of a text and what stands after it, unless nothing is left.
pub fn first_line(text: &[u8]) -> Option<(&[u8], &[u8])>
    ensures lines { IfSome result (λ first. text_lines text.now ≡ first.0.now ∷ text_lines first.1.now) }
    ensures shorter { IfSome result (λ first. length first.1.now < length text.now) }
    ensures none { IfNone result (text_lines text.now ≡ []) }
{
    if text.is_empty() {
        return None;
    }
    let (line, rest) = first_part(b'\n', text);
    match rest {
        Some(after) => Some((without_return(line), after)),
        None => Some((without_return(line), &[])),
    }
}

/// The number that a word is, which has 1 to 9 digits.
pub fn number_in(word: &[u8]) -> Option<u32>
    ensures number { result ≡ number_of_word word.now }
    ensures small { IfSome result (λ number. number < number_bound) }
{
    if is_number(MAX_DIGITS, word) {
        Some(decimal_value(word) as u32)
    } else {
        None
    }
}

// The lines that a text says.
ghost use Rattle.std.specs.Prelude.{◌≡◌, ◌∷◌, ◌==◌, ◌≤◌, [], Some, None, Ok, IfOk, IfErr, IfSome, codes, if◌then◌else◌};
ghost use Rattle.std.specs.Str.{bytes_eq};
ghost use Rattle.std.specs.List.{slice_split};
ghost use Rattle.num_fix.specs.Limits.{max_frames};
ghost use Rattle.cut_form.specs.declared.script.ScriptLine.TheVariants as lines;
ghost use Rattle.cut_form.specs.TextLines.{line_words};
ghost use Rattle.cut_form.specs.Script.{line_of_words, script_lines};
ghost use Rattle.cut_text.specs.Reading.{Reports};
ghost use Rattle.cut_text.specs.Playing.{IsWithinHour};

use crate::lines::{first_line, number_in};
use crate::{ScriptLines, TextRefusal};
use cut_form::{MAX_FRAMES, ScriptLine};
use std::alloc::Global;
use text_form::first_part;

/// The line of a name alone.
fn lone_word_line(name: &[u8]) -> Option<ScriptLine>
    ensures line { result ≡ line_of_words (name.now ∷ []) }
    ensures within { IfSome result (λ line. IsWithinHour line) }
{
    if name == b"mark".as_slice() {
        Some(ScriptLine::Mark)
    } else if name == b"free".as_slice() {
        Some(ScriptLine::Free)
    } else {
        None
    }
}

/// The line of a name and a number.
fn named_line(name: &[u8], number: u32) -> Option<ScriptLine>
    requires { number ≤ max_frames }
    ensures line { result ≡ if bytes_eq name.now (codes "seek") then Some (lines.Seek number)
        else if bytes_eq name.now (codes "play") then Some (lines.Play number)
        else if bytes_eq name.now (codes "drop") then Some (lines.Drop number) else None }
    ensures within { IfSome result (λ line. IsWithinHour line) }
{
    if name == b"seek".as_slice() {
        Some(ScriptLine::Seek(number))
    } else if name == b"play".as_slice() {
        Some(ScriptLine::Play(number))
    } else if name == b"drop".as_slice() {
        Some(ScriptLine::Drop(number))
    } else {
        None
    }
}

/// The line that a name and another word say.
fn numbered_line(name: &[u8], word: &[u8]) -> Option<ScriptLine>
    ensures line { result ≡ line_of_words (name.now ∷ (word.now ∷ [])) }
    ensures within { IfSome result (λ line. IsWithinHour line) }
{
    match number_in(word) {
        Some(number) if number <= MAX_FRAMES => named_line(name, number),
        _ => None,
    }
}

/// The line that a name and what stands after its space say.
fn line_after(name: &[u8], rest: &[u8]) -> Option<ScriptLine>
    ensures line { result ≡ line_of_words (name.now ∷ slice_split (λ character. character == 32) rest.now) }
    ensures within { IfSome result (λ line. IsWithinHour line) }
{
    let (word, more) = first_part(b' ', rest);
    match more {
        Some(_) => None,
        None => numbered_line(name, word),
    }
}

/// The line that a text says.
pub(crate) fn line_in(line: &[u8]) -> Option<ScriptLine>
    ensures line { result ≡ line_of_words (line_words line.now) }
    ensures within { IfSome result (λ line. IsWithinHour line) }
{
    let (name, rest) = first_part(b' ', line);
    match rest {
        Some(rest) => line_after(name, rest),
        None => lone_word_line(name),
    }
}

/// Reads the lines of a script: `seek N`, `play N`, `mark`, `drop N` or `free`.
pub fn read_script(alloc: Global, text: &[u8]) -> Result<ScriptLines, TextRefusal>
    ensures lines { IfOk result (λ lines. script_lines text.now ≡ Ok lines) }
    ensures wrong { IfErr result (λ refusal. Reports refusal (script_lines text.now)) }
{
    let mut list = ScriptLines::new(alloc);
    let mut rest = text;
    'lines: while let Some((line, after)) = first_line(rest) {
        list.add_line(line)?;
        rest = after;
    }
    Ok(list)
}

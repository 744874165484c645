// The options of `encode`.
ghost use Rattle.std.specs.Prelude.{◌≡◌, ◌<◌, ◌≤◌, length, map, string_bytes, Some, None, IfSome};
ghost use Rattle.brr_search.specs.Options.{AreInRange, max_candidates};
ghost use Rattle.command_line.specs.EncodeWords.{candidates_in, loop_at_in, with_loop, encode_options_with, encode_options_from, encode_options_in};

use brr_search::{EncodeOptions, MAX_CANDIDATES};
use text_form::{decimal_value, is_number};

/// The most samples of a sound that is encoded.
const MAX_SAMPLES: u64 = brr_encode::MAX_SAMPLES as u64;

/// The number of candidates that a word says.
fn candidates_in(word: &[u8]) -> Option<u8>
    ensures value { result ≡ candidates_in word.now }
    ensures in_range { IfSome result (λ candidates. candidates ≤ max_candidates) }
{
    if !is_number(2, word) {
        return None;
    }
    let candidates = decimal_value(word);
    if (1..=u64::from(MAX_CANDIDATES)).contains(&candidates) {
        Some(candidates as u8)
    } else {
        None
    }
}

/// The sample that a word says.
fn loop_at_in(word: &[u8]) -> Option<u32>
    ensures { result ≡ loop_at_in word.now }
{
    if !is_number(6, word) {
        return None;
    }
    let sample = decimal_value(word);
    if sample <= MAX_SAMPLES && sample % 16 == 0 {
        Some(sample as u32)
    } else {
        None
    }
}

/// The options with `--loop`, unless it was given before.
fn with_loop(options: EncodeOptions) -> Option<EncodeOptions>
    requires { AreInRange options }
    ensures options { result ≡ with_loop options }
    ensures in_range { IfSome result (λ options. AreInRange options) }
{
    if options.looped {
        None
    } else {
        Some(EncodeOptions {
            looped: true,
            ..options
        })
    }
}

/// The options with one more that has a value, unless it was given before or its value is out of form.
fn options_with(options: EncodeOptions, name: &str, value: &str) -> Option<EncodeOptions>
    requires { AreInRange options }
    ensures options { result ≡ encode_options_with options name.now value.now }
    ensures in_range { IfSome result (λ options. AreInRange options) }
{
    match name {
        "--search" => match (options.candidates, candidates_in(value.as_bytes())) {
            (None, Some(candidates)) => Some(EncodeOptions {
                candidates: Some(candidates),
                ..options
            }),
            _ => None,
        },
        "--loop-at" => match (options.loop_at, loop_at_in(value.as_bytes())) {
            (None, Some(sample)) => Some(EncodeOptions {
                loop_at: Some(sample),
                ..options
            }),
            _ => None,
        },
        _ => None,
    }
}

/// The options with one more, and the words after it.
#[derive(Clone, Copy)]
struct OptionTaken<'a> {
    options: EncodeOptions,
    rest: &'a [String],
}

/// The options that were taken, if they were, and the words after them.
fn taken(options: Option<EncodeOptions>, rest: &[String]) -> Option<OptionTaken<'_>>
    ensures none { result ≡ None → options ≡ None }
    ensures options { IfSome result (λ taken. options ≡ Some taken.options) }
    ensures rest { IfSome result (λ taken. taken.rest.now ≡ rest.now) }
{
    match options {
        Some(options) => Some(OptionTaken { options, rest }),
        None => None,
    }
}

/// Takes one option from words: `--loop`, or a name with its value.
fn take_option(options: EncodeOptions, words: &[String]) -> Option<OptionTaken<'_>>
    requires in_range { AreInRange options }
    requires some { 0 < length words.now }
    ensures none { result ≡ None → encode_options_from (Some options) (map string_bytes words.now) ≡ None }
    ensures options { IfSome result (λ taken.
        encode_options_from (Some options) (map string_bytes words.now) ≡ encode_options_from (Some taken.options) (map string_bytes taken.rest.now)) }
    ensures in_range { IfSome result (λ taken. AreInRange taken.options) }
    ensures fewer { IfSome result (λ taken. length taken.rest.now < length words.now) }
{
    match words {
        [name, rest @ ..] if name.as_str() == "--loop" => taken(with_loop(options), rest),
        [name, value, rest @ ..] => {
            taken(options_with(options, name.as_str(), value.as_str()), rest)
        }
        _ => None,
    }
}

/// Reads the options: `--loop`, and names with their values, each once at most.
pub fn read_encode_options(words: &[String]) -> Option<EncodeOptions>
    ensures options { result ≡ encode_options_in (map string_bytes words.now) }
    ensures in_range { IfSome result (λ options. AreInRange options) }
{
    let mut options = EncodeOptions {
        looped: false,
        candidates: None,
        loop_at: None,
    };
    let mut rest = words;
    'options: while !rest.is_empty() {
        match take_option(options, rest) {
            Some(taken) => {
                options = taken.options;
                rest = taken.rest;
            }
            None => return None,
        }
    }
    Some(options)
}

// The options of `render`, and numbers, addresses and pages.
ghost use Rattle.std.specs.Prelude.{◌≡◌, ◌≤◌, map, string_bytes, option_map, true, IfSome};
ghost use Rattle.page_pool.specs.Pool.{max_pages};
ghost use Rattle.cut_form.specs.Checkpoints.{min_pages};
ghost use Rattle.command_render.specs.Options.{options_of, SamplesWithinHour};
ghost use Rattle.command_line.specs.Options.{is_name, count_in, demo_number_in, name_in, voices_in, origin_in, range_in, pages_in, options_with, options_in};

use command_render::RenderOptions;
use cut_form::{MAX_FRAMES, PAGE_COUNT};
use text_form::{decimal_value, is_number};

/// The greatest number of a demo file.
const MAX_NUMBER: u64 = 4294967295;

/// The fewest and the most pages for the checkpoints of a session.
const MIN_PAGES: u64 = PAGE_COUNT as u64;

const MAX_PAGES: u64 = page_pool::MAX_PAGES as u64;

/// Whether a word may name a file.
pub fn is_name(word: &str) -> bool
    ensures { result ≡ is_name word.now }
{
    match word.as_bytes() {
        [] => false,
        [first, ..] => *first != b'-',
    }
}

/// The number of samples that a word says.
fn count_in(word: &[u8]) -> Option<u32>
    ensures value { result ≡ count_in word.now }
    ensures within_hour { SamplesWithinHour result }
{
    if !is_number(9, word) {
        return None;
    }
    let count = decimal_value(word);
    if count <= u64::from(MAX_FRAMES) {
        Some(count as u32)
    } else {
        None
    }
}

/// The number of a demo file that a word says.
pub fn demo_number_in(word: &[u8]) -> Option<u32>
    ensures { result ≡ demo_number_in word.now }
{
    if !is_number(10, word) {
        return None;
    }
    let number = decimal_value(word);
    if number <= MAX_NUMBER {
        Some(number as u32)
    } else {
        None
    }
}

/// The number of pages that a word says.
pub fn pages_in(word: &[u8]) -> Option<u32>
    ensures value { result ≡ pages_in word.now }
    ensures in_range { IfSome result (λ pages. (min_pages ≤ pages) × (pages ≤ max_pages)) }
{
    if !is_number(5, word) {
        return None;
    }
    let pages = decimal_value(word);
    if (MIN_PAGES..=MAX_PAGES).contains(&pages) {
        Some(pages as u32)
    } else {
        None
    }
}

/// The name that a word says.
fn name_in(word: &str) -> Option<&str>
    ensures { option_map (λ name. name.now) result ≡ name_in word.now }
{
    if is_name(word) { Some(word) } else { None }
}

/// The voices that a word says.
pub fn voices_in(word: &[u8]) -> Option<u8>
    ensures { result ≡ voices_in word.now }
{
    let mut voices = [0u8; 1];
    match hex::decode_to_slice(word, &mut voices) {
        Ok(()) => Some(voices[0]),
        Err(_) => None,
    }
}

/// The address that a word says: four hexadecimal digits of either case.
pub fn origin_in(word: &[u8]) -> Option<u16>
    ensures { result ≡ origin_in word.now }
{
    let mut origin = [0u8; 2];
    match hex::decode_to_slice(word, &mut origin) {
        Ok(()) => {
            let [high, low] = origin;
            Some(0x100 * u16::from(high) + u16::from(low))
        }
        Err(_) => None,
    }
}

/// The range of entries that a word says, from a first to a last.
pub fn range_in(word: &[u8]) -> Option<(u8, u8)>
    ensures { result ≡ range_in word.now }
{
    let mut ends = [0u8; 2];
    match hex::decode_to_slice(word, &mut ends) {
        Ok(()) if ends[0] <= ends[1] => Some((ends[0], ends[1])),
        _ => None,
    }
}

/// The options with one more, unless it was given before or its value is out of form.
fn options_with<'a>(
    options: RenderOptions<'a>,
    name: &str,
    value: &'a str,
) -> Option<RenderOptions<'a>>
    requires { SamplesWithinHour options.samples }
    ensures options { option_map options_of result ≡ options_with (options_of options.entry) name.now value.now }
    ensures within_hour { IfSome result (λ options. SamplesWithinHour options.samples) }
{
    match name {
        "--samples" => match (options.samples, count_in(value.as_bytes())) {
            (None, Some(samples)) => Some(RenderOptions {
                samples: Some(samples),
                ..options
            }),
            _ => None,
        },
        "--trace" => match (options.trace, name_in(value)) {
            (None, Some(trace)) => Some(RenderOptions {
                trace: Some(trace),
                ..options
            }),
            _ => None,
        },
        "--voices" => match (options.voices, voices_in(value.as_bytes())) {
            (None, Some(voices)) => Some(RenderOptions {
                voices: Some(voices),
                ..options
            }),
            _ => None,
        },
        "--mute" => match (options.muted, voices_in(value.as_bytes())) {
            (None, Some(muted)) => Some(RenderOptions {
                muted: Some(muted),
                ..options
            }),
            _ => None,
        },
        _ => None,
    }
}

/// Reads the options: names and values in turn, each name once at most.
pub fn read_options(words: &[String]) -> Option<RenderOptions<'_>>
    ensures options { option_map options_of result ≡ options_in (map string_bytes words.now) }
    ensures within_hour { IfSome result (λ options. SamplesWithinHour options.samples) }
{
    let mut options = RenderOptions {
        samples: None,
        trace: None,
        voices: None,
        muted: None,
    };
    let mut rest = words;
    'options: while let [name, value, tail @ ..] = rest {
        match options_with(options, name.as_str(), value.as_str()) {
            Some(more) => options = more,
            None => return None,
        }
        rest = tail;
    }
    if rest.is_empty() { Some(options) } else { None }
}

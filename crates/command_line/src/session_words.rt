// The options of `serve` and of `cuts`.
ghost use Rattle.std.specs.Prelude.{◌≡◌, map, string_bytes, Some, IfSome};
ghost use Rattle.command_serve.specs.Serve.{AreOptionsInRange};
ghost use Rattle.command_line.specs.Options.{options_from};
ghost use Rattle.command_line.specs.SessionWords.{ArePagesInRange, none_given, given_with, session_options, session_options_in, muted_in};

use crate::options::{pages_in, voices_in};
use command_serve::SessionOptions;
use cut_form::SLOTS_FOR_CUTS;

/// The options of `serve`, each with its value where it was given.
#[derive(Clone, Copy)]
pub struct GivenOptions {
    pub pages: Option<u32>,
    pub muted: Option<u8>,
}

/// The options with one more, unless it was given before or its value is out of form.
fn given_with(given: GivenOptions, name: &str, value: &str) -> Option<GivenOptions>
    requires { ArePagesInRange given }
    ensures options { result ≡ given_with given name.now value.now }
    ensures in_range { IfSome result (λ given. ArePagesInRange given) }
{
    match name {
        "--pages" => match (given.pages, pages_in(value.as_bytes())) {
            (None, Some(pages)) => Some(GivenOptions {
                pages: Some(pages),
                ..given
            }),
            _ => None,
        },
        "--mute" => match (given.muted, voices_in(value.as_bytes())) {
            (None, Some(muted)) => Some(GivenOptions {
                muted: Some(muted),
                ..given
            }),
            _ => None,
        },
        _ => None,
    }
}

/// Reads what is given: names and values in turn, each name once at most.
fn read_given(words: &[String]) -> Option<GivenOptions>
    ensures options { result ≡ options_from given_with (Some none_given) (map string_bytes words.now) }
    ensures in_range { IfSome result (λ given. ArePagesInRange given) }
{
    let mut given = GivenOptions {
        pages: None,
        muted: None,
    };
    let mut rest = words;
    'options: while let [name, value, tail @ ..] = rest {
        match given_with(given, name.as_str(), value.as_str()) {
            Some(more) => given = more,
            None => return None,
        }
        rest = tail;
    }
    if rest.is_empty() { Some(given) } else { None }
}

/// What was given, and what is usual for the rest.
fn session_options(given: GivenOptions) -> SessionOptions
    requires { ArePagesInRange given }
    ensures options { result ≡ session_options given }
    ensures in_range { AreOptionsInRange result }
{
    SessionOptions {
        pages: given.pages.unwrap_or(SLOTS_FOR_CUTS),
        muted: given.muted.unwrap_or(0),
    }
}

/// Reads the options of `serve`.
pub fn read_session_options(words: &[String]) -> Option<SessionOptions>
    ensures options { result ≡ session_options_in (map string_bytes words.now) }
    ensures in_range { IfSome result (λ options. AreOptionsInRange options) }
{
    match read_given(words) {
        Some(given) => Some(session_options(given)),
        None => None,
    }
}

/// Reads the muted voices of `cuts`.
pub fn read_muted(words: &[String]) -> Option<u8>
    ensures { result ≡ muted_in (map string_bytes words.now) }
{
    match words {
        [] => Some(0),
        [name, voices] if name.as_str() == "--mute" => voices_in(voices.as_bytes()),
        _ => None,
    }
}

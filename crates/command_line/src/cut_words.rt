// The words after `cuts` and `serve`.
ghost use Rattle.std.specs.Prelude.{◌≡◌, map, string_bytes, IfSome};
ghost use Rattle.command_line.specs.Command.{cuts_with, cuts_command, serve_with, serve_command};
ghost use Rattle.command_serve.specs.Serve.{AreOptionsInRange};
ghost use Rattle.command_line.specs.Meaning.{meaning_of, AreInRange};

use crate::options::is_name;
use crate::session_words::{read_muted, read_session_options};
use crate::words::Command;
use command_serve::SessionOptions;

/// The command `cuts` with these names and muted voices.
fn cuts_with<'a>(
    file: &'a str,
    table: &'a str,
    list: &'a str,
    wave: &'a str,
    muted: Option<u8>,
) -> Command<'a>
    ensures meaning { meaning_of result ≡ cuts_with file.now table.now list.now wave.now muted }
    ensures in_range { AreInRange result }
{
    match muted {
        Some(muted) => Command::Cuts {
            file,
            table,
            list,
            wave,
            muted,
        },
        None => Command::Usage,
    }
}

/// Reads the words after `cuts`.
pub fn read_cuts_command(words: &[String]) -> Command<'_>
    ensures meaning { meaning_of result ≡ cuts_command (map string_bytes words.now) }
    ensures in_range { AreInRange result }
{
    match words {
        [file, table, list, wave, options @ ..]
            if is_name(file.as_str())
                && is_name(table.as_str())
                && is_name(list.as_str())
                && is_name(wave.as_str()) => {
            cuts_with(
                file.as_str(),
                table.as_str(),
                list.as_str(),
                wave.as_str(),
                read_muted(options),
            )
        }
        _ => Command::Usage,
    }
}

/// The command `serve` with these names and options.
fn serve_with<'a>(
    file: &'a str,
    table: &'a str,
    script: &'a str,
    wave: &'a str,
    options: Option<SessionOptions>,
) -> Command<'a>
    requires { IfSome options (λ options. AreOptionsInRange options) }
    ensures meaning { meaning_of result ≡ serve_with file.now table.now script.now wave.now options }
    ensures in_range { AreInRange result }
{
    match options {
        Some(options) => Command::Serve {
            file,
            table,
            script,
            wave,
            options,
        },
        None => Command::Usage,
    }
}

/// Reads the words after `serve`.
pub fn read_serve_command(words: &[String]) -> Command<'_>
    ensures meaning { meaning_of result ≡ serve_command (map string_bytes words.now) }
    ensures in_range { AreInRange result }
{
    match words {
        [file, table, script, wave, options @ ..]
            if is_name(file.as_str())
                && is_name(table.as_str())
                && is_name(script.as_str())
                && is_name(wave.as_str()) => {
            serve_with(
                file.as_str(),
                table.as_str(),
                script.as_str(),
                wave.as_str(),
                read_session_options(options),
            )
        }
        _ => Command::Usage,
    }
}

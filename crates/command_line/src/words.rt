// The words of the command line.
ghost use Rattle.std.specs.Prelude.{◌≡◌, map, string_bytes, option_map, IfSome};
ghost use Rattle.command_line.specs.Command.{command_of, alone, brr_command, info_command, encode_with, encode_command, have_same_name, render_with, render_command, demo_command, check_command, asm_command, dis_command, rip_with, rip_over, rip_command};
ghost use Rattle.brr_search.specs.Options as encoding;
ghost use Rattle.command_render.specs.Options.{options_of, SamplesWithinHour};
ghost use Rattle.command_line.specs.Meaning.{meaning_of, AreInRange};

use crate::cut_words::{read_cuts_command, read_serve_command};
use crate::encode_words::read_encode_options;
use crate::options::{demo_number_in, is_name, origin_in, range_in, read_options};
use brr_search::EncodeOptions;
use command_render::RenderOptions;
use command_serve::SessionOptions;

/// A command with its names.
#[derive(Clone, Copy)]
pub enum Command<'a> {
    Usage,
    Help,
    Version,
    Brr {
        input: &'a str,
        output: &'a str,
    },
    Info {
        input: &'a str,
    },
    Encode {
        input: &'a str,
        output: &'a str,
        options: EncodeOptions,
    },
    Render {
        file: &'a str,
        table: &'a str,
        wave: &'a str,
        options: RenderOptions<'a>,
    },
    Demo {
        number: u32,
        output: &'a str,
    },
    Check {
        number: u32,
    },
    Asm {
        input: &'a str,
        origin: u16,
        output: &'a str,
    },
    Dis {
        input: &'a str,
        origin: u16,
        output: &'a str,
    },
    Rip {
        file: &'a str,
        prefix: &'a str,
        range: Option<(u8, u8)>,
    },
    Cuts {
        file: &'a str,
        table: &'a str,
        list: &'a str,
        wave: &'a str,
        muted: u8,
    },
    Serve {
        file: &'a str,
        table: &'a str,
        script: &'a str,
        wave: &'a str,
        options: SessionOptions,
    },
}

/// Reads the words after a command that stands alone.
fn read_alone<'a>(command: Command<'a>, words: &[String]) -> Command<'a>
    requires { AreInRange command }
    ensures meaning { meaning_of result ≡ alone (meaning_of command.entry) (map string_bytes words.now) }
    ensures in_range { AreInRange result }
{
    if words.is_empty() {
        command
    } else {
        Command::Usage
    }
}

/// Reads the words after `brr`.
fn read_brr(words: &[String]) -> Command<'_>
    ensures meaning { meaning_of result ≡ brr_command (map string_bytes words.now) }
    ensures in_range { AreInRange result }
{
    match words {
        [input, output] if is_name(input.as_str()) && is_name(output.as_str()) => Command::Brr {
            input: input.as_str(),
            output: output.as_str(),
        },
        _ => Command::Usage,
    }
}

/// Reads the words after `info`.
fn read_info(words: &[String]) -> Command<'_>
    ensures meaning { meaning_of result ≡ info_command (map string_bytes words.now) }
    ensures in_range { AreInRange result }
{
    match words {
        [input] if is_name(input.as_str()) => Command::Info {
            input: input.as_str(),
        },
        _ => Command::Usage,
    }
}

/// The command `encode` with these names and options.
fn encode_with<'a>(input: &'a str, output: &'a str, options: Option<EncodeOptions>) -> Command<'a>
    requires { IfSome options (λ options. encoding.AreInRange options) }
    ensures meaning { meaning_of result ≡ encode_with input.now output.now options }
    ensures in_range { AreInRange result }
{
    match options {
        Some(options) => Command::Encode {
            input,
            output,
            options,
        },
        None => Command::Usage,
    }
}

/// Reads the words after `encode`.
fn read_encode(words: &[String]) -> Command<'_>
    ensures meaning { meaning_of result ≡ encode_command (map string_bytes words.now) }
    ensures in_range { AreInRange result }
{
    match words {
        [input, output, options @ ..] if is_name(input.as_str()) && is_name(output.as_str()) => {
            encode_with(
                input.as_str(),
                output.as_str(),
                read_encode_options(options),
            )
        }
        _ => Command::Usage,
    }
}

/// Whether the sound file and the trace have the same name.
fn have_same_name(wave: &str, trace: Option<&str>) -> bool
    ensures { result ≡ have_same_name wave.now (option_map (λ name. name.now) trace.entry) }
{
    match trace {
        Some(trace) => wave == trace,
        None => false,
    }
}

/// The command `render` with these names and options.
fn render_with<'a>(
    file: &'a str,
    table: &'a str,
    wave: &'a str,
    options: Option<RenderOptions<'a>>,
) -> Command<'a>
    requires { IfSome options (λ options. SamplesWithinHour options.samples) }
    ensures meaning { meaning_of result ≡ render_with file.now table.now wave.now (option_map options_of options.entry) }
    ensures in_range { AreInRange result }
{
    match options {
        Some(options) if !have_same_name(wave, options.trace) => Command::Render {
            file,
            table,
            wave,
            options,
        },
        _ => Command::Usage,
    }
}

/// Reads the words after `render`.
fn read_render(words: &[String]) -> Command<'_>
    ensures meaning { meaning_of result ≡ render_command (map string_bytes words.now) }
    ensures in_range { AreInRange result }
{
    match words {
        [file, table, wave, options @ ..]
            if is_name(file.as_str()) && is_name(table.as_str()) && is_name(wave.as_str()) => {
            render_with(
                file.as_str(),
                table.as_str(),
                wave.as_str(),
                read_options(options),
            )
        }
        _ => Command::Usage,
    }
}

/// Reads the words after `demo`.
fn read_demo(words: &[String]) -> Command<'_>
    ensures meaning { meaning_of result ≡ demo_command (map string_bytes words.now) }
    ensures in_range { AreInRange result }
{
    match words {
        [number, output] if is_name(output.as_str()) => match demo_number_in(number.as_bytes()) {
            Some(number) => Command::Demo {
                number,
                output: output.as_str(),
            },
            None => Command::Usage,
        },
        _ => Command::Usage,
    }
}

/// Reads the words after `check`.
fn read_check(words: &[String]) -> Command<'_>
    ensures meaning { meaning_of result ≡ check_command (map string_bytes words.now) }
    ensures in_range { AreInRange result }
{
    match words {
        [number] => match demo_number_in(number.as_bytes()) {
            Some(number) => Command::Check { number },
            None => Command::Usage,
        },
        _ => Command::Usage,
    }
}

/// Reads the words after `asm`.
fn read_asm(words: &[String]) -> Command<'_>
    ensures meaning { meaning_of result ≡ asm_command (map string_bytes words.now) }
    ensures in_range { AreInRange result }
{
    match words {
        [input, origin, output] if is_name(input.as_str()) && is_name(output.as_str()) => {
            match origin_in(origin.as_bytes()) {
                Some(origin) => Command::Asm {
                    input: input.as_str(),
                    origin,
                    output: output.as_str(),
                },
                None => Command::Usage,
            }
        }
        _ => Command::Usage,
    }
}

/// The command `rip` with these names and a range, which its word has to say.
fn rip_with<'a>(file: &'a str, prefix: &'a str, range: Option<(u8, u8)>) -> Command<'a>
    ensures meaning { meaning_of result ≡ rip_with file.now prefix.now range }
    ensures in_range { AreInRange result }
{
    match range {
        Some(range) => Command::Rip {
            file,
            prefix,
            range: Some(range),
        },
        None => Command::Usage,
    }
}

/// Reads the words after the names of `rip`.
fn rip_over<'a>(file: &'a str, prefix: &'a str, words: &[String]) -> Command<'a>
    ensures meaning { meaning_of result ≡ rip_over file.now prefix.now (map string_bytes words.now) }
    ensures in_range { AreInRange result }
{
    match words {
        [] => Command::Rip {
            file,
            prefix,
            range: None,
        },
        [option, range] if option.as_str() == "--range" => {
            rip_with(file, prefix, range_in(range.as_bytes()))
        }
        _ => Command::Usage,
    }
}

/// Reads the words after `dis`.
fn read_dis(words: &[String]) -> Command<'_>
    ensures meaning { meaning_of result ≡ dis_command (map string_bytes words.now) }
    ensures in_range { AreInRange result }
{
    match words {
        [input, origin, output] if is_name(input.as_str()) && is_name(output.as_str()) => {
            match origin_in(origin.as_bytes()) {
                Some(origin) => Command::Dis {
                    input: input.as_str(),
                    origin,
                    output: output.as_str(),
                },
                None => Command::Usage,
            }
        }
        _ => Command::Usage,
    }
}

/// Reads the words after `rip`.
fn read_rip(words: &[String]) -> Command<'_>
    ensures meaning { meaning_of result ≡ rip_command (map string_bytes words.now) }
    ensures in_range { AreInRange result }
{
    match words {
        [file, prefix, options @ ..] if is_name(file.as_str()) && is_name(prefix.as_str()) => {
            rip_over(file.as_str(), prefix.as_str(), options)
        }
        _ => Command::Usage,
    }
}

/// Reads the words of the command line.
#[tactic(auto, using(std::proofs::lemmas::Grind::common_steps))]
pub fn read_words(words: &[String]) -> Command<'_>
    ensures meaning { meaning_of result ≡ command_of (map string_bytes words.now) }
    ensures in_range { AreInRange result }
{
    match words {
        [] => Command::Usage,
        [name, rest @ ..] => match name.as_str() {
            "help" | "--help" => read_alone(Command::Help, rest),
            "version" | "--version" => read_alone(Command::Version, rest),
            "brr" => read_brr(rest),
            "info" => read_info(rest),
            "encode" => read_encode(rest),
            "render" => read_render(rest),
            "demo" => read_demo(rest),
            "check" => read_check(rest),
            "asm" => read_asm(rest),
            "dis" => read_dis(rest),
            "rip" => read_rip(rest),
            "cuts" => read_cuts_command(rest),
            "serve" => read_serve_command(rest),
            _ => Command::Usage,
        },
    }
}

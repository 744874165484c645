// The commands `help` and `version`: texts that need no input.
ghost use Rattle.std.specs.Prelude.{◌≡◌, []};
ghost use Rattle.snd_host.specs.Host.{HostState};
ghost use Rattle.command_runner.specs.NamedInputs.{Held};
ghost use Rattle.command_runner.specs.Conduct.{Plans};
ghost use Rattle.command_runner.specs.OutputCalls.{at_once};
ghost use Rattle.command_runner.specs.RunCalls.{AttemptsBy};
ghost use Rattle.command_runner.specs.Delivery.{CanDeliver};
ghost use Rattle.command_runner.specs.Plan.{plan_makes};
ghost use Rattle.command_help.specs.Help.{help_text, version_text, help_answer, version_answer};
ghost use Rattle.command_runner.specs.Answer.{done};

use command_runner::{Plan, Refusal, carry_out};
use exit_status::Cause;
use snd_host::Host;
use std::alloc::Global;

/// The commands with their words, a line each, and where the formats are described.
const HELP: &[u8] = b"\
spcwave renders SPC music files to WAV files. Its commands:\n\
\n\
\x20 spcwave render SPC TABLE WAV [--samples N] [--trace FILE] [--voices HH] [--mute HH]: render a tune, and trace it on request\n\
\x20 spcwave info SPC: show the tags and the registers of a tune\n\
\x20 spcwave brr IN OUT: decode BRR blocks to a WAV file\n\
\x20 spcwave encode WAV BRR [--loop] [--loop-at SAMPLE] [--search WIDTH]: encode a WAV file to BRR blocks\n\
\x20 spcwave demo NUMBER OUT: make a tune from a number\n\
\x20 spcwave check NUMBER: render that tune for ten seconds, and print sums over its frames\n\
\x20 spcwave asm IN ORIGIN OUT: assemble a program of the SPC700\n\
\x20 spcwave dis IN ORIGIN OUT: list a program of the SPC700\n\
\x20 spcwave rip SPC PREFIX [--range AABB]: write the samples of a tune to WAV files\n\
\x20 spcwave cuts SPC TABLE LIST WAV [--mute HH]: join the cuts of a tune that a list says\n\
\x20 spcwave serve SPC TABLE SCRIPT WAV [--pages N] [--mute HH]: seek, play, mark and drop in a tune as a script says\n\
\x20 spcwave help: print this text; --help does so too\n\
\x20 spcwave version: print the number of the version; --version does so too\n\
\n\
The manual page spcwave(1) and docs/FORMATS.md describe files, texts and exit statuses.\n\
";

/// The program's name and number.
const VERSION: &[u8] = b"spcwave 1.2.0\n";

/// The plan for a text.
fn plan<'a>(alloc: Global, text: &[u8]) -> Result<Plan<'a>, Refusal<Cause>>
    ensures { Plans plan_makes (done [] text.now) result }
{
    let report = Vec::from_slice(alloc, text)?;
    Ok(Plan {
        output: None,
        report,
    })
}

/// Reports the commands with their words, and where the formats are described.
pub fn help<H: Host>(alloc: Global, host: &mut H) -> Option<Refusal<Cause>>
    requires { CanDeliver (H.state host.old) }
    ensures attempts { let answer = λ (held : Held). help_answer in
        AttemptsBy at_once answer [] result (H.state host.old) (H.state host.new) }
    ensures not_usage { result ≡ Some Refusal.Usage → ⊥ }
{
    let prepared = plan(alloc, HELP);
    carry_out(host, prepared)
}

/// Reports the program's name and number.
pub fn version<H: Host>(alloc: Global, host: &mut H) -> Option<Refusal<Cause>>
    requires { CanDeliver (H.state host.old) }
    ensures attempts { let answer = λ (held : Held). version_answer in
        AttemptsBy at_once answer [] result (H.state host.old) (H.state host.new) }
    ensures not_usage { result ≡ Some Refusal.Usage → ⊥ }
{
    let prepared = plan(alloc, VERSION);
    carry_out(host, prepared)
}

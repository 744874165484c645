// The lines of complaint.
ghost use Rattle.std.specs.Prelude.{◌≡◌, ◌++◌, codes, decimal};
ghost use Rattle.snd_host.specs.Follows.{AreWrites, Follows};
ghost use Rattle.snd_host.specs.Host.{HostState};
ghost use Rattle.exit_status.specs.Lines.{fault_end, cause_line, refusal_line, code_length_line};

use crate::{Cause, LineFault};
use command_runner::{COMPLAINT, Complaint, Refusal, note_number};
use snd_host::{Failed, Host, write_all};
use text_form::four_digits;

/// The end of the line on a fault: the fault's name.
fn fault_end(fault: LineFault) -> &'static [u8]
    ensures { result.now ≡ fault_end fault }
{
    match fault {
        LineFault::Form => b": form\n",
        LineFault::Number => b": number\n",
        LineFault::Twice => b": twice\n",
        LineFault::Long => b": long\n",
        LineFault::Name => b": name\n",
        LineFault::Far => b": far\n",
    }
}

/// Writes the line on code that does not fit.
fn note_code_length<H: Host>(host: &mut H, length: usize, origin: u16) -> Result<(), Failed>
    ensures { Follows (AreWrites 1 (code_length_line length origin)) (H.state host.old) (H.state host.new) result }
{
    note_number(host, b"spcwave: ", length, b" bytes do not fit at ")?;
    write_all(host, COMPLAINT, &four_digits(origin))?;
    write_all(host, COMPLAINT, b"\n")
}

/// Writes the line of a cause.
fn note_cause<H: Host>(host: &mut H, cause: Cause) -> Result<(), Failed>
    ensures { Follows (AreWrites 1 (cause_line cause)) (H.state host.old) (H.state host.new) result }
{
    match cause {
        Cause::SpcLength(length) => note_number(
            host,
            b"spcwave: length ",
            length,
            b" is not that of an SPC file\n",
        ),
        Cause::SpcSignature(at) => note_number(host, b"spcwave: signature differs at ", at, b"\n"),
        Cause::TableLength(length) => note_number(
            host,
            b"spcwave: table has ",
            length,
            b" bytes, not 1024\n",
        ),
        Cause::BrrLength(length) => note_number(
            host,
            b"spcwave: length ",
            length,
            b" is not that of BRR blocks\n",
        ),
        Cause::EncodeSize(samples) => {
            note_number(host, b"spcwave: ", samples, b" samples cannot be encoded\n")
        }
        Cause::AsmLine { line, fault } => {
            note_number(host, b"spcwave: line ", line, fault_end(fault))
        }
        Cause::CodeLength { length, origin } => note_code_length(host, length, origin),
        Cause::CutList(line) => {
            note_number(host, b"spcwave: cut list is wrong at line ", line, b"\n")
        }
        Cause::Script(line) => {
            note_number(host, b"spcwave: script is wrong at line ", line, b"\n")
        }
        Cause::WavForm => write_all(host, COMPLAINT, b"spcwave: not a mono 16-bit PCM WAV\n"),
        Cause::InputTooLong => write_all(host, COMPLAINT, b"spcwave: input is too long\n"),
    }
}

impl Complaint for Cause {
    ghost line = { refusal_line };

    fn write_line<H: Host>(refusal: &Refusal<Cause>, host: &mut H) -> Result<(), Failed> {
        match refusal {
            Refusal::Usage => write_all(host, COMPLAINT, b"spcwave: words not understood\n"),
            Refusal::ReadFault => write_all(host, COMPLAINT, b"spcwave: input could not be read\n"),
            Refusal::WriteFault => write_all(
                host,
                COMPLAINT,
                b"spcwave: output could not be written\n",
            ),
            Refusal::OutOfMemory => write_all(host, COMPLAINT, b"spcwave: out of memory\n"),
            Refusal::Input(cause) => note_cause(host, *cause),
        }
    }
}

// The line of complaint.
ghost use Rattle.std.specs.Prelude.{◌≡◌, ℕ, List, ◌++◌, Option, None, decimal};
ghost use Rattle.snd_host.specs.Follows.{AreWrites, Follows};
ghost use Rattle.snd_host.specs.Host.{HostState};
ghost use Rattle.command_runner.specs.Answer.{line_of};
ghost use Rattle.command_runner.specs.RunCalls.{NotesLine};
ghost use Rattle.command_runner.specs.declared.refusals.Refusal.{Refusal};

use crate::Refusal;
use snd_host::{Failed, Host, OutFile, write_all};

/// The output that takes the complaint.
pub const COMPLAINT: OutFile = OutFile(1);

/// Why the bytes of an input are refused, in a program that has a line of complaint for every refusal.
pub trait Complaint: Sized {
    /// The line of a refusal, with a line feed at its end.
    ghost line: { Refusal Self → List ℕ };

    /// Writes the line of a refusal, or a prefix of it where a write fails.
    fn write_line<H: Host>(refusal: &Refusal<Self>, host: &mut H) -> Result<(), Failed>
        ensures { Follows (AreWrites 1 (line refusal.now)) (H.state host.old) (H.state host.new) result };
}

/// Writes a number between two texts to the complaint, in decimal digits.
pub fn note_number<H: Host>(
    host: &mut H,
    head: &[u8],
    number: usize,
    tail: &[u8],
) -> Result<(), Failed>
    ensures { Follows (AreWrites 1 (head.now ++ decimal number ++ tail.now)) (H.state host.old) (H.state host.new) result }
{
    write_all(host, COMPLAINT, head)?;
    let mut buffer = itoa::Buffer::new();
    write_all(host, COMPLAINT, buffer.format(number).as_bytes())?;
    write_all(host, COMPLAINT, tail)
}

/// Writes the complaint of an end: the line of its refusal, or nothing where nothing was refused.
pub fn complain<H: Host, C: Complaint + Drop>(host: &mut H, refusal: Option<Refusal<C>>)
    ensures complained { NotesLine (line_of C.line refusal) (H.state host.old) (H.state host.new) }
    ensures silent { refusal ≡ None → H.state host.new ≡ H.state host.old }
{
    match refusal {
        Some(refusal) => {
            let _ = C::write_line(&refusal, host);
        }
        None => {}
    }
}

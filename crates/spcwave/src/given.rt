// The edge of the program: what the command line gives, and what the process exits with.
ghost use Rattle.std.specs.Prelude.{◌≡◌, ◌≢◌, IfOk, IfErr};
ghost use Rattle.std.specs.IoError.{error_kind};
ghost use Rattle.snd_host.specs.Host.{HostState};
ghost use Rattle.spcwave.specs.FewOutputs.{HasFewOutputs};
ghost use Rattle.spcwave.specs.Given.{EndsAsGiven, ExitsWith};

use crate::run::run;
use command_runner::{Refusal, complain};
use exit_status::{Cause, Status, status_for};
use snd_host::Host;
use std::alloc::Global;
use std::io::{self, ErrorKind};

/// What the command line gives after the program's name.
#[derive(Drop)]
pub enum Given {
    Words(Vec<String>),
    /// A word is no text.
    NoText,
    /// There was no memory for the words.
    NoMemory,
}

/// What the command line gives, as its words were read or not.
pub fn given_of(read: io::Result<Vec<String>>) -> Given
    ensures words { IfOk read (λ words. result ≡ Given.Words words) }
    ensures no_memory { IfErr read (λ error. error_kind error ≡ ErrorKind.OutOfMemory → result ≡ Given.NoMemory) }
    ensures no_text { IfErr read (λ error. error_kind error ≢ ErrorKind.OutOfMemory → result ≡ Given.NoText) }
{
    match read {
        Ok(words) => Given::Words(words),
        Err(error) => match error.kind() {
            ErrorKind::OutOfMemory => Given::NoMemory,
            _ => Given::NoText,
        },
    }
}

/// Does what was given, and answers how it ended.
fn end_of<H: Host>(alloc: Global, given: &Given, host: &mut H) -> Status
    requires { HasFewOutputs (H.state host.old) }
    ensures { EndsAsGiven given.now (H.state host.old) (H.state host.new) result }
{
    match given {
        Given::Words(words) => run(alloc, words.as_slice(), host),
        // What is no text says no command, as no words do.
        Given::NoText => run(alloc, &[], host),
        Given::NoMemory => {
            let refusal = Some(Refusal::OutOfMemory);
            complain::<H, Cause>(host, refusal);
            status_for(refusal)
        }
    }
}

/// Does what was given, and answers the number that the process exits with.
pub fn run_given<H: Host>(alloc: Global, given: &Given, host: &mut H) -> u8
    requires { HasFewOutputs (H.state host.old) }
    ensures { ExitsWith given.now (H.state host.old) (H.state host.new) result }
{
    end_of(alloc, given, host).code()
}

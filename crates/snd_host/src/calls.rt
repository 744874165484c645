// The two loops over a host: a whole piece is written, and a whole input is read.
ghost use Rattle.std.specs.Prelude.{◌≡◌, ◌≤◌, length, IfOk};
ghost use Rattle.snd_host.specs.Host.{HostState, IsOpen, max_limit};
ghost use Rattle.snd_host.specs.History.{ended_of};
ghost use Rattle.snd_host.specs.Follows.{AreWrites, Follows};
ghost use Rattle.snd_host.specs.Takes.{ReadsWhole};
ghost use Rattle.snd_host.specs.declared.calls.ReadRefusal.TheVariants.{Failed as Fault, OutOfMemory as NoMemory};

use crate::{Failed, Host, OutFile, OutOfMemory};
use std::alloc::Global;

/// The most bytes that are read by one call.
pub const MAX_READ_AT_ONCE: usize = 4096;

/// Writes all of the piece, or a prefix of it where a write fails.
pub fn write_all<H: Host>(host: &mut H, out: OutFile, piece: &[u8]) -> Result<(), Failed>
    requires { IsOpen (ended_of (H.state host.old).calls) out.0 }
    // It makes writes of some bytes and no other call, up to one that fails.
    ensures { Follows (AreWrites out.0 piece.now) (H.state host.old) (H.state host.new) result }
{
    let mut done = 0;
    while done < piece.len() {
        done += host.write(out, &piece[done..])?;
    }
    Ok(())
}

/// Why an input was not read.
#[derive(Clone, Copy, Debug, PartialEq, Eq)]
pub enum ReadRefusal {
    /// A call of the host failed.
    Failed,
    /// The input has more bytes than the limit.
    TooLong,
    /// There was no memory for what was read.
    OutOfMemory,
}

impl From<Failed> for ReadRefusal {
    ghost from_gives = { λ _ refusal. refusal ≡ Fault };

    fn from(_: Failed) -> Self {
        ReadRefusal::Failed
    }
}

impl From<OutOfMemory> for ReadRefusal {
    ghost from_gives = { λ _ refusal. refusal ≡ NoMemory };

    fn from(_: OutOfMemory) -> Self {
        ReadRefusal::OutOfMemory
    }
}

/// Opens the named input and reads it to its end, or to one byte past the limit.
pub fn read_whole<H: Host>(
    alloc: Global,
    host: &mut H,
    name: &str,
    limit: usize,
) -> Result<Vec<u8>, ReadRefusal>
    requires { limit ≤ max_limit }
    ensures bounded { IfOk result (λ bytes. length bytes.items ≤ limit) }
    // It opens the input once, and makes no read after the one that gave the end, nor after one that failed.
    ensures calls { ReadsWhole name.now limit (H.state host.old) (H.state host.new) result }
{
    let file = host.open_in(name)?;
    let mut bytes = Vec::new(alloc);
    let mut buffer = [0u8; MAX_READ_AT_ONCE];
    'reading: while bytes.len() <= limit {
        let room = (limit + 1 - bytes.len()).min(MAX_READ_AT_ONCE);
        let count = host.read(file, &mut buffer[..room])?;
        if count == 0 {
            return Ok(bytes);
        }
        bytes.extend_from_slice(&buffer[..count])?;
    }
    Err(ReadRefusal::TooLong)
}

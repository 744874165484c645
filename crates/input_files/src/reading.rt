// The bytes of an input.
ghost use Rattle.std.specs.Prelude.{◌≡◌, ◌≤◌, length, IfOk};
ghost use Rattle.snd_host.specs.Host.{HostState};
ghost use Rattle.input_files.specs.Reading.{bytes_in, Reads, input_limit, wave_limit};

use command_runner::Refusal;
use snd_host::{Host, ReadRefusal, read_whole};
use spc_form::MAX_LENGTH;
use std::alloc::Global;
use std::marker::Model;

/// The greatest length of most inputs, that of an SPC file.
pub const INPUT_LIMIT: usize = MAX_LENGTH;

/// The greatest length of a sound file that is to be encoded.
pub const WAVE_LIMIT: usize = 16777216;

/// The bytes of an input that was read.
#[derive(Drop)]
pub struct InputBytes {
    bytes: Vec<u8>,
}

impl Model for InputBytes {
    ghost use Rattle.std.specs.Prelude.{List, ℕ};

    ghost Value = { List ℕ };

    ghost view = { λ input. input.bytes.items };
}

impl InputBytes {
    /// The bytes.
    pub fn as_slice(&self) -> &[u8]
        ensures { result.now ≡ self.now }
    {
        self.bytes.as_slice()
    }
}

/// Reads the input of this name, which may have so many bytes; one that has more is refused by the cause given.
pub fn read_input<H: Host, C: Drop>(
    alloc: Global,
    host: &mut H,
    name: &str,
    limit: usize,
    too_long: C,
) -> Result<InputBytes, Refusal<C>>
    requires { limit ≤ wave_limit }
    ensures reads { Reads name.now limit (bytes_in limit too_long) (H.state host.old) (H.state host.new) result }
    ensures bounded { IfOk result (λ bytes. length bytes ≤ limit) }
{
    match read_whole(alloc, host, name, limit) {
        Ok(bytes) => Ok(InputBytes { bytes }),
        Err(ReadRefusal::Failed) => Err(Refusal::ReadFault),
        Err(ReadRefusal::TooLong) => Err(Refusal::Input(too_long)),
        Err(ReadRefusal::OutOfMemory) => Err(Refusal::OutOfMemory),
    }
}

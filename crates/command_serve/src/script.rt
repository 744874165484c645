// The script of an input.
ghost use Rattle.std.specs.Prelude.{◌≡◌};
ghost use Rattle.snd_host.specs.Host.{HostState};
ghost use Rattle.input_files.specs.Reading.{Accepts, Reads, input_limit};
ghost use Rattle.command_serve.specs.Scripts.{script_of, script_in};

use command_runner::Refusal;
use cut_text::{ScriptLines, TextRefusal, read_script};
use exit_status::Cause;
use input_files::{INPUT_LIMIT, read_input};
use snd_host::Host;
use std::alloc::Global;

/// The script of bytes that were read, or the cause for which they are refused.
fn accept_script(alloc: Global, bytes: &[u8]) -> Result<ScriptLines, Refusal<Cause>>
    ensures { Accepts (script_of bytes.now) result }
{
    match read_script(alloc, bytes) {
        Ok(lines) => Ok(lines),
        Err(TextRefusal::Wrong(line)) => Err(Refusal::Input(Cause::Script(line as usize))),
        Err(TextRefusal::OutOfMemory) => Err(Refusal::OutOfMemory),
    }
}

/// Reads the script of this name.
pub(crate) fn read_lines<H: Host>(
    alloc: Global,
    host: &mut H,
    name: &str,
) -> Result<ScriptLines, Refusal<Cause>>
    ensures { Reads name.now input_limit script_in (H.state host.old) (H.state host.new) result }
{
    let bytes = read_input(alloc, host, name, INPUT_LIMIT, Cause::InputTooLong)?;
    accept_script(alloc, bytes.as_slice())
}

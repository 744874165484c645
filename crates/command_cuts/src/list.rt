// The list of cuts of an input.
ghost use Rattle.std.specs.Prelude.{◌≡◌};
ghost use Rattle.snd_host.specs.Host.{HostState};
ghost use Rattle.input_files.specs.Reading.{Accepts, Reads, input_limit};
ghost use Rattle.command_cuts.specs.Lists.{cuts_of, cuts_in};

use command_runner::Refusal;
use cut_text::{CutList, TextRefusal, read_cuts};
use exit_status::Cause;
use input_files::{INPUT_LIMIT, read_input};
use snd_host::Host;
use std::alloc::Global;

/// The cuts of bytes that were read, or the cause for which they are refused.
fn accept_list(alloc: Global, bytes: &[u8]) -> Result<CutList, Refusal<Cause>>
    ensures { Accepts (cuts_of bytes.now) result }
{
    match read_cuts(alloc, bytes) {
        Ok(cuts) => Ok(cuts),
        Err(TextRefusal::Wrong(line)) => Err(Refusal::Input(Cause::CutList(line as usize))),
        Err(TextRefusal::OutOfMemory) => Err(Refusal::OutOfMemory),
    }
}

/// Reads the list of this name.
pub(crate) fn read_list<H: Host>(
    alloc: Global,
    host: &mut H,
    name: &str,
) -> Result<CutList, Refusal<Cause>>
    ensures { Reads name.now input_limit cuts_in (H.state host.old) (H.state host.new) result }
{
    let bytes = read_input(alloc, host, name, INPUT_LIMIT, Cause::InputTooLong)?;
    accept_list(alloc, bytes.as_slice())
}

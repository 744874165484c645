// SPC files and tables of weights.
ghost use Rattle.std.specs.Prelude.{◌≡◌};
ghost use Rattle.snd_host.specs.Host.{HostState};
ghost use Rattle.input_files.specs.Reading.{Accepts, Reads, input_limit};
ghost use Rattle.input_files.specs.Inputs.{file_of, file_in, table_of, table_in};

use crate::{INPUT_LIMIT, read_input};
use command_runner::Refusal;
use exit_status::Cause;
use gauss_table::{GaussTable, TableRefusal};
use snd_host::Host;
use spc_form::{SpcFile, SpcRefusal, read_spc};
use std::alloc::Global;

/// The SPC file of bytes that were read, or the cause for which they are refused.
pub fn accept_file(alloc: Global, bytes: &[u8]) -> Result<SpcFile, Refusal<Cause>>
    ensures { Accepts (file_of bytes.now) result }
{
    match read_spc(alloc, bytes) {
        Ok(file) => Ok(file),
        Err(SpcRefusal::Length(length)) => Err(Refusal::Input(Cause::SpcLength(length))),
        Err(SpcRefusal::Signature(at)) => Err(Refusal::Input(Cause::SpcSignature(at))),
        Err(SpcRefusal::OutOfMemory) => Err(Refusal::OutOfMemory),
    }
}

/// Reads the SPC file of this name. A longer input than is read is refused for its length.
pub fn read_file<H: Host>(
    alloc: Global,
    host: &mut H,
    name: &str,
) -> Result<SpcFile, Refusal<Cause>>
    ensures { Reads name.now input_limit file_in (H.state host.old) (H.state host.new) result }
{
    let too_long = Cause::SpcLength(INPUT_LIMIT + 1);
    let bytes = read_input(alloc, host, name, INPUT_LIMIT, too_long)?;
    accept_file(alloc, bytes.as_slice())
}

/// The table of bytes that were read, or the cause for which they are refused.
fn accept_table(alloc: Global, bytes: &[u8]) -> Result<GaussTable, Refusal<Cause>>
    ensures { Accepts (table_of bytes.now) result }
{
    match GaussTable::read(alloc, bytes) {
        Ok(table) => Ok(table),
        Err(TableRefusal::Length(length)) => Err(Refusal::Input(Cause::TableLength(length))),
        Err(TableRefusal::OutOfMemory) => Err(Refusal::OutOfMemory),
    }
}

/// Reads the table of weights of this name.
pub fn read_table<H: Host>(
    alloc: Global,
    host: &mut H,
    name: &str,
) -> Result<GaussTable, Refusal<Cause>>
    ensures { Reads name.now input_limit table_in (H.state host.old) (H.state host.new) result }
{
    let bytes = read_input(alloc, host, name, INPUT_LIMIT, Cause::InputTooLong)?;
    accept_table(alloc, bytes.as_slice())
}

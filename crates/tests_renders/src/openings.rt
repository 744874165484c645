//! What the tests share: files and their chips.
ghost use Rattle.std.specs.Prelude.{◌≡◌, IfOk};

use dsp_core::Dsp;
use gauss_table::GaussTable;
use num_fix::Frame;
use spc_form::{SpcFile, read_spc};
use std::alloc::Global;
use std::test::Fail;
use test_support::{FILE_LENGTH, MEMORY, file_of};

/// The base file with these pieces, and with a program at 0400h.
pub fn file(alloc: Global, sound: &[(usize, &[u8])], program: &[u8]) -> Result<SpcFile, Fail> {
    let image = file_of(alloc, FILE_LENGTH, sound, &[(MEMORY + 0x0400, program)])?;
    Ok(read_spc(alloc, &image)?)
}

/// The chip of a file.
pub fn chip_of(alloc: Global, file: &SpcFile) -> Result<Dsp, Fail>
    ensures { IfOk result (λ chip. (chip.sample ≡ 0) × (chip.batches ≡ 0)) }
{
    Ok(Dsp::open(alloc, file.dsp(), GaussTable::straight(alloc)?, 0)?)
}

pub const SILENT: Frame = Frame { left: 0, right: 0 };

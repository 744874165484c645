// The demo file.
ghost use Rattle.std.specs.Prelude.{◌≡◌, ◌<◌, IfOk, OnOk, vec_len};
ghost use Rattle.spc_form.specs.Accepted.{kept_length};
ghost use Rattle.demo_gen.specs.Places.{cell, with_part};
ghost use Rattle.demo_gen.specs.Demo.{front, title, demo_bytes};

use crate::OutOfMemory;
use crate::driver::{put_driver, put_dsp_registers};
use crate::samples::{put_directory, put_sample_bytes};
use crate::writes::{put_registers, put_values};
use itoa::Buffer;
use spc_form::{DSP_PLACE, KEPT_LENGTH, MEMORY_PLACE, SpcFile, SpcRefusal, read_spc};
use std::alloc::Global;

/// What a file begins with: the signature, the version, the mark of tags, PC, A, X, Y, PSW and SP.
const FRONT: [u8; 44] = *b"SNES-SPC700 Sound File Data v0.30\x1A\x1A\x1A\x1E\x00\x04\0\0\0\0\xEF";

/// Where a cell of the memory stands in the file.
fn cell(address: usize) -> usize
    requires { address < 0x10000 }
    ensures { result ≡ cell address }
{
    MEMORY_PLACE + address
}

/// Puts the front into the file.
#[tactic(auto, unfolding(crate::specs::Places::with_part))]
fn put_front(file: &mut Vec<u8>, place: usize) -> Result<(), OutOfMemory>
    ensures { OnOk result (file.new.items ≡ with_part file.old.items place front) }
{
    file.resize(place, 0)?;
    file.extend_from_slice(&FRONT)
}

/// Puts the title into the file.
#[tactic(auto, unfolding(crate::specs::Places::with_part))]
fn put_title(file: &mut Vec<u8>, place: usize, number: u32) -> Result<(), OutOfMemory>
    ensures { OnOk result (file.new.items ≡ with_part file.old.items place (title number)) }
{
    file.resize(place, 0)?;
    file.extend_from_slice(b"demo ")?;
    let mut buffer = Buffer::new();
    file.extend_from_slice(buffer.format(number).as_bytes())
}

/// The bytes of the demo file of a number.
#[tactic(auto, unfolding(crate::specs::Demo::demo_bytes))]
fn demo_bytes(alloc: Global, number: u32) -> Result<Vec<u8>, OutOfMemory>
    ensures bytes { IfOk result (λ file. file.items ≡ demo_bytes number) }
    ensures len { IfOk result (λ file. vec_len file ≡ kept_length) }
{
    let mut file = Vec::with_capacity(alloc, KEPT_LENGTH)?;
    put_front(&mut file, 0)?;
    put_title(&mut file, 0x2E, number)?;
    put_directory(&mut file, cell(0x0200))?;
    put_driver(&mut file, cell(0x0400))?;
    let writes = put_sample_bytes(&mut file, cell(0x1000), 0, 1152, number)?;
    put_registers(&mut file, cell(0x2000), writes)?;
    let rest = put_values(&mut file, cell(0x2100), writes)?;
    put_sample_bytes(&mut file, cell(0x2200), 1, 256, rest)?;
    put_dsp_registers(&mut file, DSP_PLACE)?;
    file.resize(KEPT_LENGTH, 0)?;
    Ok(file)
}

/// Makes the demo file of a number: a valid SPC file of 66,048 bytes, the same each time. It is refused only where memory is short.
pub fn demo(alloc: Global, number: u32) -> Result<SpcFile, OutOfMemory>
    ensures { IfOk result (λ file. file ≡ demo_bytes number) }
{
    let bytes = demo_bytes(alloc, number)?;
    // Only a reader can make an SPC file. That it refuses these bytes for their length or signature is out of reach.
    match read_spc(alloc, &bytes) {
        Ok(file) => Ok(file),
        Err(SpcRefusal::OutOfMemory) => Err(OutOfMemory),
        Err(SpcRefusal::Length(_)) => unreachable!(),
        Err(SpcRefusal::Signature(_)) => unreachable!(),
    }
}

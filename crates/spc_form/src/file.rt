// A file and its fields.
ghost use Rattle.std.specs.Prelude.{◌≡◌, None, length};
ghost use Rattle.spc_form.specs.Layout.{tag_mark_of, minor_of, pc_of, a_of, x_of, y_of, psw_of, sp_of, memory_of, dsp_of, extra_of, dsp_size, rom_size};
ghost use Rattle.spc_form.specs.Tags.{text_of};
ghost use Rattle.spc_form.specs.Accepted.{signature, first_difference, kept_length};

use crate::parts::{
    A_PLACE, DSP_PLACE, DSP_SIZE, EXTRA_PLACE, MEMORY_PLACE, MINOR_PLACE, PC_PLACE, PSW_PLACE,
    ROM_SIZE, SP_PLACE, TAG_MARK_PLACE, X_PLACE, Y_PLACE, part,
};
use aram_core::MEMORY_SIZE;
use byteorder::{ByteOrder, LittleEndian};
use std::marker::Model;

/// An SPC file: 66,048 bytes that begin with the signature.
#[derive(Drop)]
pub struct SpcFile {
    pub(crate) bytes: Vec<u8>,
}

impl Model for SpcFile {
    ghost use Rattle.std.specs.Prelude.{◌≡◌, List, ℕ, None, vec_len};
    ghost use Rattle.spc_form.specs.Accepted.{signature, first_difference, kept_length};

    ghost Value = { List ℕ };

    ghost view = { λ f. f.bytes.items };

    ghost invariant = { λ f. (vec_len f.bytes ≡ kept_length) × (first_difference signature f.bytes.items ≡ None) };
}

impl SpcFile {
    /// The bytes of the file.
    pub(crate) fn as_slice(&self) -> &[u8]
        ensures bytes { result.now ≡ self.now }
        ensures len { length result.now ≡ kept_length }
        ensures signed { first_difference signature self.now ≡ None }
    {
        self.bytes.as_slice()
    }

    /// The program counter.
    pub fn pc(&self) -> u16
        ensures { result ≡ pc_of self.now }
    {
        LittleEndian::read_u16(&self.as_slice()[PC_PLACE..])
    }

    /// The register A.
    pub fn a(&self) -> u8
        ensures { result ≡ a_of self.now }
    {
        self.as_slice()[A_PLACE]
    }

    /// The register X.
    pub fn x(&self) -> u8
        ensures { result ≡ x_of self.now }
    {
        self.as_slice()[X_PLACE]
    }

    /// The register Y.
    pub fn y(&self) -> u8
        ensures { result ≡ y_of self.now }
    {
        self.as_slice()[Y_PLACE]
    }

    /// The status byte PSW.
    pub fn psw(&self) -> u8
        ensures { result ≡ psw_of self.now }
    {
        self.as_slice()[PSW_PLACE]
    }

    /// The low byte of the stack pointer.
    pub fn sp(&self) -> u8
        ensures { result ≡ sp_of self.now }
    {
        self.as_slice()[SP_PLACE]
    }

    /// The minor number of the format's version.
    pub fn minor(&self) -> u8
        ensures { result ≡ minor_of self.now }
    {
        self.as_slice()[MINOR_PLACE]
    }

    /// 1Ah where the file has tags, 1Bh where it has none.
    pub fn tag_mark(&self) -> u8
        ensures { result ≡ tag_mark_of self.now }
    {
        self.as_slice()[TAG_MARK_PLACE]
    }

    /// The memory, 65,536 bytes.
    pub fn memory(&self) -> &[u8]
        ensures memory { result.now ≡ memory_of self.now }
        ensures len { length result.now ≡ MEMORY_SIZE }
    {
        part(self.as_slice(), MEMORY_PLACE, MEMORY_SIZE)
    }

    /// The registers of the S-DSP, 128 bytes.
    pub fn dsp(&self) -> &[u8]
        ensures dsp { result.now ≡ dsp_of self.now }
        ensures len { length result.now ≡ dsp_size }
    {
        part(self.as_slice(), DSP_PLACE, DSP_SIZE)
    }

    /// The extra bytes, 64: the memory beneath the boot ROM.
    pub fn extra(&self) -> &[u8]
        ensures extra { result.now ≡ extra_of self.now }
        ensures len { length result.now ≡ rom_size }
    {
        part(self.as_slice(), EXTRA_PLACE, ROM_SIZE)
    }
}

//! A chip at play.

ghost use Rattle.std.specs.Prelude.{◌≤◌};

use crate::sources::memory_of_a_source;
use aram_core::Aram;
use dsp_core::Dsp;
use gauss_table::GaussTable;
use num_fix::Frame;
use std::alloc::Global;
use std::test::Fail;
use trace_form::{Frames, Records};

pub const SILENT_FRAME: Frame = Frame { left: 0, right: 0 };

/// A chip with its memory, and what its last batch made.
#[derive(Drop)]
pub struct Stage {
    pub dsp: Dsp,
    pub memory: Aram,
    pub frames: Frames,
    pub records: Records,
}

impl Stage {
    /// A chip with these registers, before its first sample.
    pub fn open(alloc: Global, registers: &[u8; 128], memory: Aram) -> Result<Stage, Fail> {
        Stage::with_muted(alloc, registers, memory, 0)
    }

    /// The same with these voices muted.
    pub fn with_muted(
        alloc: Global,
        registers: &[u8; 128],
        memory: Aram,
        muted: u8,
    ) -> Result<Stage, Fail> {
        Ok(Stage {
            dsp: Dsp::open(alloc, registers, GaussTable::straight(alloc)?, muted)?,
            memory,
            frames: Frames::new(alloc)?,
            records: Records::new(alloc)?,
        })
    }

    /// Makes n samples anew, with the records of the voices in a mask.
    pub fn play(&mut self, n: u8, mask: u8)
        requires { n ≤ 64 }
    {
        self.frames.clear();
        self.records.clear();
        if self.dsp.sample() < 1_000_000 {
            self.dsp.advance(
                n,
                &mut self.memory,
                mask,
                &mut self.frames,
                &mut self.records,
            );
        }
    }
}

/// A chip whose voice 0 is set to play one source, with such a KON.
pub fn keyed_voice(alloc: Global, key_on: u8) -> Result<Stage, Fail> {
    let mut registers = [0; 128];
    registers[0x00] = 0x7f;
    registers[0x01] = 0x7f;
    registers[0x03] = 0x10;
    registers[0x07] = 0x7f;
    registers[0x0c] = 0x7f;
    registers[0x1c] = 0x7f;
    registers[0x4c] = key_on;
    registers[0x5d] = 0x02;
    registers[0x6c] = 0x20;
    registers[0x6d] = 0xe0;
    Stage::open(alloc, &registers, memory_of_a_source(alloc)?)
}

/// The same chip, whose voice 0 waits for a key on.
pub fn one_voice(alloc: Global) -> Result<Stage, Fail> {
    keyed_voice(alloc, 0)
}

/// Writes bytes to registers.
pub fn write_all(dsp: &mut Dsp, writes: &[(u8, u8)]) {
    for (address, value) in writes {
        dsp.reg_write(*address, *value);
    }
}

/// Whether frames begin with so many silent ones.
pub fn begin_in_silence(frames: &[Frame], count: usize) -> bool {
    frames
        .iter()
        .take(count)
        .all(|frame| *frame == SILENT_FRAME)
}

/// Whether two chips have the same registers.
pub fn have_same_registers(one: &Dsp, other: &Dsp) -> bool {
    for address in 0..128u8 {
        if one.reg_read(address) != other.reg_read(address) {
            return false;
        }
    }
    true
}

/// Whether two memories have the same bytes.
pub fn have_same_bytes(one: &Aram, other: &Aram) -> bool {
    for at in 0..=0xffffu16 {
        if one.get(at) != other.get(at) {
            return false;
        }
    }
    true
}

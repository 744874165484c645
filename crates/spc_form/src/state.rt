// The state that a file opens.
ghost use Rattle.std.specs.Prelude.{◌≡◌, ◌+◌, ◌≤◌, ◌++◌, length, IfOk};
ghost use Rattle.spc_form.specs.Layout.{part_of, dsp_of};
ghost use Rattle.spc_form.specs.Opening.{shows_rom_of, opening_memory, opening_rom, opening_cells};

use crate::parts::{DSP_PLACE, DSP_SIZE, ROM_SIZE, array_at, part};
use crate::{OutOfMemory, SpcFile};
use aram_core::{Aram, MEMORY_SIZE};
use num_fix::has_bit;
use std::alloc::Global;

/// Where the boot ROM begins in memory.
const ROM_PLACE: usize = 0xFFC0;

/// Where the cells of ports and timers begin in memory.
const CELLS_PLACE: usize = 0xF0;

/// How many cells of ports and timers memory has: F0h to FFh.
const CELL_COUNT: usize = 16;

/// What the machine begins with: the memory, the cells F0h to FFh, the boot ROM, and the registers of the S-DSP.
#[derive(Drop)]
pub struct OpenState {
    pub memory: Aram,
    pub cells: [u8; CELL_COUNT],
    pub rom: [u8; ROM_SIZE],
    pub dsp: [u8; DSP_SIZE],
}

/// A memory whose end, from a place on, is another one.
fn with_end(alloc: Global, memory: &[u8], place: usize, end: &[u8]) -> Result<Aram, OutOfMemory>
    requires place { place ≤ length memory.now }
    requires end { place + length end.now ≡ MEMORY_SIZE }
    ensures { IfOk result (λ whole. whole ≡ part_of memory.now 0 place ++ end.now) }
{
    let mut image = Vec::from_slice(alloc, part(memory, 0, place))?;
    image.extend_from_slice(end)?;
    Aram::from_image(alloc, &image)
}

/// What a file opens beside the processor's registers. It fails only for want of memory.
pub fn opening(alloc: Global, file: &SpcFile) -> Result<OpenState, OutOfMemory>
    ensures memory { IfOk result (λ state. state.memory ≡ opening_memory file.now) }
    ensures cells { IfOk result (λ state. state.cells ≡ opening_cells file.now) }
    ensures rom { IfOk result (λ state. state.rom ≡ opening_rom file.now) }
    ensures dsp { IfOk result (λ state. state.dsp ≡ dsp_of file.now) }
{
    let image = file.memory();
    let shows_rom = has_bit(image[0xF1], 7);
    let memory = if shows_rom {
        with_end(alloc, image, ROM_PLACE, file.extra())?
    } else {
        Aram::from_image(alloc, image)?
    };
    let rom = if shows_rom {
        array_at::<ROM_SIZE>(image, ROM_PLACE)
    } else {
        [0; ROM_SIZE]
    };
    Ok(OpenState {
        memory,
        cells: array_at::<CELL_COUNT>(image, CELLS_PLACE),
        rom,
        dsp: array_at::<DSP_SIZE>(file.as_slice(), DSP_PLACE),
    })
}

//! What the tests share: openings, chips, and programs that run over either bus.

ghost use Rattle.std.specs.Prelude.{◌≡◌, IfOk};

use aram_core::Aram;
use dsp_core::Dsp;
use gauss_table::GaussTable;
use num_fix::Frame;
use sound_bus::{Chip, Counts, DrainedBus, LagBus, PlainBus};
use spc_form::OpenState;
use spc700_exec::{Bus, Cpu, step};
use std::alloc::Global;
use std::test::Fail;
use trace_form::{Frames, Record, Records};

pub const SILENT_FRAME: Frame = Frame { left: 0, right: 0 };

/// The directory and the two blocks of a source, at 0200h, 0500h and 0600h, and a branch to itself at 0400h.
pub const SOURCE: [(u16, &[u8]); 4] = [
    (0x0200, &[0x00, 0x05, 0x00, 0x06]),
    (0x0400, &[0x2F, 0xFE]),
    (
        0x0500,
        &[0xC3, 0x11, 0x11, 0x11, 0x11, 0x11, 0x11, 0x11, 0x11],
    ),
    (
        0x0600,
        &[0xC3, 0x11, 0x11, 0x11, 0x11, 0x11, 0x11, 0x11, 0x11],
    ),
];

/// The registers that play this source on voice 0 from the first sample on.
pub const KEYED_REGISTERS: [(usize, u8); 10] = [
    (0x00, 0x7F),
    (0x01, 0x7F),
    (0x03, 0x10),
    (0x07, 0x7F),
    (0x0C, 0x7F),
    (0x1C, 0x7F),
    (0x4C, 0x01),
    (0x5D, 0x02),
    (0x6C, 0x20),
    (0x6D, 0xE0),
];

/// The opening of a bus, without a boot ROM, over memory and registers that are zero but for these.
pub fn opening_of(
    alloc: Global,
    bytes: &[(u16, &[u8])],
    registers: &[(usize, u8)],
) -> Result<OpenState, Fail> {
    let image = vec![in alloc; 0u8; 0x10000]?;
    let mut memory = Aram::from_image(alloc, &image)?;
    for (start, run) in bytes {
        let mut at = *start;
        for byte in *run {
            memory.put(at, *byte);
            at = at.wrapping_add(1);
        }
    }
    let mut dsp = [0; 128];
    for (address, value) in registers {
        if let Some(register) = dsp.get_mut(*address) {
            *register = *value;
        }
    }
    Ok(OpenState {
        memory,
        cells: [0; 16],
        rom: [0; 64],
        dsp,
    })
}

/// The chip of an opening.
pub fn chip_of(alloc: Global, opening: &OpenState) -> Result<Dsp, Fail>
    ensures { IfOk result (λ chip. (chip.sample ≡ 0) × (chip.batches ≡ 0)) }
{
    Ok(Dsp::open(alloc, &opening.dsp, GaussTable::straight(alloc)?, 0)?)
}

/// The plain bus, with the records of the voices in a mask.
pub fn open_plain(alloc: Global, opening: OpenState, mask: u8) -> Result<PlainBus<Dsp>, Fail> {
    let chip = chip_of(alloc, &opening)?;
    Ok(PlainBus::open(alloc, opening, chip, mask)?)
}

/// The bus that makes samples late.
pub fn open_late(alloc: Global, opening: OpenState, mask: u8) -> Result<LagBus<Dsp>, Fail> {
    let chip = chip_of(alloc, &opening)?;
    Ok(LagBus::open(alloc, opening, chip, mask)?)
}

/// What both buses return by methods of their own.
pub trait CountedBus: DrainedBus {
    /// The samples that are pending.
    fn pending_samples(&self) -> u8;

    /// How often the chip ran, and why.
    fn batches_of_each(&self) -> Counts;
}

impl<C: Chip> CountedBus for PlainBus<C> {
    fn pending_samples(&self) -> u8 {
        self.pending()
    }

    fn batches_of_each(&self) -> Counts {
        self.counts()
    }
}

impl<C: Chip> CountedBus for LagBus<C> {
    fn pending_samples(&self) -> u8 {
        self.pending()
    }

    fn batches_of_each(&self) -> Counts {
        self.counts()
    }
}

/// What was emitted, and what the last drain of it gave.
#[derive(Drop)]
pub struct Emitted {
    pub frames: Vec<Frame>,
    pub records: Vec<Record>,
    last_frames: Frames,
    last_records: Records,
}

impl Emitted {
    /// Nothing is emitted yet.
    pub fn none(alloc: Global) -> Result<Emitted, Fail> {
        Ok(Emitted {
            frames: Vec::new(alloc),
            records: Vec::new(alloc),
            last_frames: Frames::new(alloc)?,
            last_records: Records::new(alloc)?,
        })
    }

    /// Whether all frames are silence.
    pub fn is_silent(&self) -> bool {
        self.frames.iter().all(|frame| *frame == SILENT_FRAME)
    }

    /// Drains a bus, and gives the number of frames.
    pub fn drain<B: DrainedBus>(&mut self, bus: &mut B) -> Result<u8, Fail> {
        bus.drain(&mut self.last_frames, &mut self.last_records);
        self.frames.extend_from_slice(self.last_frames.as_slice())?;
        self.records
            .extend_from_slice(self.last_records.as_slice())?;
        Ok(self.last_frames.as_slice().len().min(255) as u8)
    }
}

/// A processor at 0400h whose registers are zeros.
pub const START: Cpu = Cpu {
    a: 0,
    x: 0,
    y: 0,
    sp: 0xEF,
    pc: 0x0400,
    psw: 0,
    halted: false,
};

/// Lets the processor wait, where the bus makes iterations at once, and then make a step.
fn wait_and_step<B: DrainedBus>(cpu: &mut Cpu, bus: &mut B, samples: u32) {
    if bus.due() < samples && samples <= 1000 {
        bus.wait(cpu, samples);
    }
    if bus.has_room_for_step() && bus.due() < 1000 {
        step(cpu, bus);
    }
}

/// Runs a program at 0400h until some samples are due, makes those that are pending, and gives the steps that it took.
fn run_to<B: DrainedBus>(bus: &mut B, samples: u32, all: &mut Emitted) -> Result<u32, Fail> {
    let mut cpu = START;
    let mut steps = 0u32;
    for _ in 0u32..10000 {
        if bus.due() < samples {
            wait_and_step(&mut cpu, bus, samples);
            all.drain(bus)?;
            steps = steps.wrapping_add(1);
        }
    }
    bus.settle();
    all.drain(bus)?;
    Ok(steps)
}

/// A run of a program: what it emitted, how often the chip ran, the steps of the processor, and the samples and the cycles to
/// the next one.
#[derive(Drop)]
pub struct Run {
    pub emitted: Emitted,
    pub counts: Counts,
    pub steps: u32,
    pub time: (u32, u8),
}

/// A run over a bus.
fn run_over<B: CountedBus>(alloc: Global, bus: &mut B, samples: u32) -> Result<Run, Fail> {
    let mut emitted = Emitted::none(alloc)?;
    let steps = run_to(bus, samples, &mut emitted)?;
    Ok(Run {
        emitted,
        counts: bus.batches_of_each(),
        steps,
        time: (bus.due(), bus.to_sample()),
    })
}

/// A run over the plain bus.
pub fn run_plain(alloc: Global, opening: OpenState, samples: u32) -> Result<Run, Fail> {
    let mut bus = open_plain(alloc, opening, 0)?;
    run_over(alloc, &mut bus, samples)
}

/// A run over the bus that makes samples late.
pub fn run_late(alloc: Global, opening: OpenState, samples: u32) -> Result<Run, Fail> {
    let mut bus = open_late(alloc, opening, 0)?;
    run_over(alloc, &mut bus, samples)
}

//! Calls of both buses.

use crate::machines::{
    CountedBus, Emitted, KEYED_REGISTERS, SILENT_FRAME, SOURCE, open_late, open_plain, opening_of,
};
use crate::waits::counts_of;
use aram_core::Aram;
use dsp_core::Dsp;
use gauss_table::GaussTable;
use num_fix::Frame;
use sound_bus::{Chip, Counts, DrainedBus};
use spc_form::OpenState;
use spc700_exec::Bus;
use std::alloc::Global;
use std::process::Abort;
use std::test::Fail;
use trace_form::{Frames, Record, Records};

/// A call of a bus. A pass is of 32 cycles, one sample.
#[derive(Clone, Copy)]
enum Call {
    Pass,
    Read(u16),
    Write(u16, u8),
    Settle,
    Drain,
}

/// Makes a call, and gives the byte that was read, or the number of frames that were drained, or 0.
fn make<B: DrainedBus>(bus: &mut B, call: Call, all: &mut Emitted) -> Result<u8, Fail> {
    if !bus.has_room_for_step() || bus.due() > 1000 {
        return Ok(0xEE);
    }
    match call {
        Call::Pass => bus.pass(32),
        Call::Read(address) => return Ok(bus.read(address)),
        Call::Write(address, value) => bus.write(address, value),
        Call::Settle => bus.settle(),
        Call::Drain => return all.drain(bus),
    }
    Ok(0)
}

/// What came of calls of a bus.
#[derive(Drop)]
struct Known {
    /// Of each call what it gave, and the samples that are pending after it.
    answers: Vec<(u8, u8)>,
    emitted: Emitted,
    counts: Counts,
    /// The samples of the machine, and the cycles to the next one.
    time: (u32, u8),
}

/// Makes calls of a bus, and gives of each what it gave, and the samples that are pending after it.
fn make_all<B: CountedBus>(
    alloc: Global,
    bus: &mut B,
    calls: &[Call],
    all: &mut Emitted,
) -> Result<Vec<(u8, u8)>, Fail> {
    let mut answers = Vec::new(alloc);
    for call in calls {
        let byte = make(bus, *call, all)?;
        answers.push((byte, bus.pending_samples()))?;
    }
    Ok(answers)
}

/// What comes of calls of a bus.
fn call_over<B: CountedBus>(alloc: Global, bus: &mut B, calls: &[Call]) -> Result<Known, Fail> {
    let mut emitted = Emitted::none(alloc)?;
    let answers = make_all(alloc, bus, calls, &mut emitted)?;
    Ok(Known {
        answers,
        emitted,
        counts: bus.batches_of_each(),
        time: (bus.due(), bus.to_sample()),
    })
}

/// Calls of the plain bus, over the source and these registers.
fn call_plain(alloc: Global, registers: &[(usize, u8)], calls: &[Call]) -> Result<Known, Fail> {
    let opening = opening_of(alloc, &SOURCE, registers)?;
    let mut bus = open_plain(alloc, opening, 1)?;
    call_over(alloc, &mut bus, calls)
}

/// Calls of the bus that makes samples late.
fn call_late(alloc: Global, registers: &[(usize, u8)], calls: &[Call]) -> Result<Known, Fail> {
    let opening = opening_of(alloc, &SOURCE, registers)?;
    let mut bus = open_late(alloc, opening, 1)?;
    call_over(alloc, &mut bus, calls)
}

/// Three samples pass; then a register is read, a byte is written that no sample reads, one that the next samples read, and
/// both are read.
const CALLS: [Call; 11] = [
    Call::Pass,
    Call::Pass,
    Call::Pass,
    Call::Read(0x00F3),
    Call::Write(0x0700, 0x01),
    Call::Write(0x0500, 0xC3),
    Call::Read(0x0700),
    Call::Read(0x0500),
    Call::Settle,
    Call::Drain,
    Call::Drain,
];

/// Whether a record is of voice 0 in this sample.
fn is_of_voice_0(record: &Record, at: u32) -> bool {
    match *record {
        Record::Voice { sample, voice, .. } => sample == at && voice == 0,
        _ => false,
    }
}

/// Whether records are those of voice 0 in the samples 0 to 2.
fn are_three_of_voice_0(records: &[Record]) -> bool {
    match records {
        [first, second, third] => {
            is_of_voice_0(first, 0) && is_of_voice_0(second, 1) && is_of_voice_0(third, 2)
        }
        _ => false,
    }
}

/// Checks what came of those calls: each has such an answer, and three silent samples were made in such batches.
fn look_at(rt: &impl Abort, known: &Known, answers: &[(u8, u8)], counts: Counts) {
    assert!(rt; known.answers.as_slice() == answers);
    assert!(rt; (known.time, known.counts) == ((3, 32), counts));
    assert!(rt; known.emitted.frames.as_slice() == [SILENT_FRAME; 3].as_slice());
    assert!(rt; are_three_of_voice_0(known.emitted.records.as_slice()));
}

#[test]
fn each_call_acts_at_once(rt: HostRuntime) -> Result<(), Fail> {
    let known = call_plain(rt.alloc(), &KEYED_REGISTERS, &CALLS)?;
    let answers = [
        (0, 0),
        (0, 0),
        (0, 0),
        (0x7F, 0),
        (0, 0),
        (0, 0),
        (0x01, 0),
        (0xC3, 0),
        (0, 0),
        (3, 0),
        (0, 0),
    ];
    look_at(&rt, &known, &answers, counts_of(3, 0, 0, 0));
    Ok(())
}

/// The same calls: no sample is made before one of them needs it.
#[test]
fn samples_wait_until_they_are_needed(rt: HostRuntime) -> Result<(), Fail> {
    let known = call_late(rt.alloc(), &KEYED_REGISTERS, &CALLS)?;
    let answers = [
        (0, 1),
        (0, 2),
        (0, 3),
        (0x7F, 3),
        (0, 3),
        (0, 0),
        (0x01, 0),
        (0xC3, 0),
        (0, 0),
        (3, 0),
        (0, 0),
    ];
    look_at(&rt, &known, &answers, counts_of(1, 1, 0, 0));
    Ok(())
}

/// Whether records are those of voice 0 in samples 0 to 2, a write of a port in sample 3, and then voice 0 in it.
fn are_in_order(records: &[Record]) -> bool {
    let write = Record::Port {
        sample: 3,
        port: 0,
        value: 0x5A,
    };
    match records {
        [before @ .., port, after] => {
            are_three_of_voice_0(before) && *port == write && is_of_voice_0(after, 3)
        }
        _ => false,
    }
}

/// Once all voices play and the echo is elsewhere, no sample reads page 0. A write of a port between two samples then waits
/// for the first of them, and comes before the voices of the second.
#[test]
fn what_waits_is_handed_over_in_order(rt: HostRuntime) -> Result<(), Fail> {
    let registers = [(0x4C, 0xFF), (0x5D, 0x02), (0x6C, 0x20), (0x6D, 0x80)];
    let calls = [
        Call::Pass,
        Call::Pass,
        Call::Write(0x0500, 0xC3),
        Call::Pass,
        Call::Write(0x00F4, 0x5A),
        Call::Pass,
        Call::Drain,
        Call::Settle,
        Call::Drain,
    ];
    let known = call_late(rt.alloc(), &registers, &calls)?;
    let answers = [
        (0, 1),
        (0, 2),
        (0, 0),
        (0, 1),
        (0, 1),
        (0, 2),
        (2, 2),
        (0, 0),
        (2, 0),
    ];
    assert!(rt; known.answers.as_slice() == answers.as_slice());
    assert!(rt; are_in_order(known.emitted.records.as_slice()));
    Ok(())
}

/// A block of ones that loops, and its first byte is C3h, is written at an address; then twelve samples pass. The last frame.
fn last_frame<B: CountedBus>(alloc: Global, bus: &mut B, at: u16) -> Result<Option<Frame>, Fail> {
    let mut emitted = Emitted::none(alloc)?;
    make(bus, Call::Write(at, 0xC3), &mut emitted)?;
    for place in 1u16..9 {
        make(bus, Call::Write(at.wrapping_add(place), 0x11), &mut emitted)?;
    }
    for _ in 0..12 {
        make(bus, Call::Drain, &mut emitted)?;
        make(bus, Call::Pass, &mut emitted)?;
    }
    make(bus, Call::Settle, &mut emitted)?;
    make(bus, Call::Drain, &mut emitted)?;
    Ok(emitted.frames.last().copied())
}

/// An opening whose voice 0 plays the source at an address of page 0.
fn opening_at(alloc: Global, at: u8) -> Result<OpenState, Fail> {
    let directory = [at, 0x00, at, 0x00];
    let entry: [(u16, &[u8]); 1] = [(0x0200, &directory)];
    opening_of(alloc, &entry, &KEYED_REGISTERS)
}

/// The last frame of the plain bus, once the source is written at that address.
fn last_at_once(alloc: Global, at: u8) -> Result<Option<Frame>, Fail> {
    let mut bus = open_plain(alloc, opening_at(alloc, at)?, 1)?;
    last_frame(alloc, &mut bus, u16::from(at))
}

/// The last frame of the bus that makes samples late.
fn last_of_late(alloc: Global, at: u8) -> Result<Option<Frame>, Fail> {
    let mut bus = open_late(alloc, opening_at(alloc, at)?, 1)?;
    last_frame(alloc, &mut bus, u16::from(at))
}

/// What is heard of a source of ones: each is 4096, which the envelope of 7F0h takes to 4064, the volume of the voice to 4032, and the main volume to 4000.
const HEARD: Option<Frame> = Some(Frame {
    left: 4000,
    right: 4000,
});

/// Each write of F0h to FFh reaches the memory beneath, whatever else it does: a source that is written there is heard.
#[test]
fn ports_and_timers_have_memory_beneath(rt: HostRuntime) -> Result<(), Fail> {
    for at in [0xF0u8, 0xF7] {
        assert!(rt; last_at_once(rt.alloc(), at)? == HEARD, "at {at}");
        assert!(rt; last_of_late(rt.alloc(), at)? == HEARD, "late at {at}");
    }
    Ok(())
}

/// While the ROM shows, which is zeros here, a write above it reaches the memory that it hides.
#[test]
fn the_rom_hides_what_is_written(rt: HostRuntime) -> Result<(), Fail> {
    let calls = [
        Call::Write(0x00F1, 0x80),
        Call::Write(0xFFC0, 0x55),
        Call::Write(0xFFFF, 0x66),
        Call::Read(0xFFC0),
        Call::Read(0xFFFF),
        Call::Write(0x00F1, 0x00),
        Call::Read(0xFFC0),
        Call::Read(0xFFFF),
    ];
    let answers = [
        (0, 0),
        (0, 0),
        (0, 0),
        (0, 0),
        (0, 0),
        (0, 0),
        (0x55, 0),
        (0x66, 0),
    ];
    let plain = call_plain(rt.alloc(), &[], &calls)?;
    assert!(rt; plain.answers.as_slice() == answers.as_slice());
    let late = call_late(rt.alloc(), &[], &calls)?;
    assert!(rt; late.answers.as_slice() == answers.as_slice());
    Ok(())
}

/// The calls of a chip through its trait.
fn registers_and_numbers<C: Chip>(chip: &mut C) -> (u8, u8, u32, u64) {
    chip.reg_write(0x5C, 0x12);
    chip.reg_write(0x7C, 0xFF);
    (
        chip.reg_read(0x5C),
        chip.reg_read(0x7C),
        chip.sample(),
        chip.batches(),
    )
}

/// Whether samples write ENVX and OUTX of voice 3, ENDX, and KON.
fn which_are_results<C: Chip>(chip: &C) -> [bool; 4] {
    [
        chip.is_result(0x38),
        chip.is_result(0x39),
        chip.is_result(0x7C),
        chip.is_result(0x4C),
    ]
}

#[test]
fn the_dsp_is_a_chip(rt: HostRuntime) -> Result<(), Fail> {
    let alloc = rt.alloc();
    let image = vec![in alloc; 0u8; 0x10000]?;
    let mut memory = Aram::from_image(alloc, &image)?;
    let mut frames = Frames::new(alloc)?;
    let mut records = Records::new(alloc)?;
    let mut dsp = Dsp::open(alloc, &[0; 128], GaussTable::straight(alloc)?, 0)?;
    Chip::advance(&mut dsp, 2, &mut memory, 0x80, &mut frames, &mut records);
    assert!(rt; registers_and_numbers(&mut dsp) == (0x12, 0, 2, 1));
    assert!(rt; which_are_results(&dsp) == [true, true, true, false]);
    assert!(rt; (frames.as_slice().len(), records.as_slice().len()) == (2, 2));
    Ok(())
}

//! Loops that wait, over both buses. The bus that makes samples late makes their iterations at once, the other one step by step.

use crate::machines::{
    KEYED_REGISTERS, Run, SILENT_FRAME, SOURCE, opening_of, run_late, run_plain,
};
use num_fix::Frame;
use sound_bus::Counts;
use std::alloc::Global;
use std::process::Abort;
use std::test::Fail;
use test_support::writes_of;
use trace_form::Record;

/// Echo writes are off, and no voice is keyed: each reads at block address 0 and is silent.
pub const QUIET: [(usize, u8); 2] = [(0x6C, 0x60), (0x6D, 0xE0)];

/// All voices are keyed at no volume, so that from the first batch on no sample reads page 0.
const ALL_KEYED: [(usize, u8); 4] = [(0x4C, 0xFF), (0x5D, 0x02), (0x6C, 0x20), (0x6D, 0xE0)];

/// What the source sounds like once it is heard.
const LOUD: Frame = Frame {
    left: 4000,
    right: 4000,
};

/// Runs of a program over both buses. The input latch 0 holds a byte.
fn run_both(
    alloc: Global,
    pieces: &[(u16, &[u8])],
    registers: &[(usize, u8)],
    latch: u8,
    samples: u32,
) -> Result<(Run, Run), Fail> {
    let mut opening = opening_of(alloc, pieces, registers)?;
    opening.cells[4] = latch;
    let plain = run_plain(alloc, opening, samples)?;
    let mut opening = opening_of(alloc, pieces, registers)?;
    opening.cells[4] = latch;
    let late = run_late(alloc, opening, samples)?;
    Ok((plain, late))
}

/// Whether both runs emitted the same, have so many samples due, and the chip of the first one made each of them at once.
fn are_alike(plain: &Run, late: &Run, samples: u32) -> bool {
    late.emitted.frames.as_slice() == plain.emitted.frames.as_slice()
        && late.emitted.records.as_slice() == plain.emitted.records.as_slice()
        && plain.emitted.frames.len() == samples as usize
        && (plain.time.0, late.time.0) == (samples, samples)
        && plain.time.1 == late.time.1
        && plain.counts == counts_of(u64::from(samples), 0, 0, 0)
}

/// Counts of so many batches: for writes of memory, for 64 pending samples and at the end.
pub fn counts_of(batches: u64, memory: u64, full: u64, end: u64) -> Counts {
    Counts {
        batches,
        register: 0,
        memory,
        echo: 0,
        full,
        events: 0,
        end,
    }
}

/// Checks what a loop comes to over both buses: the same, with such records, the second with such counts and by iterations made at once.
fn look_at(
    rt: &impl Abort,
    (plain, late): &(Run, Run),
    samples: u32,
    records: &[Record],
    counts: Counts,
) {
    assert!(rt; are_alike(plain, late, samples));
    assert!(rt; late.emitted.records.as_slice() == records);
    assert!(rt; late.counts == counts);
    assert!(rt; late.steps < plain.steps / 2);
}

/// Whether the source is heard from sample 6 on, and nothing before.
fn are_heard_from_6_on(frames: &[Frame]) -> bool {
    frames.iter().take(6).all(|frame| *frame == SILENT_FRAME)
        && frames.iter().skip(6).all(|frame| *frame == LOUD)
}

/// A driver at 0400h: it gives a timer a target, enables it, polls its counter in an iteration of 7 cycles, and writes what it has
/// read to port 0, after twelve NOPs.
pub fn driver(counter: u8, target: u8, control: u8) -> [u8; 26] {
    let target_cell = counter.wrapping_sub(3);
    [
        0x8F,
        target,
        target_cell,
        0x8F,
        control,
        0xF1,
        0xE4,
        counter,
        0xF0,
        0xFC,
        0,
        0,
        0,
        0,
        0,
        0,
        0,
        0,
        0,
        0,
        0,
        0,
        0xC4,
        0xF4,
        0x2F,
        0xEC,
    ]
}

/// The counter n leaves 0 at clock n * target * 128 or, of timer 2, * 16. The polls come at 13 and each 7 cycles on, the first one
/// from that clock on sees a 1, the write comes 29 cycles after it and the next poll 37. So the sample of a write shows how many
/// cycles after the counter the poll came: from the third one on it is a sample later.
#[test]
fn a_driver_polls_each_counter(rt: HostRuntime) -> Result<(), Fail> {
    let timer0 = [8, 16, 25, 33, 40, 49, 57, 64, 72, 81, 89, 96];
    poll_counter(&rt, rt.alloc(), &driver(0xFD, 2, 0x01), &timer0)?;
    let timer1 = [12, 25, 37, 48, 61, 72, 85, 96];
    poll_counter(&rt, rt.alloc(), &driver(0xFE, 3, 0x02), &timer1)?;
    let timer2 = [
        5, 11, 16, 20, 26, 30, 36, 40, 46, 51, 55, 61, 65, 71, 75, 81, 86, 90, 96,
    ];
    poll_counter(&rt, rt.alloc(), &driver(0xFF, 10, 0x04), &timer2)
}

/// Checks a driver that writes in these samples: each write has the samples before it made, the last ones wait for the end.
fn poll_counter(rt: &impl Abort, alloc: Global, code: &[u8], samples: &[u32]) -> Result<(), Fail> {
    let wanted = writes_of(alloc, 1, samples)?;
    let runs = run_both(alloc, &[(0x0400, code)], &QUIET, 0, 100)?;
    let writes = samples.len() as u64;
    let counts = counts_of(writes.wrapping_add(1), writes, 0, 1);
    look_at(rt, &runs, 100, wanted.as_slice(), counts);
    assert!(rt; runs.1.emitted.is_silent());
    Ok(())
}

/// The same driver where the first write alone has samples made, the eight before it: from then on the writes wait for 64 samples.
#[test]
fn writes_of_a_driver_wait_for_64_samples(rt: HostRuntime) -> Result<(), Fail> {
    let [directory, _, first, second] = SOURCE;
    let code = driver(0xFD, 2, 0x01);
    let pieces = [directory, first, second, (0x0400, &code)];
    let samples = [
        8, 16, 25, 33, 40, 49, 57, 64, 72, 81, 89, 96, 105, 113, 120, 128, 137, 145, 152, 161, 169,
        176, 184,
    ];
    let wanted = writes_of(rt.alloc(), 1, &samples)?;
    let runs = run_both(rt.alloc(), &pieces, &ALL_KEYED, 0, 190)?;
    // 8 samples, 64 and 64 more, and the last 54
    look_at(&rt, &runs, 190, wanted.as_slice(), counts_of(4, 1, 2, 1));
    assert!(rt; runs.1.emitted.is_silent());
    Ok(())
}

/// Two polls of a counter, one after the other, in an iteration of 12 cycles: what the first one sees is written to port 0, what the
/// second one sees, 5 cycles later, to port 1. So a counter that leaves 0 in the middle of an iteration is seen by the second one.
const TWO_POLLS: [u8; 22] = [
    0x8F, 0x02, 0xFA, 0x8F, 0x01, 0xF1, 0xE4, 0xFD, 0xD0, 0x08, 0xE4, 0xFD, 0xF0, 0xF8, 0xC4, 0xF5,
    0x2F, 0xF4, 0xC4, 0xF4, 0x2F, 0xF0,
];

/// The first poll comes at 13 and each 12 cycles on, 15 after a first poll that saw a 1, and 13 after such a second one.
#[test]
fn a_counter_leaves_0_in_the_middle_of_an_iteration(rt: HostRuntime) -> Result<(), Fail> {
    let mut wanted = Vec::new(rt.alloc());
    for (sample, port) in [
        (8, 1),
        (16, 1),
        (24, 0),
        (32, 0),
        (40, 1),
        (48, 0),
        (56, 0),
        (64, 1),
        (72, 0),
        (80, 0),
        (88, 1),
        (96, 0),
    ] {
        wanted.push(Record::Port {
            sample,
            port,
            value: 1,
        })?;
    }
    let runs = run_both(rt.alloc(), &[(0x0400, &TWO_POLLS)], &QUIET, 0, 100)?;
    look_at(&rt, &runs, 100, wanted.as_slice(), counts_of(13, 12, 0, 1));
    assert!(rt; runs.1.emitted.is_silent());
    Ok(())
}

/// An iteration of two branches, 9 cycles: a poll of the counter, a branch out that isn't taken, and a branch back. The write comes 27
/// cycles after the poll that sees a 1, and the next poll 35.
#[test]
fn a_loop_of_two_branches_waits(rt: HostRuntime) -> Result<(), Fail> {
    let code = [
        0x8F, 0x02, 0xFA, 0x8F, 0x01, 0xF1, 0xE4, 0xFD, 0xD0, 0x02, 0x2F, 0xFA, 0, 0, 0, 0, 0, 0,
        0, 0, 0, 0, 0xC4, 0xF4, 0x2F, 0xEC,
    ];
    let samples = [8, 16, 25, 32, 41, 48, 57, 64, 73, 80, 88, 97];
    poll_counter(&rt, rt.alloc(), &code, &samples)
}

/// A program writes 5Ah to port 0 and polls it, in an iteration of 7 cycles. It gets the input latch and not what it has written, and
/// sends it on to port 1 where it isn't 0.
#[test]
fn a_loop_polls_a_port(rt: HostRuntime) -> Result<(), Fail> {
    let [directory, _, first, second] = SOURCE;
    let code = [
        0x8F, 0x5A, 0xF4, 0xE4, 0xF4, 0xF0, 0xFC, 0xC4, 0xF5, 0x2F, 0xFE,
    ];
    let pieces = [directory, first, second, (0x0400, &code)];
    let written = Record::Port {
        sample: 0,
        port: 0,
        value: 0x5A,
    };
    let sent = Record::Port {
        sample: 0,
        port: 1,
        value: 0xC3,
    };
    for (latch, records) in [
        (0, [written].as_slice()),
        (0xC3, [written, sent].as_slice()),
    ] {
        let runs = run_both(rt.alloc(), &pieces, &KEYED_REGISTERS, latch, 200)?;
        look_at(&rt, &runs, 200, records, counts_of(4, 0, 3, 1));
        assert!(rt; are_heard_from_6_on(runs.1.emitted.frames.as_slice()));
    }
    Ok(())
}

/// An iteration of 12 cycles that polls a port, and then a counter 5 cycles later. The write, to the port that is polled, comes 25 cycles
/// after the poll that sees a 1, and the next poll of the counter 38.
#[test]
fn a_loop_polls_a_port_and_a_counter(rt: HostRuntime) -> Result<(), Fail> {
    let code = [
        0x8F, 0x02, 0xFA, 0x8F, 0x01, 0xF1, 0xE4, 0xF4, 0xD0, 0x12, 0xE4, 0xFD, 0xF0, 0xF8, 0, 0,
        0, 0, 0, 0, 0, 0, 0, 0, 0xC4, 0xF4, 0x2F, 0xEA, 0xC4, 0xF5, 0x2F, 0xFE,
    ];
    let samples = [8, 16, 25, 33, 40, 48, 56, 64, 73, 81, 88, 96];
    poll_counter(&rt, rt.alloc(), &code, &samples)
}

/// Three NOPs of 2 cycles, and then SLEEP or STOP, which lasts to the next sample, as each later step of the processor does.
#[test]
fn each_step_of_a_halted_processor_is_a_sample(rt: HostRuntime) -> Result<(), Fail> {
    let [directory, _, first, second] = SOURCE;
    for halt in [0xEF, 0xFF] {
        let code = [0x00, 0x00, 0x00, halt, 0x2F, 0xFE];
        let pieces = [directory, first, second, (0x0400, &code)];
        let (plain, late) = run_both(rt.alloc(), &pieces, &KEYED_REGISTERS, 0, 200)?;
        assert!(rt; are_alike(&plain, &late, 200) && late.emitted.records.is_empty());
        assert!(rt; are_heard_from_6_on(late.emitted.frames.as_slice()));
        assert!(rt; (plain.steps, late.steps) == (203, 203));
        assert!(rt; (plain.time, late.time) == ((200, 32), (200, 32)));
        assert!(rt; late.counts == counts_of(4, 0, 3, 1));
    }
    Ok(())
}

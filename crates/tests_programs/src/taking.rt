//! Steps that a bus takes by itself, as a render has it do.

use crate::machines::{CountedBus, Emitted, START, open_late, open_plain, opening_of};
use crate::waits::{QUIET, counts_of, driver};
use sound_bus::{Counts, DrainedBus};
use std::alloc::Global;
use std::process::Abort;
use std::test::Fail;
use test_support::writes_of;
use trace_form::Record;

/// What a bus emits that takes steps until 100 samples are due, with three times as many calls more each time as it has room for.
fn take_all<B: DrainedBus>(alloc: Global, bus: &mut B) -> Result<Emitted, Fail> {
    let mut cpu = START;
    let mut all = Emitted::none(alloc)?;
    for _ in 0u32..2000 {
        if bus.has_room_for_step() && bus.due() < 100 {
            bus.take_steps(&mut cpu, 100, 3);
            all.drain(bus)?;
        }
    }
    bus.settle();
    all.drain(bus)?;
    Ok(all)
}

/// What came of steps that a bus took.
#[derive(Drop)]
struct Taken {
    emitted: Emitted,
    counts: Counts,
    due: u32,
}

/// What comes of steps that a bus takes.
fn take_over<B: CountedBus>(alloc: Global, bus: &mut B) -> Result<Taken, Fail> {
    let emitted = take_all(alloc, bus)?;
    Ok(Taken {
        emitted,
        counts: bus.batches_of_each(),
        due: bus.due(),
    })
}

/// A program over the plain bus.
fn take_plain(alloc: Global, code: &[u8]) -> Result<Taken, Fail> {
    let opening = opening_of(alloc, &[(0x0400, code)], &QUIET)?;
    let mut bus = open_plain(alloc, opening, 0)?;
    take_over(alloc, &mut bus)
}

/// The same over the bus that makes samples late.
fn take_late(alloc: Global, code: &[u8]) -> Result<Taken, Fail> {
    let opening = opening_of(alloc, &[(0x0400, code)], &QUIET)?;
    let mut bus = open_late(alloc, opening, 0)?;
    take_over(alloc, &mut bus)
}

/// Checks what a program comes to over both buses: such records, silence in each sample, and such counts of the bus that makes
/// samples late.
fn look_at(
    rt: &impl Abort,
    alloc: Global,
    code: &[u8],
    records: &[Record],
    counts: Counts,
) -> Result<(), Fail> {
    let plain = take_plain(alloc, code)?;
    let late = take_late(alloc, code)?;
    assert!(rt; plain.emitted.records.as_slice() == records);
    assert!(rt; late.emitted.records.as_slice() == records);
    assert!(rt; (plain.counts, plain.due) == (counts_of(100, 0, 0, 0), 100));
    assert!(rt; (late.counts, late.due) == (counts, 100));
    assert!(rt; are_100_of_silence(&plain.emitted) && are_100_of_silence(&late.emitted));
    Ok(())
}

/// Whether 100 frames were emitted, and all of them are silence.
fn are_100_of_silence(emitted: &Emitted) -> bool {
    emitted.frames.len() == 100 && emitted.is_silent()
}

/// The driver writes in the samples in which it does so step by step: see `a_driver_polls_each_counter`.
#[test]
fn a_bus_takes_the_steps_of_a_driver(rt: HostRuntime) -> Result<(), Fail> {
    let samples = [
        5, 11, 16, 20, 26, 30, 36, 40, 46, 51, 55, 61, 65, 71, 75, 81, 86, 90, 96,
    ];
    let wanted = writes_of(rt.alloc(), 1, &samples)?;
    let code = driver(0xFF, 10, 0x04);
    look_at(
        &rt,
        rt.alloc(),
        &code,
        wanted.as_slice(),
        counts_of(20, 19, 0, 1),
    )
}

/// A loop of 11 cycles counts in page 7, which no sample reads, and port 0 gets a write at its 256th iteration, in sample 88. Then it goes
/// on, or the processor stops. The chip runs when 64 samples are pending, at that write, and at the end.
#[test]
fn steps_go_on_past_the_64th_pending_sample_and_a_stop(rt: HostRuntime) -> Result<(), Fail> {
    let wanted = writes_of(rt.alloc(), 0x5A, &[88])?;
    for [last, distance] in [[0x2F, 0xF5], [0xFF, 0x00]] {
        let code = [
            0xC5, 0x00, 0x07, 0xBC, 0xD0, 0xFA, 0x8F, 0x5A, 0xF4, last, distance,
        ];
        look_at(
            &rt,
            rt.alloc(),
            &code,
            wanted.as_slice(),
            counts_of(3, 1, 1, 1),
        )?;
    }
    Ok(())
}

//! Runs of the processor over the plain bus.

use crate::machines::{KEYED_REGISTERS, SOURCE, opening_of, run_plain};
use std::alloc::Global;
use std::process::Abort;
use std::test::Fail;
use trace_form::Record;

/// Checks what a program emits on a silent chip with such an FLG.
fn look_at(
    rt: &impl Abort,
    alloc: Global,
    code: &[u8],
    flg: u8,
    samples: u32,
    records: &[Record],
) -> Result<(), Fail> {
    let registers = [(0x6C, flg), (0x6D, if flg == 0 { 0x04 } else { 0xE0 })];
    let opening = opening_of(alloc, &[(0x0400, code)], &registers)?;
    let all = run_plain(alloc, opening, samples)?.emitted;
    assert!(rt; all.records.as_slice() == records);
    assert!(rt; all.is_silent());
    assert!(rt; all.frames.len() == samples as usize);
    Ok(())
}

/// A register write; one at an address from 80h on, which is none; and a port write in code whose first instruction, a branch to
/// itself, the echo overwrites at sample 0.
#[test]
fn programs_write_registers_and_ports(rt: HostRuntime) -> Result<(), Fail> {
    let write = Record::Reg {
        sample: 0,
        addr: 0x6C,
        value: 0x20,
    };
    let code = [0x8F, 0x6C, 0xF2, 0x8F, 0x20, 0xF3, 0x2F, 0xFE];
    look_at(&rt, rt.alloc(), &code, 0x60, 1, &[write])?;
    let code = [0x8F, 0xCC, 0xF2, 0x8F, 0x20, 0xF3, 0x2F, 0xFE];
    look_at(&rt, rt.alloc(), &code, 0x60, 1, &[])?;
    let write = Record::Port {
        sample: 1,
        port: 0,
        value: 0x5A,
    };
    let code = [0x2F, 0xFE, 0x00, 0x00, 0x8F, 0x5A, 0xF4, 0x2F, 0xFE];
    look_at(&rt, rt.alloc(), &code, 0x00, 3, &[write])
}

/// The sample and the byte of a write of port 0.
fn write_of(record: &Record) -> Option<(u32, u8)> {
    match *record {
        Record::Port {
            sample,
            port: 0,
            value,
        } => Some((sample, value)),
        _ => None,
    }
}

/// What a loop of 11 cycles writes at such a place, with the sample from the twentieth write on.
fn is_wanted(place: usize, record: &Record) -> bool {
    match write_of(record) {
        None => false,
        Some((_, value)) if place < 19 => value == 0,
        Some(write) => write == if place == 19 { (6, 0) } else { (7, 0x7F) },
    }
}

/// A loop of 11 cycles that reads ENVX of voice 0 and writes it to port 0. The voice is heard from sample 6 on, so the
/// writes before sample 7 are of zeros.
#[test]
fn a_loop_sends_the_envelope_to_a_port(rt: HostRuntime) -> Result<(), Fail> {
    let [directory, _, first, second] = SOURCE;
    let code: (u16, &[u8]) = (
        0x0400,
        &[0x8F, 0x08, 0xF2, 0xE4, 0xF3, 0xC4, 0xF4, 0x2F, 0xFA],
    );
    let opening = opening_of(
        rt.alloc(),
        &[directory, first, second, code],
        &KEYED_REGISTERS,
    )?;
    let all = run_plain(rt.alloc(), opening, 8)?.emitted;
    assert!(rt; all.records.len() == 23);
    for (place, record) in all.records.iter().enumerate() {
        assert!(rt; is_wanted(place, record), "at {place}");
    }
    Ok(())
}

//! Iterations over one page of memory.

use idle_loops::{ReadOnlyBus, try_iteration};
use spc700_exec::Cpu;
use std::test::Fail;

/// A page: each of its bytes is seen, and none at another address.
#[derive(Drop)]
struct Page {
    bytes: [u8; 256],
}

impl ReadOnlyBus for Page {
    ghost use Rattle.std.specs.Prelude.{nat_lt, if◌then◌else◌, slice_index, Some, None};

    ghost sees = { λ page at. if nat_lt at 0x100 then Some (slice_index page.bytes at) else None };

    fn peek(&self, addr: u16) -> Option<u8> {
        if addr < 0x100 {
            Some(self.bytes[usize::from(addr)])
        } else {
            None
        }
    }
}

/// A page with a program at 10h and a byte at F4h.
fn page_of(program: [u8; 5], polled: u8) -> Page {
    let mut bytes = [0; 256];
    bytes[0x10] = program[0];
    bytes[0x11] = program[1];
    bytes[0x12] = program[2];
    bytes[0x13] = program[3];
    bytes[0x14] = program[4];
    bytes[0xf4] = polled;
    Page { bytes }
}

/// A processor at 10h with the flag Z alone.
fn start(halted: bool) -> Cpu {
    Cpu {
        a: 0,
        x: 0,
        y: 0,
        sp: 0xef,
        pc: 0x10,
        psw: 0x02,
        halted,
    }
}

#[test]
fn iterations_that_only_wait(rt: HostRuntime) -> Result<(), Fail> {
    let rows = [
        // MOV A,$F4 and BEQ back to it, 3 cycles and 4, while F4h holds 0
        ([0xe4, 0xf4, 0xf0, 0xfc, 0], 0, false, Some(7)),
        // where it holds another number the branch isn't taken
        ([0xe4, 0xf4, 0xf0, 0xfc, 0], 1, false, None),
        // BRA to itself
        ([0x2f, 0xfe, 0, 0, 0], 0, false, Some(4)),
        // MOV A,!$0100 and BEQ back to it: no byte is seen there
        ([0xe5, 0x00, 0x01, 0xf0, 0xfb], 0, false, None),
        // MOV $20,A and BRA back to it: a write
        ([0xc4, 0x20, 0x2f, 0xfc, 0], 0, false, None),
        // SLEEP, and a processor that has halted: their time is that of the next sample
        ([0xef, 0, 0, 0, 0], 0, false, None),
        ([0x2f, 0xfe, 0, 0, 0], 0, true, None),
    ];
    for (program, polled, halted, cycles) in rows {
        let page = page_of(program, polled);
        assert!(rt; try_iteration(&page, &start(halted)) == cycles);
    }
    Ok(())
}

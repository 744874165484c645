// Runs of `dis` over a host in memory.
use command_dis::dis;
use exit_status::Status;
use std::alloc::Global;
use std::test::Fail;
use test_support::{OUTPUT_ROOM, Outcome, host_with};

/// Lists code from an origin on, where the calls of these numbers fail.
fn listed(alloc: Global, code: &[u8], origin: u16, failing: &[u32]) -> Result<Outcome, Fail> {
    let mut host = host_with(alloc, &[("IN", code)], failing, OUTPUT_ROOM)?;
    let refusal = dis(alloc, &mut host, "IN", origin, "OUT");
    Ok(Outcome::of(refusal, host))
}

/// Two instructions.
const TWO: &[u8] = b"\x8f\x5a\xf4\x2f\xfe";

/// Their listing from 0400h on.
const TWO_LINES: &[u8] = b"MOV $f4,#$5a\nBRA $0403\n";

/// Code with its origin, the listing and the report.
const LISTED: &[(&[u8], u16, &[u8], &str)] = &[
    (TWO, 0x0400, TWO_LINES, "lines 2\n"),
    (b"\x8f\x5a", 0x0400, b".byte $8f,$5a\n", "lines 1\n"),
    (b"", 0x0400, b"", "lines 0\n"),
    (b"\0", 0xffff, b"NOP\n", "lines 1\n"),
];

#[test]
fn code_is_listed(rt: HostRuntime) -> Result<(), Fail> {
    for (code, origin, text, report) in LISTED {
        let outcome = listed(rt.alloc(), code, *origin, &[])?;
        assert!(rt; outcome.is_done(text, report), "{report}");
    }
    Ok(())
}

/// So many zeros from an origin on, with the end and the complaint.
const REFUSED: &[(usize, u16, Status, &str)] = &[
    (
        2,
        0xffff,
        Status::CodeLength,
        "spcwave: 2 bytes do not fit at ffff\n",
    ),
    (
        65537,
        0x0000,
        Status::CodeLength,
        "spcwave: 65537 bytes do not fit at 0000\n",
    ),
    (
        1048576,
        0x0400,
        Status::CodeLength,
        "spcwave: 1048576 bytes do not fit at 0400\n",
    ),
    (
        1048577,
        0x0400,
        Status::InputTooLong,
        "spcwave: input is too long\n",
    ),
];

/// Lists so many zeros from an origin on.
fn listed_zeros(alloc: Global, length: usize, origin: u16) -> Result<Outcome, Fail> {
    let code = vec![in alloc; 0u8; length]?;
    listed(alloc, code.as_slice(), origin, &[])
}

#[test]
fn code_past_the_end_of_the_memory_is_refused(rt: HostRuntime) -> Result<(), Fail> {
    for (length, origin, status, complaint) in REFUSED {
        let outcome = listed_zeros(rt.alloc(), *length, *origin)?;
        assert!(rt; outcome.is_refused(*status, complaint), "{complaint}");
    }
    Ok(())
}

#[test]
fn the_whole_memory_is_listed(rt: HostRuntime) -> Result<(), Fail> {
    let outcome = listed_zeros(rt.alloc(), 65536, 0)?;
    assert!(rt; outcome.report() == b"lines 65536\n".as_slice());
    assert!(rt; outcome.status() == Status::Ok && outcome.first().len() == 262144);
    Ok(())
}

#[test]
fn each_call_of_the_host_may_fail(rt: HostRuntime) -> Result<(), Fail> {
    // The input is opened and read twice; then the output is created, written and ended, and the report is written.
    let whole = listed(rt.alloc(), TWO, 0x0400, &[])?;
    assert!(rt; whole.calls() == 7);
    for call in 0..7 {
        let outcome = listed(rt.alloc(), TWO, 0x0400, &[call])?;
        let holds = if call < 3 {
            outcome.is_unread(call)
        } else {
            outcome.is_cut_off(call, TWO_LINES, &[], "lines 2\n")
        };
        assert!(rt; holds, "at {call}");
    }
    Ok(())
}

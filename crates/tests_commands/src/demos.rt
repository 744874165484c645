// Runs of `demo` over a host in memory.
use command_demo::demo;
use exit_status::Status;
use std::alloc::Global;
use std::test::Fail;
use test_support::{FILE_LENGTH, OUTPUT_ROOM, Outcome, host_with};

/// Makes the demo file of 7, where the calls of these numbers fail.
fn demo_of_seven(alloc: Global, failing: &[u32]) -> Result<Outcome, Fail> {
    let mut host = host_with(alloc, &[], failing, OUTPUT_ROOM)?;
    let refusal = demo(alloc, &mut host, 7, "OUT");
    Ok(Outcome::of(refusal, host))
}

/// What is reported on it.
const REPORT: &str = "bytes 66048\n";

/// What it begins with: the signature, the version, the registers, and the title.
const FRONT: &[u8] =
    b"SNES-SPC700 Sound File Data v0.30\x1a\x1a\x1a\x1e\0\x04\0\0\0\0\xef\0\0demo 7\0";

/// Whether a file is that of 7: its length, what it begins with, and its first two draws, at 1000h in the memory.
fn is_of_seven(file: &[u8]) -> bool {
    file.len() == FILE_LENGTH
        && file.starts_with(FRONT)
        && file.get(0x1100..0x1102) == Some(b"\x90\xe9".as_slice())
}

#[test]
fn the_demo_file_of_seven_is_made(rt: HostRuntime) -> Result<(), Fail> {
    let outcome = demo_of_seven(rt.alloc(), &[])?;
    assert!(rt; outcome.status() == Status::Ok && outcome.complaint().is_empty());
    assert!(rt; outcome.report() == REPORT.as_bytes());
    assert!(rt; is_of_seven(outcome.first()));
    Ok(())
}

#[test]
fn each_call_of_the_host_may_fail(rt: HostRuntime) -> Result<(), Fail> {
    let whole = demo_of_seven(rt.alloc(), &[])?;
    assert!(rt; is_of_seven(whole.first()));
    for call in 0..whole.calls() {
        let outcome = demo_of_seven(rt.alloc(), &[call])?;
        assert!(rt;
            outcome.is_cut_off(call, whole.first(), &[], REPORT),
            "at {call}"
        );
    }
    Ok(())
}

// Runs of `asm` over a host in memory.
use command_asm::asm;
use exit_status::Status;
use std::alloc::Global;
use std::test::Fail;
use test_support::{OUTPUT_ROOM, Outcome, host_with};

/// Assembles a source from an origin on, where the calls of these numbers fail.
fn assembled(alloc: Global, source: &[u8], origin: u16, failing: &[u32]) -> Result<Outcome, Fail> {
    let mut host = host_with(alloc, &[("IN", source)], failing, OUTPUT_ROOM)?;
    let refusal = asm(alloc, &mut host, "IN", origin, "OUT");
    Ok(Outcome::of(refusal, host))
}

/// Three lines with a name, a comment and blanks.
const LOOP: &[u8] = b"loop: ; x\n mov a , $F3\nBNE loop\n";

/// The code of those lines from 0400h on.
const LOOP_CODE: &[u8] = b"\xe4\xf3\xd0\xfc";

/// Sources with their origins, their code and the reports.
const ASSEMBLED: &[(&[u8], u16, &[u8], &str)] = &[
    (LOOP, 0x0400, LOOP_CODE, "bytes 4\n"),
    (b"", 0x0400, b"", "bytes 0\n"),
    (b"NOP\nend:", 0xffff, b"\0", "bytes 1\n"),
];

#[test]
fn a_source_is_assembled(rt: HostRuntime) -> Result<(), Fail> {
    for (source, origin, code, report) in ASSEMBLED {
        let outcome = assembled(rt.alloc(), source, *origin, &[])?;
        assert!(rt; outcome.is_done(code, report), "{report}");
    }
    Ok(())
}

/// Sources with a line that is wrong, with the complaints.
const REFUSED: &[(&[u8], u16, &str)] = &[
    (
        b"NOP\nMOV A,#256\nBRA nowhere\n",
        0x0400,
        "spcwave: line 2: number\n",
    ),
    (b"NOP\nBRA nowhere\n", 0x0400, "spcwave: line 2: name\n"),
    (b"x:\nx:\n", 0x0400, "spcwave: line 2: twice\n"),
    (b"BRA $0500", 0x0400, "spcwave: line 1: far\n"),
    (b"NOP\nNOP\n", 0xffff, "spcwave: line 2: long\n"),
    (b"MOVA,X", 0x0400, "spcwave: line 1: form\n"),
];

#[test]
fn the_first_wrong_line_is_reported(rt: HostRuntime) -> Result<(), Fail> {
    for (source, origin, complaint) in REFUSED {
        let outcome = assembled(rt.alloc(), source, *origin, &[])?;
        assert!(rt;
            outcome.is_refused(Status::AsmLine, complaint),
            "{complaint}"
        );
    }
    Ok(())
}

/// Assembles an input of so many line feeds.
fn assembled_blank(alloc: Global, length: usize) -> Result<Outcome, Fail> {
    let source = vec![in alloc; b'\n'; length]?;
    assembled(alloc, source.as_slice(), 0, &[])
}

#[test]
fn an_input_above_the_limit_is_too_long(rt: HostRuntime) -> Result<(), Fail> {
    let longest = assembled_blank(rt.alloc(), 1048576)?;
    assert!(rt; longest.is_done(&[], "bytes 0\n"));
    let longer = assembled_blank(rt.alloc(), 1048577)?;
    assert!(rt; longer.is_refused(Status::InputTooLong, "spcwave: input is too long\n"));
    Ok(())
}

#[test]
fn each_call_of_the_host_may_fail(rt: HostRuntime) -> Result<(), Fail> {
    // The input is opened and read twice; then the output is created, written and ended, and the report is written.
    let whole = assembled(rt.alloc(), LOOP, 0x0400, &[])?;
    assert!(rt; whole.calls() == 7);
    for call in 0..7 {
        let outcome = assembled(rt.alloc(), LOOP, 0x0400, &[call])?;
        let holds = if call < 3 {
            outcome.is_unread(call)
        } else {
            outcome.is_cut_off(call, LOOP_CODE, &[], "bytes 4\n")
        };
        assert!(rt; holds, "at {call}");
    }
    Ok(())
}

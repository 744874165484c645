// The lines and the numbers of the statuses.
use command_runner::{Refusal, complain};
use exit_status::{Cause, LineFault, Status, status_for};
use snd_host::{MemHost, OutFile};
use std::alloc::Global;
use std::test::Fail;

/// Causes, with their numbers and their lines.
const CAUSES: &[(Cause, u8, &str)] = &[
    (
        Cause::SpcLength(7),
        4,
        "spcwave: length 7 is not that of an SPC file\n",
    ),
    (
        Cause::SpcSignature(26),
        5,
        "spcwave: signature differs at 26\n",
    ),
    (
        Cause::TableLength(1023),
        6,
        "spcwave: table has 1023 bytes, not 1024\n",
    ),
    (
        Cause::BrrLength(8),
        8,
        "spcwave: length 8 is not that of BRR blocks\n",
    ),
    (Cause::WavForm, 9, "spcwave: not a mono 16-bit PCM WAV\n"),
    (
        Cause::EncodeSize(0),
        10,
        "spcwave: 0 samples cannot be encoded\n",
    ),
    (Cause::InputTooLong, 11, "spcwave: input is too long\n"),
    (
        Cause::AsmLine {
            line: 2,
            fault: LineFault::Number,
        },
        12,
        "spcwave: line 2: number\n",
    ),
    (
        Cause::CodeLength {
            length: 2,
            origin: 0xffff,
        },
        13,
        "spcwave: 2 bytes do not fit at ffff\n",
    ),
    (
        Cause::CutList(1),
        14,
        "spcwave: cut list is wrong at line 1\n",
    ),
    (Cause::Script(1), 15, "spcwave: script is wrong at line 1\n"),
];

/// Whether the complaint of an end is this line.
fn has_line(alloc: Global, refusal: Refusal<Cause>, line: &str) -> Result<bool, Fail> {
    let rooms = vec![in alloc; 0, 100]?;
    let mut host = MemHost::new(alloc, Vec::new(alloc), Vec::new(alloc), rooms)?;
    complain(&mut host, Some(refusal));
    Ok(host.output(OutFile(1)) == line.as_bytes())
}

#[test]
fn each_cause_has_its_number_and_its_line(rt: HostRuntime) -> Result<(), Fail> {
    for (cause, number, line) in CAUSES {
        let refusal = Refusal::Input(*cause);
        assert!(rt; status_for(Some(refusal)).code() == *number, "{line}");
        assert!(rt; has_line(rt.alloc(), refusal, line)?, "{line}");
    }
    Ok(())
}

#[test]
fn the_other_ends_have_their_numbers(rt: HostRuntime) {
    assert!(rt; status_for(None) == Status::Ok);
    let rows = [
        (Status::Ok, 0),
        (Status::Usage, 1),
        (Status::ReadFault, 2),
        (Status::WriteFault, 3),
        (Status::OutOfMemory, 7),
    ];
    for (status, number) in rows {
        assert!(rt; status.code() == number, "{status:?}");
    }
}

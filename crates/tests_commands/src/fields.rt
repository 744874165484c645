// Runs of `info` over a host in memory.
use command_info::info;
use exit_status::Status;
use std::alloc::Global;
use std::test::Fail;
use test_support::{FILE_LENGTH, OUTPUT_ROOM, Outcome, Pieces, file_of, host_with};

/// The report on the base file of so many bytes with these pieces, where the calls of these numbers fail.
fn fields(alloc: Global, length: usize, pieces: Pieces, failing: &[u32]) -> Result<Outcome, Fail> {
    let file = file_of(alloc, length, pieces, &[])?;
    let mut host = host_with(alloc, &[("IN", file.as_slice())], failing, OUTPUT_ROOM)?;
    let refusal = info(alloc, &mut host, "IN");
    Ok(Outcome::of(refusal, host))
}

/// Whether the report has the fields of such a file, with these lines on its tags.
fn has_fields(alloc: Global, length: usize, pieces: Pieces, tags: &str) -> Result<bool, Fail> {
    let outcome = fields(alloc, length, pieces, &[])?;
    let registers = "pc 0400 a 00 x 00 y 00 psw 00 sp ef\n";
    let report = format!(in alloc; "length {length}\nminor 30\n{tags}{registers}")?;
    Ok(outcome.is_done(&[], report.as_str()))
}

/// A title, and a game with a backslash and a byte that is not printed.
const TAGS: Pieces = &[(0x23, b"\x1a"), (0x2e, b"Theme"), (0x4e, b"a\\\x07")];

/// The lines on those tags.
const TAGGED: &str =
    "tags yes\ntitle Theme\ngame a\\x5c\\x07\ndumper \ncomments \ndate \nseconds \nfade \nartist \n";

/// All tags, each as long as its field.
const FILLED: Pieces = &[
    (0x23, b"\x1a"),
    (0x2e, b"A title of thirty-two characters"),
    (0x4e, b"The game has as many: thirty-two"),
    (0x6e, b"Sixteen is a lot"),
    (0x7e, b"comments of thirty-two, and full"),
    (0x9e, b"29.11.2026."),
    (0xa9, b"123"),
    (0xac, b"45678"),
    (0xb1, b"Artist, whose name is very long."),
];

/// The lines on those tags.
const FULL: &str = "tags yes\ntitle A title of thirty-two characters\n\
    game The game has as many: thirty-two\ndumper Sixteen is a lot\n\
    comments comments of thirty-two, and full\ndate 29.11.2026.\nseconds 123\nfade 45678\n\
    artist Artist, whose name is very long.\n";

/// A title, and 60 bytes of extended tags behind the file, which nobody reads.
const EXTENDED: Pieces = &[(0x23, b"\x1a"), (0x2e, b"Theme"), (FILE_LENGTH, b"xid6")];

/// The lines on that title.
const TITLED: &str =
    "tags yes\ntitle Theme\ngame \ndumper \ncomments \ndate \nseconds \nfade \nartist \n";

/// Files, and the lines on their tags.
const SHOWN: &[(usize, Pieces, &str)] = &[
    (65920, &[], "tags no\n"),
    (FILE_LENGTH, &[], "tags no\n"),
    (1048576, &[], "tags no\n"),
    (FILE_LENGTH, &[(31, b"1")], "tags no\n"),
    (FILE_LENGTH, TAGS, TAGGED),
    (FILE_LENGTH, FILLED, FULL),
    (66108, EXTENDED, TITLED),
];

#[test]
fn each_file_shows_its_fields(rt: HostRuntime) -> Result<(), Fail> {
    for (length, pieces, tags) in SHOWN {
        assert!(rt;
            has_fields(rt.alloc(), *length, pieces, tags)?,
            "at {length}"
        );
    }
    Ok(())
}

/// Another minor version, and registers that differ from one another.
const REGISTERS: Pieces = &[(0x24, b"\x0a\x34\x12\x01\x02\x03\x04\x05")];

#[test]
fn each_register_is_shown(rt: HostRuntime) -> Result<(), Fail> {
    let outcome = fields(rt.alloc(), FILE_LENGTH, REGISTERS, &[])?;
    let report = "length 66048\nminor 10\ntags no\npc 1234 a 01 x 02 y 03 psw 04 sp 05\n";
    assert!(rt; outcome.is_done(&[], report));
    Ok(())
}

/// Files that are refused.
const REFUSED: &[(usize, Pieces, Status, &str)] = &[
    (
        65919,
        &[],
        Status::SpcLength,
        "spcwave: length 65919 is not that of an SPC file\n",
    ),
    (
        1048577,
        &[],
        Status::SpcLength,
        "spcwave: length 1048577 is not that of an SPC file\n",
    ),
    (
        100,
        &[(3, b"\0")],
        Status::SpcLength,
        "spcwave: length 100 is not that of an SPC file\n",
    ),
    (
        FILE_LENGTH,
        &[(26, b"\0")],
        Status::SpcSignature,
        "spcwave: signature differs at 26\n",
    ),
    (
        FILE_LENGTH,
        &[(26, b"\0"), (3, b"\0")],
        Status::SpcSignature,
        "spcwave: signature differs at 3\n",
    ),
];

#[test]
fn the_length_of_a_file_is_refused_before_its_signature(rt: HostRuntime) -> Result<(), Fail> {
    for (length, pieces, wanted, line) in REFUSED {
        let outcome = fields(rt.alloc(), *length, pieces, &[])?;
        assert!(rt; outcome.is_refused(*wanted, line), "{line}");
    }
    Ok(())
}

/// The report on the base file of 66048 bytes.
const BASE_REPORT: &str = "length 66048\nminor 30\ntags no\npc 0400 a 00 x 00 y 00 psw 00 sp ef\n";

/// Whether the base file may end so where this call fails.
fn may_end_so(outcome: &Outcome, call: u32) -> bool {
    // The input is opened and read 18 times, and then the report is written.
    if call < 19 {
        outcome.is_unread(call)
    } else {
        outcome.is_cut_off(call, &[], &[], BASE_REPORT)
    }
}

#[test]
fn each_call_of_the_host_may_fail(rt: HostRuntime) -> Result<(), Fail> {
    let calls = fields(rt.alloc(), FILE_LENGTH, &[], &[])?.calls();
    assert!(rt; calls == 20);
    for call in 0..20 {
        let outcome = fields(rt.alloc(), FILE_LENGTH, &[], &[call])?;
        assert!(rt; may_end_so(&outcome, call), "at {call}");
    }
    Ok(())
}

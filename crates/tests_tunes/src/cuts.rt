// Lists of cuts over a host in memory.
use command_cuts::cuts;
use exit_status::Status;
use std::alloc::Global;
use std::process::Abort;
use std::test::Fail;
use test_support::{
    DSP, ENDS_THE_BLOCK, FILE_LENGTH, FIVE, Frames, MEMORY, OUTPUT_ROOM, Outcome, Pieces, TAGS,
    file_of, host_with, straight_table, wave_of,
};

/// A program that loops over the pages from 10h on, changes a byte of each, and counts its steps in page 0.
const CHANGES_241_PAGES: Pieces = &[(
    MEMORY + 0x0400,
    b"\x8f\x00\x00\x8f\x10\x01\x8d\x00\xf7\x00\xbc\xd7\x00\x3a\x02\xab\x01\xd0\xf5\x2f\xee",
)];

/// A program that loops over all pages from page 4 on, one page a sample, and changes a byte of each. The page's number is in its own code, in page 4.
const CHANGES_A_PAGE_A_SAMPLE: Pieces = &[(
    MEMORY + 0x0400,
    b"\xac\x80\x04\xac\x02\x04\x00\x00\x00\x00\x00\x00\x00\x00\x00\x2f\xef",
)];

/// Renders the cuts of a list over these inputs, with these voices muted.
fn cut_over(alloc: Global, inputs: &[(&str, &[u8])], muted: u8) -> Result<Outcome, Fail> {
    let mut host = host_with(alloc, inputs, &[], OUTPUT_ROOM)?;
    let refusal = cuts(alloc, &mut host, "SPC", "TABLE", "LIST", "OUT", muted);
    Ok(Outcome::of(refusal, host))
}

/// Renders the cuts of a list, of file five with these pieces more and these voices muted.
fn cut_muted(alloc: Global, pieces: Pieces, list: &[u8], muted: u8) -> Result<Outcome, Fail> {
    let file = file_of(alloc, FILE_LENGTH, FIVE, pieces)?;
    let table = straight_table(alloc)?;
    let list = Vec::from_slice(alloc, list)?;
    let inputs = [
        ("SPC", file.as_slice()),
        ("TABLE", table.as_slice()),
        ("LIST", list.as_slice()),
    ];
    cut_over(alloc, &inputs, muted)
}

/// The same, with no voice muted.
fn cut_from(alloc: Global, pieces: Pieces, list: &[u8]) -> Result<Outcome, Fail> {
    cut_muted(alloc, pieces, list, 0)
}

/// Adds so many cuts without frames, each so many samples after the one before.
fn add_cuts(list: &mut Vec<u8>, count: u32, distance: u32) -> Result<(), Fail> {
    let mut at = 0u32;
    for _ in 0..count {
        at = at.wrapping_add(distance);
        list.extend_from_slice(itoa::Buffer::new().format(at).as_bytes())?;
        list.extend_from_slice(b" 0\n")?;
    }
    Ok(())
}

/// A list of so many cuts without frames, each so many samples after the one before.
fn list_of(alloc: Global, count: u32, distance: u32, last: &str) -> Result<Vec<u8>, Fail> {
    let mut list = Vec::new(alloc);
    add_cuts(&mut list, count, distance)?;
    list.extend_from_slice(last.as_bytes())?;
    Ok(list)
}

/// The program writes a port, and so the page of memory beneath it.
const WRITES_A_PORT: Pieces = &[(MEMORY + 0x0400, b"\x8f\x5a\xf4\x2f\xfe")];

/// Pieces of the tune, a list, the frames of its cuts, and the report.
const CUTS: &[(Pieces, &str, Frames, &str)] = &[
    (
        &[],
        "6 2\n0 8",
        &[(2, 4000), (6, 0), (2, 4000)],
        "cuts 2 samples 10 checkpoints 2 pages 256 made 16\n",
    ),
    (
        ENDS_THE_BLOCK,
        "0 1\n70 1\n60 2\n",
        &[(2, 0), (2, 4000)],
        "cuts 3 samples 4 checkpoints 3 pages 258 made 133\n",
    ),
    (
        WRITES_A_PORT,
        "6 1",
        &[(1, 4000)],
        "cuts 1 samples 1 checkpoints 2 pages 257 made 7\n",
    ),
    (
        TAGS,
        "032016 1\r\n",
        &[(1, 4000)],
        "cuts 1 samples 1 checkpoints 2 pages 256 made 32017\n",
    ),
    (
        &[],
        "",
        &[],
        "cuts 0 samples 0 checkpoints 1 pages 256 made 0\n",
    ),
];

/// Whether the cuts of a list have these frames and this report.
fn has_cuts(
    alloc: Global,
    pieces: Pieces,
    list: &str,
    frames: Frames,
    report: &str,
) -> Result<bool, Fail> {
    let outcome = cut_from(alloc, pieces, list.as_bytes())?;
    let wave = wave_of(alloc, frames)?;
    Ok(outcome.is_done(wave.as_slice(), report))
}

#[test]
fn cuts_of_a_tune(rt: HostRuntime) -> Result<(), Fail> {
    for (pieces, list, frames, report) in CUTS {
        assert!(rt;
            has_cuts(rt.alloc(), *pieces, list, *frames, report)?,
            "{list}"
        );
    }
    Ok(())
}

/// Voice 1 plays as voice 0 does, at volume 64.
const TWO_VOICES: Pieces = &[
    (DSP + 0x10, b"\x40\x40\0\x10\0\0\0\x7f"),
    (DSP + 0x4c, b"\x03"),
];

/// Muted voices, and the frames of the cuts. In traces of two files with one voice each the outputs are 4,064: 4,032 at volume 127 and
/// 2,032 at 64. The main volumes, 127 too, make 6,016 of both, 2,016 of voice 1 and 4,000 of voice 0.
const MUTED: &[(u8, Frames)] = &[
    (0x00, &[(2, 6016), (6, 0), (2, 6016)]),
    (0x01, &[(2, 2016), (6, 0), (2, 2016)]),
    (0xfe, &[(2, 4000), (6, 0), (2, 4000)]),
    (0x03, &[(10, 0)]),
];

#[test]
fn cuts_with_muted_voices(rt: HostRuntime) -> Result<(), Fail> {
    for (muted, frames) in MUTED {
        let outcome = cut_muted(rt.alloc(), TWO_VOICES, b"6 2\n0 8", *muted)?;
        let wave = wave_of(rt.alloc(), *frames)?;
        let report = "cuts 2 samples 10 checkpoints 2 pages 256 made 16\n";
        assert!(rt; outcome.is_done(wave.as_slice(), report), "{muted}");
    }
    Ok(())
}

/// Pieces of the tune, how many cuts there are, how far apart they are, the last one, and the report.
const MANY: &[(Pieces, u32, u32, &str, &str)] = &[
    (
        &[],
        63,
        1,
        "64 0",
        "cuts 64 samples 0 checkpoints 64 pages 256 made 64\n",
    ),
    (
        CHANGES_241_PAGES,
        20,
        400,
        "6000 1",
        "cuts 21 samples 1 checkpoints 16 pages 3871 made 8001\n",
    ),
    (
        CHANGES_A_PAGE_A_SAMPLE,
        15,
        256,
        "3841 0",
        "cuts 16 samples 0 checkpoints 16 pages 4096 made 3841\n",
    ),
    (
        &[],
        999,
        0,
        "0 1",
        "cuts 1000 samples 1 checkpoints 1 pages 256 made 1\n",
    ),
];

/// Renders the cuts of such a list.
fn cut_many(
    alloc: Global,
    pieces: Pieces,
    count: u32,
    distance: u32,
    last: &str,
) -> Result<Outcome, Fail> {
    let list = list_of(alloc, count, distance, last)?;
    cut_from(alloc, pieces, list.as_slice())
}

/// Checks the report of what was done.
fn look_at(rt: &impl Abort, outcome: &Outcome, report: &str) {
    assert!(rt;
        outcome.status() == Status::Ok && outcome.report() == report.as_bytes(),
        "{report}"
    );
}

/// Up to 64 checkpoints are taken, that of sample 0 among them, as long as 4,096 pages are enough: of those that change 241
/// pages there are 15 more. A last cut goes back to the last of them. Of those that change all 256 pages there are 15 more,
/// too, which leave no page: a sample later, where one page has changed, there is no checkpoint.
#[test]
fn checkpoints_run_out(rt: HostRuntime) -> Result<(), Fail> {
    for (pieces, count, distance, last, report) in MANY {
        let outcome = cut_many(rt.alloc(), *pieces, *count, *distance, last)?;
        look_at(&rt, &outcome, report);
    }
    Ok(())
}

/// Lists, and what is known of their first wrong lines.
const WRONG: &[(&[u8], &str)] = &[
    (b"5", "spcwave: cut list is wrong at line 1\n"),
    (b"115200000 1", "spcwave: cut list is wrong at line 1\n"),
    (b"7 1\n\n0 1\n", "spcwave: cut list is wrong at line 2\n"),
];

/// Checks a list that was refused.
fn look_at_refusal(rt: &impl Abort, outcome: &Outcome, line: &str) {
    assert!(rt; outcome.is_refused(Status::CutList, line), "{line}");
}

#[test]
fn lists_with_a_wrong_line(rt: HostRuntime) -> Result<(), Fail> {
    for (list, line) in WRONG {
        let outcome = cut_from(rt.alloc(), &[], list)?;
        look_at_refusal(&rt, &outcome, line);
    }
    let outcome = cut_many(rt.alloc(), &[], 1000, 0, "0 0")?;
    look_at_refusal(&rt, &outcome, "spcwave: cut list is wrong at line 1001\n");
    Ok(())
}

/// The table is asked for, and has to be right, before the list is.
#[test]
fn the_table_comes_before_the_list(rt: HostRuntime) -> Result<(), Fail> {
    let file = file_of(rt.alloc(), FILE_LENGTH, FIVE, &[])?;
    let tune = ("SPC", file.as_slice());
    let list = ("LIST", b"5".as_slice());
    let missing = cut_over(rt.alloc(), &[tune, list], 0)?;
    assert!(rt; missing.is_refused(Status::ReadFault, "spcwave: input could not be read\n"));
    let table = ("TABLE", b"abc".as_slice());
    let short = cut_over(rt.alloc(), &[tune, table, list], 0)?;
    assert!(rt;
        short.is_refused(
            Status::TableLength,
            "spcwave: table has 3 bytes, not 1024\n"
        )
    );
    Ok(())
}

/// A list may have 1,048,576 bytes; one with more isn't read.
#[test]
fn lists_that_are_too_long(rt: HostRuntime) -> Result<(), Fail> {
    let long = vec![in rt.alloc(); b'\n'; 1048577]?;
    let outcome = cut_from(rt.alloc(), &[], long.as_slice())?;
    assert!(rt; outcome.is_refused(Status::InputTooLong, "spcwave: input is too long\n"));
    let longest = vec![in rt.alloc(); b'\n'; 1048576]?;
    let outcome = cut_from(rt.alloc(), &[], longest.as_slice())?;
    look_at_refusal(&rt, &outcome, "spcwave: cut list is wrong at line 1\n");
    Ok(())
}

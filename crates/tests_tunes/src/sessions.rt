// Sessions over a host in memory.
ghost use Rattle.std.specs.Prelude.{◌≤◌};
ghost use Rattle.page_pool.specs.Pool.{max_pages};
ghost use Rattle.cut_form.specs.Checkpoints.{min_pages};
ghost use Rattle.command_serve.specs.Serve.{AreOptionsInRange};

use command_serve::{SessionOptions, serve};
use exit_status::Status;
use std::alloc::Global;
use std::test::Fail;
use test_support::{
    DSP, ENDS_THE_BLOCK, FILE_LENGTH, FIVE, MEMORY, OUTPUT_ROOM, Outcome, Pieces, file_of,
    host_with, straight_table, wave_of,
};

/// A program that counts at 0700h, 224 times in 70 samples.
const COUNTS: Pieces = &[(MEMORY + 0x0400, b"\xac\x00\x07\x2f\xfb")];

/// Runs a script over these inputs, with these options.
fn serve_over(
    alloc: Global,
    inputs: &[(&str, &[u8])],
    options: SessionOptions,
) -> Result<Outcome, Fail>
    requires { AreOptionsInRange options }
{
    let mut host = host_with(alloc, inputs, &[], OUTPUT_ROOM)?;
    let refusal = serve(alloc, &mut host, "SPC", "TABLE", "SCRIPT", "OUT", options);
    Ok(Outcome::of(refusal, host))
}

/// Runs a script over file five with these pieces more, with these options.
fn served_with(
    alloc: Global,
    more: Pieces,
    script: &[u8],
    options: SessionOptions,
) -> Result<Outcome, Fail>
    requires { AreOptionsInRange options }
{
    let file = file_of(alloc, FILE_LENGTH, FIVE, more)?;
    let table = straight_table(alloc)?;
    let script = Vec::from_slice(alloc, script)?;
    let inputs = [
        ("SPC", file.as_slice()),
        ("TABLE", table.as_slice()),
        ("SCRIPT", script.as_slice()),
    ];
    serve_over(alloc, &inputs, options)
}

/// The same, with so many pages and no voice muted.
fn served(alloc: Global, more: Pieces, script: &[u8], pages: u32) -> Result<Outcome, Fail>
    requires enough { min_pages ≤ pages }
    requires few { pages ≤ max_pages }
{
    served_with(alloc, more, script, SessionOptions { pages, muted: 0 })
}

/// Whether all was done, with the sound file of these frames and this report.
fn has_frames(
    alloc: Global,
    outcome: &Outcome,
    frames: &[(u32, i16)],
    report: &str,
) -> Result<bool, Fail> {
    let wave = wave_of(alloc, frames)?;
    Ok(outcome.is_done(wave.as_slice(), report))
}

/// Whether a script plays so many frames of silence, of 4000 and of silence again, and has this report.
fn plays(
    alloc: Global,
    script: &str,
    pages: u32,
    report: &str,
    counts: [u32; 3],
) -> Result<bool, Fail>
    requires enough { min_pages ≤ pages }
    requires few { pages ≤ max_pages }
{
    let outcome = served(alloc, ENDS_THE_BLOCK, script.as_bytes(), pages)?;
    let frames = [(counts[0], 0i16), (counts[1], 4000), (counts[2], 0)];
    has_frames(alloc, &outcome, &frames, report)
}

#[test]
fn sessions_with_few_pages(rt: HostRuntime) -> Result<(), Fail> {
    let whole = "play 70\nmark\nseek 60\nmark\nfree\ndrop 60\ndrop 0\nfree\n";
    let known =
        "played 70 at 70\nmark 70 gave 0\nat 60\nmark 60 gave 1\nfree 1 marks 2 made 130\ndropped 60\nnone 0\n\
        free 1 marks 1 made 130\n";
    // How many frames of silence are played, of 4000 and of silence again.
    for (script, pages, report, counts) in [
        (whole, 257, known, [6, 58, 6]),
        (
            "play 70\nmark",
            256,
            "played 70 at 70\nno pages need 1 free 0\n",
            [6, 58, 6],
        ),
        (
            "play 1\nplay 115200000\nseek 0\nmark\n",
            4096,
            "played 1 at 1\nrefused 115200000\nat 0\nkept 0\n",
            [1, 0, 0],
        ),
        (
            "seek 007\r\nplay 2",
            256,
            "at 7\nplayed 2 at 9\n",
            [0, 2, 0],
        ),
        ("", 4096, "", [0, 0, 0]),
    ] {
        assert!(rt;
            plays(rt.alloc(), script, pages, report, counts)?,
            "{script}"
        );
    }
    Ok(())
}

/// Voice 1 plays as voice 0 does, at volume 64.
const TWO_VOICES: Pieces = &[
    (DSP + 0x10, b"\x40\x40\0\x10\0\0\0\x7f"),
    (DSP + 0x4c, b"\x03"),
];

/// In traces of two files with one voice each the outputs are 4,064: 4,032 at volume 127 and 2,032 at 64. The main volumes, 127 too, make
/// 6,016 of both, 2,016 of voice 1 and 4,000 of voice 0. What goes back to a mark plays the same.
#[test]
fn sessions_with_muted_voices(rt: HostRuntime) -> Result<(), Fail> {
    for (muted, side) in [(0x00, 6016i16), (0x01, 2016), (0xfe, 4000), (0x03, 0)] {
        let options = SessionOptions { pages: 4096, muted };
        let outcome = served_with(rt.alloc(), TWO_VOICES, b"play 8\nseek 0\nplay 9\n", options)?;
        let frames = [(6, 0i16), (2, side), (6, 0), (3, side)];
        let report = "played 8 at 8\nat 0\nplayed 9 at 9\n";
        assert!(rt;
            has_frames(rt.alloc(), &outcome, &frames, report)?,
            "{muted}"
        );
    }
    Ok(())
}

/// Each mark needs a page, and there are two beside those of the opening: the third mark gives up the first one.
#[test]
fn the_oldest_mark_is_given_up(rt: HostRuntime) -> Result<(), Fail> {
    let script = b"seek 70\nmark\nseek 140\nmark\nseek 210\nmark\ndrop 70\ndrop 140\nfree\n";
    let report =
        "at 70\nmark 70 gave 0\nat 140\nmark 140 gave 0\nat 210\nmark 210 gave 1\nnone 70\ndropped 140\n\
        free 1 marks 2 made 210\n";
    let outcome = served(rt.alloc(), COUNTS, script.as_slice(), 258)?;
    assert!(rt; has_frames(rt.alloc(), &outcome, &[], report)?);
    Ok(())
}

#[test]
fn scripts_with_a_wrong_line(rt: HostRuntime) -> Result<(), Fail> {
    for (script, line) in [
        ("seek 115200001", "spcwave: script is wrong at line 1\n"),
        ("mark\n\nfree\n", "spcwave: script is wrong at line 2\n"),
        ("seek 7\nplay  1\n", "spcwave: script is wrong at line 2\n"),
    ] {
        let outcome = served(rt.alloc(), ENDS_THE_BLOCK, script.as_bytes(), 256)?;
        assert!(rt; outcome.is_refused(Status::Script, line), "{script}");
    }
    Ok(())
}

/// Runs a script with a wrong line over file five and a table of these bytes.
fn served_by(alloc: Global, table: &[u8]) -> Result<Outcome, Fail> {
    let file = file_of(alloc, FILE_LENGTH, FIVE, &[])?;
    let table = Vec::from_slice(alloc, table)?;
    let inputs = [
        ("SPC", file.as_slice()),
        ("TABLE", table.as_slice()),
        ("SCRIPT", b"seek 115200001".as_slice()),
    ];
    let options = SessionOptions {
        pages: 256,
        muted: 0,
    };
    serve_over(alloc, &inputs, options)
}

/// The table is read, and has to be right, before the script is.
#[test]
fn the_table_comes_before_the_script(rt: HostRuntime) -> Result<(), Fail> {
    let table = vec![in rt.alloc(); 0u8; 1048577]?;
    let long = served_by(rt.alloc(), table.as_slice())?;
    assert!(rt; long.is_refused(Status::InputTooLong, "spcwave: input is too long\n"));
    let short = served_by(rt.alloc(), b"abc")?;
    assert!(rt;
        short.is_refused(
            Status::TableLength,
            "spcwave: table has 3 bytes, not 1024\n"
        )
    );
    Ok(())
}

/// A script may have 1,048,576 bytes; one with more isn't read.
#[test]
fn scripts_that_are_too_long(rt: HostRuntime) -> Result<(), Fail> {
    let long = vec![in rt.alloc(); b'\n'; 1048577]?;
    let outcome = served(rt.alloc(), &[], long.as_slice(), 256)?;
    assert!(rt; outcome.is_refused(Status::InputTooLong, "spcwave: input is too long\n"));
    let longest = vec![in rt.alloc(); b'\n'; 1048576]?;
    let outcome = served(rt.alloc(), &[], longest.as_slice(), 256)?;
    assert!(rt; outcome.is_refused(Status::Script, "spcwave: script is wrong at line 1\n"));
    Ok(())
}

// Demo files, made and checked by the program over a host in memory.
use crate::runs::{render_straight, run_words};
use exit_status::Status;
use std::alloc::Global;
use std::process::Abort;
use std::test::Fail;
use test_support::{HEADER_SIZE, OUTPUT_ROOM, Outcome};

/// Sums over the frames of a sound file.
#[derive(Clone, Copy)]
struct Summed {
    left: i64,
    right: i64,
    mix: u32,
}

fn sums_of_wave(wave: &[u8]) -> Summed {
    let mut sums = Summed {
        left: 0,
        right: 0,
        mix: 0,
    };
    for frame in wave.chunks_exact(4) {
        if let [a, b, c, d] = frame {
            let left = i32::from(i16::from_le_bytes([*a, *b]));
            let right = i32::from(i16::from_le_bytes([*c, *d]));
            sums.left = sums.left.wrapping_add(i64::from(left));
            sums.right = sums.right.wrapping_add(i64::from(right));
            sums.mix = sums.mix.wrapping_mul(5).wrapping_add(left.cast_unsigned());
            sums.mix = sums.mix.wrapping_add(right.cast_unsigned().wrapping_mul(3));
        }
    }
    sums
}

/// Renders the demo file of 7 to an output of this room, with these words more.
fn render_seven(alloc: Global, words: &[&str], room: usize) -> Result<Outcome, Fail> {
    let made = run_words(alloc, &["demo", "7", "OUT"], &[])?;
    render_straight(alloc, made.first(), words, room)
}

/// Checks a render of three minutes.
fn look_at_whole(rt: &impl Abort, played: &Outcome) {
    assert!(rt; played.status() == Status::Ok && played.complaint().is_empty());
    assert!(rt; played.report().starts_with(b"samples 5760000\n"));
    assert!(rt; played.first().len() == 23040044);
}

/// The demo file of 7 has tags, but no seconds among them, so it lasts three minutes.
#[test]
fn the_demo_file_of_seven_is_rendered_whole(rt: HostRuntime) -> Result<(), Fail> {
    let played = render_seven(rt.alloc(), &[], 23040044)?;
    look_at_whole(&rt, &played);
    Ok(())
}

/// How a report on these sums begins.
fn lines_of(alloc: Global, sums: Summed) -> Result<String, Fail> {
    let Summed { left, right, mix } = sums;
    Ok(format!(in alloc; "left {left}\nright {right}\nmix {mix}\n")?)
}

/// How a report on the sums of a sound file begins.
fn lines_of_wave(alloc: Global, wave: &[u8]) -> Result<String, Fail> {
    lines_of(alloc, sums_of_wave(wave.get(HEADER_SIZE..).unwrap_or(&[])))
}

/// Whether a check shows these sums, and then the batches that a render of as many samples shows.
fn has_sums(checked: &[u8], lines: &[u8], played: &[u8]) -> bool {
    let front = b"samples 320000\n";
    match (checked.strip_prefix(front), played.strip_prefix(front)) {
        (Some(known), Some(batches)) => known.strip_prefix(lines) == Some(batches),
        _ => false,
    }
}

/// Checks a render of ten seconds, and at a check, which shows these sums.
fn look_at_check(rt: &impl Abort, played: &Outcome, checked: &Outcome, lines: &[u8]) {
    assert!(rt; played.status() == Status::Ok && played.first().len() == 1280044);
    assert!(rt; checked.status() == Status::Ok);
    assert!(rt; has_sums(checked.report(), lines, played.report()));
}

/// The demo file of 7, rendered for ten seconds, has the sums that the check shows, and is made in the same batches.
#[test]
fn the_check_of_seven_is_that_of_its_frames(rt: HostRuntime) -> Result<(), Fail> {
    let played = render_seven(rt.alloc(), &["--samples", "320000"], OUTPUT_ROOM)?;
    let lines = lines_of_wave(rt.alloc(), played.first())?;
    let checked = run_words(rt.alloc(), &["check", "7"], &[])?;
    look_at_check(&rt, &played, &checked, lines.as_bytes());
    Ok(())
}

// Runs of `rip` over a host in memory.
use command_rip::rip;
use exit_status::Status;
use snd_host::MemHost;
use std::alloc::Global;
use std::process::Abort;
use std::test::Fail;
use test_support::{
    DSP, FILE_LENGTH, FIVE, HEADER_SIZE, MEMORY, Outcome, Pieces, STEADY_WAV, file_of,
};

/// A file of the base file and these pieces.
fn files_of(alloc: Global, pieces: (Pieces, Pieces)) -> Result<Vec<(String, Vec<u8>)>, Fail> {
    let file = file_of(alloc, FILE_LENGTH, pieces.0, pieces.1)?;
    let name = String::from_str(alloc, "SPC")?;
    Ok(vec![in alloc; (name, file)]?)
}

/// The room for the report and the complaint, and for so many outputs of this room.
fn rooms_of(alloc: Global, outputs: (usize, usize)) -> Result<Vec<usize>, Fail> {
    let mut rooms = vec![in alloc; 20000, 100]?;
    for _ in 0..outputs.0 {
        rooms.push(outputs.1)?;
    }
    Ok(rooms)
}

/// Rips a file of the base file and these pieces, where the calls of these numbers fail and so many outputs have this room.
fn rip_file(
    alloc: Global,
    pieces: (Pieces, Pieces),
    range: Option<(u8, u8)>,
    failing: &[u32],
    outputs: (usize, usize),
) -> Result<Outcome, Fail> {
    let files = files_of(alloc, pieces)?;
    let rooms = rooms_of(alloc, outputs)?;
    let mut host = MemHost::new(alloc, files, failing.to_vec(alloc)?, rooms)?;
    let refusal = rip(alloc, &mut host, "SPC", "S", range);
    Ok(Outcome::of(refusal, host))
}

/// The loop word of the first entry is its start.
const LOOPED: Pieces = &[(MEMORY + 0x0202, b"\x00\x05")];

/// The same sample in the extra bytes, while the file's memory shows the boot ROM in its place.
const BENEATH: Pieces = &[
    (MEMORY + 0xf1, b"\x80"),
    (MEMORY + 0x0200, b"\xc0\xff\xc0\xff"),
    (DSP + 0xc0, b"\xc3\x11\x11\x11\x11\x11\x11\x11\x11"),
];

#[test]
fn one_entry_that_loops_outside_or_to_itself(rt: HostRuntime) -> Result<(), Fail> {
    for (more, report) in [
        (
            &[] as Pieces,
            "entry 00 start 0500 blocks 1 loop outside worst 0 squares 0\nentries 1\n",
        ),
        (
            LOOPED,
            "entry 00 start 0500 blocks 1 loop 0 worst 0 squares 0\nentries 1\n",
        ),
        (
            BENEATH,
            "entry 00 start ffc0 blocks 1 loop 0 worst 0 squares 0\nentries 1\n",
        ),
    ] {
        let outcome = rip_file(rt.alloc(), (FIVE, more), None, &[], (1, 76))?;
        assert!(rt; outcome.is_done(STEADY_WAV, report));
    }
    Ok(())
}

/// Checks a report, and at how many bytes the first output has.
fn look_at(rt: &impl Abort, outcome: &Outcome, report: &[u8], length: usize) {
    assert!(rt; outcome.report() == report && outcome.first().len() == length);
}

/// Checks the four last samples of block 113, which holds the two bytes of the program: they are 2, -2, -2 and -2.
fn look_at_program(rt: &impl Abort, wave: &[u8]) {
    let at = HEADER_SIZE + 2 * (16 * 113 + 12);
    assert!(rt; wave.get(at..at + 8) == Some(b"\x02\0\xfe\xff\xfe\xff\xfe\xff".as_slice()));
}

#[test]
fn a_sample_without_an_end(rt: HostRuntime) -> Result<(), Fail> {
    let outcome = rip_file(rt.alloc(), (&[], &[]), None, &[], (1, 233004))?;
    let line = b"entry 00 start 0000 blocks 7280 loop open worst 0 squares 0\nentries 1\n";
    look_at(&rt, &outcome, line, 233004);
    look_at_program(&rt, outcome.first());
    Ok(())
}

/// Two blocks under unlike headers, the second of which ends with a loop to itself.
const CHANGED: Pieces = &[
    (MEMORY + 0x0200, b"\x00\x05\x09\x05"),
    (
        MEMORY + 0x0500,
        b"\x84\x77\x12\x34\0\0\0\0\x10\x8b\x10\0\0\xf0\0\0\0\x01",
    ),
    (DSP + 0x5d, b"\x02"),
];

/// Its 32 samples as a sound file. They, and the numbers of the report, were worked out by a decoder and an encoder that were written from
/// the rules of BRR alone, in another language.
const CHANGED_WAV: &[u8] =
    b"RIFF\x64\0\0\0WAVEfmt \x10\0\0\0\x01\0\x01\0\0\x7d\0\0\0\xfa\0\0\x02\0\x10\0data\x40\0\0\0\
    \x00\x07\x90\x0d\xb6\x0d\xda\x0e\xec\x10\xdc\x13\x9e\x12\x74\x11\x5c\x10\x56\x0f\x60\x0e\x7a\x0d\xa2\x0c\xd6\x0b\x18\x0c\x56\x0b\
    \x42\x0b\xd2\x0a\x12\x0a\x0c\x09\xcc\x07\x60\x06\xd6\x03\x54\x01\xee\xfe\xb4\xfc\xb6\xfa\x00\xf9\x9c\xf7\x90\xf6\xde\xf5\x86\xf6";

#[test]
fn a_sample_that_is_encoded_again_with_errors(rt: HostRuntime) -> Result<(), Fail> {
    let outcome = rip_file(rt.alloc(), (CHANGED, &[]), None, &[], (1, 108))?;
    let report = "entry 00 start 0500 blocks 2 loop 16 worst 438 squares 1236604\nentries 1\n";
    assert!(rt; outcome.is_done(CHANGED_WAV, report));
    Ok(())
}

/// Three entries of one block.
const THREE: Pieces = &[(MEMORY + 0x0204, b"\x00\x05\x00\x05\x00\x05\x00\x05")];

/// What is reported on them: the first one loops outside of itself, the others to their start.
const THREE_REPORT: &str = "entry 00 start 0500 blocks 1 loop outside worst 0 squares 0\n\
    entry 01 start 0500 blocks 1 loop 0 worst 0 squares 0\n\
    entry 02 start 0500 blocks 1 loop 0 worst 0 squares 0\nentries 3\n";

/// Rips them, where the calls of these numbers fail.
fn rip_three(alloc: Global, failing: &[u32]) -> Result<Outcome, Fail> {
    rip_file(alloc, (FIVE, THREE), Some((1, 2)), failing, (3, 76))
}

/// The first of so many calls that leaves what it may not where it fails.
fn first_lawless_call(alloc: Global, calls: u32) -> Result<Option<u32>, Fail> {
    for call in 0..calls {
        let outcome = rip_three(alloc, &[call])?;
        let cut = outcome.is_cut_off(call, STEADY_WAV, STEADY_WAV, THREE_REPORT);
        if !outcome.is_unread(call) && !cut {
            return Ok(Some(call));
        }
    }
    Ok(None)
}

/// Checks all three, where no call fails.
fn look_at_whole(rt: &impl Abort, whole: &Outcome) {
    assert!(rt; whole.is_done(STEADY_WAV, THREE_REPORT));
    assert!(rt; whole.second() == STEADY_WAV);
}

#[test]
fn each_call_of_the_host_may_fail(rt: HostRuntime) -> Result<(), Fail> {
    let whole = rip_three(rt.alloc(), &[])?;
    look_at_whole(&rt, &whole);
    let lawless = first_lawless_call(rt.alloc(), whole.calls())?;
    assert!(rt; lawless == None);
    Ok(())
}

/// The call that creates the third output. An output takes as many calls as the next.
fn third_creation(alloc: Global) -> Result<u32, Fail> {
    let one = rip_file(alloc, (FIVE, THREE), None, &[], (3, 76))?.calls();
    let three = rip_three(alloc, &[])?.calls();
    Ok(
        one.wrapping_add(three.wrapping_sub(one) / 2)
            .wrapping_sub(1),
    )
}

/// Checks the outputs before the third one, whose creation fails in the call of this number.
fn look_at_two(rt: &impl Abort, outcome: &Outcome, third: u32) {
    assert!(rt; outcome.first() == STEADY_WAV);
    assert!(rt; outcome.second() == STEADY_WAV);
    assert!(rt; outcome.report().is_empty() && outcome.calls() == third.wrapping_add(2));
}

#[test]
fn outputs_before_one_that_fails_stay(rt: HostRuntime) -> Result<(), Fail> {
    let third = third_creation(rt.alloc())?;
    let outcome = rip_three(rt.alloc(), &[third])?;
    look_at_two(&rt, &outcome, third);
    Ok(())
}

/// All entries of the directory start at a block with its end bit alone.
const SHORT: Pieces = &[(MEMORY, b"\x01"), (DSP + 0x5d, b"\x10")];

/// Checks the first output of all, and at the last lines of the report.
fn look_at_all(rt: &impl Abort, outcome: &Outcome) {
    assert!(rt; outcome.status() == Status::Ok && outcome.first().len() == 76);
    let last = b"\nentry ff start 0000 blocks 1 loop - worst 0 squares 0\nentries 256\n";
    assert!(rt; outcome.report().ends_with(last.as_slice()));
}

#[test]
fn all_entries_of_the_directory(rt: HostRuntime) -> Result<(), Fail> {
    let outcome = rip_file(rt.alloc(), (SHORT, &[]), Some((0, 255)), &[], (256, 76))?;
    look_at_all(&rt, &outcome);
    Ok(())
}

/// A file is read up to 1,048,576 bytes and one more, and its length then shows that.
#[test]
fn files_that_are_too_long(rt: HostRuntime) -> Result<(), Fail> {
    let name = String::from_str(rt.alloc(), "SPC")?;
    let long = vec![in rt.alloc(); 0u8; 1048577]?;
    let files = vec![in rt.alloc(); (name, long)]?;
    let rooms = rooms_of(rt.alloc(), (1, 76))?;
    let mut host = MemHost::new(rt.alloc(), files, Vec::new(rt.alloc()), rooms)?;
    let refusal = rip(rt.alloc(), &mut host, "SPC", "S", None);
    let line = "spcwave: length 1048577 is not that of an SPC file\n";
    assert!(rt; Outcome::of(refusal, host).is_refused(Status::SpcLength, line));
    Ok(())
}

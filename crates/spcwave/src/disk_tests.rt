// A decoding, a rip, cuts and a session over real files, whose bytes are known, and a render over them, beside the same over a host in memory.
ghost use Rattle.std.specs.Prelude.{◌≡◌, [], IfOk};
ghost use Rattle.snd_host.specs.History.{ended_of};
ghost use Rattle.snd_host.specs.Memory.{memory_state};

use crate::run::run;
use crate::runs::list_words;
use disk_host::{DiskHost, RealDisk};
use exit_status::Status;
use snd_host::MemHost;
use std::alloc::Global;
use std::process::Abort;
use std::rt::Env;
use std::test::Fail;
use std::{env, fs};
use test_support::{
    BLOCK, BLOCK_WAV, DSP, FILE_LENGTH, FIVE, Frames, HEADER_SIZE, MEMORY, Outcome, Pieces,
    STEADY_WAV, file_of, straight_table, wave_of,
};

/// The room for a trace of eight voices over a thousand samples: 8,000 lines of at most 28 bytes, and a few of what the program
/// writes.
const TRACE_ROOM: usize = 250000;

/// The least number of bytes of that trace, whose lines have 18 or more: more than the 131,072 of a piece.
const TRACE_LEAST: usize = 8000 * 18;

/// The names of the real files of a render, which all begin alike.
#[derive(Drop)]
struct Names {
    tune: String,
    table: String,
    wave: String,
    trace: String,
    report: String,
    complaint: String,
}

/// The names of the real files of a decoding, or of a rip of one sample.
#[derive(Drop)]
struct SoundNames {
    input: String,
    wave: String,
    report: String,
    complaint: String,
}

/// What the names of this process's files begin with.
fn front_of(alloc: Global, rt: &(impl Env + AllocGlobal), process: u32) -> Result<String, Fail> {
    let folder = env::temp_dir(rt)?;
    Ok(format!(in alloc; "{}/spcwave-{process}", folder.display())?)
}

fn name_of(alloc: Global, front: &str, end: &str) -> Result<String, Fail> {
    let mut name = String::from_str(alloc, front)?;
    name.push_str(end)?;
    Ok(name)
}

fn names_of(alloc: Global, front: &str) -> Result<Names, Fail> {
    Ok(Names {
        tune: name_of(alloc, front, ".spc")?,
        table: name_of(alloc, front, ".table")?,
        wave: name_of(alloc, front, ".wav")?,
        trace: name_of(alloc, front, ".txt")?,
        report: name_of(alloc, front, ".report")?,
        complaint: name_of(alloc, front, ".complaint")?,
    })
}

fn sound_names_of(alloc: Global, front: &str, ends: (&str, &str)) -> Result<SoundNames, Fail> {
    Ok(SoundNames {
        input: name_of(alloc, front, ends.0)?,
        wave: name_of(alloc, front, ends.1)?,
        report: name_of(alloc, front, "-sound.report")?,
        complaint: name_of(alloc, front, "-sound.complaint")?,
    })
}

/// The words of a render with a trace of all voices, which comes in several pieces.
fn render_words(alloc: Global, names: &Names) -> Result<Vec<String>, Fail> {
    let words = [
        "render",
        names.tune.as_str(),
        names.table.as_str(),
        names.wave.as_str(),
        "--samples",
        "1000",
        "--trace",
        names.trace.as_str(),
        "--voices",
        "ff",
    ];
    list_words(alloc, &words)
}

/// What the trace begins with: all voices are keyed in the first sample.
const KEYED_LINES: &[u8] = b"V 0 0 0 0 0000 k-\nV 0 1 0 0 0000 k-\nV 0 2 0 0 0000 k-\n";

/// Runs these words over real files, the report and the complaint of these names among them.
fn run_on_disk(
    alloc: Global,
    files: &HostRuntime,
    words: &[String],
    report: &str,
    complaint: &str,
) -> Result<Status, Fail> {
    let report = fs::create(files, report)?;
    let complaint = fs::create(files, complaint)?;
    let mut host = DiskHost::new(RealDisk::new(files, report, complaint));
    Ok(run(alloc, words, &mut host))
}

/// Runs the words of a render, or of what it needs.
fn run_for_render(
    alloc: Global,
    files: &HostRuntime,
    names: &Names,
    words: &[String],
) -> Result<Status, Fail> {
    run_on_disk(
        alloc,
        files,
        words,
        names.report.as_str(),
        names.complaint.as_str(),
    )
}

/// Writes the table of straight lines.
fn write_table(alloc: Global, files: &HostRuntime, names: &Names) -> Result<(), Fail> {
    let table = straight_table(alloc)?;
    fs::write(files, names.table.as_str(), table.as_slice())?;
    Ok(())
}

/// Has the program write the demo file of 7.
fn write_tune(alloc: Global, files: &HostRuntime, names: &Names) -> Result<Status, Fail> {
    let words = list_words(alloc, &["demo", "7", names.tune.as_str()])?;
    run_for_render(alloc, files, names, words.as_slice())
}

/// Has it render that file.
fn render_on_disk(alloc: Global, files: &HostRuntime, names: &Names) -> Result<Status, Fail> {
    let words = render_words(alloc, names)?;
    run_for_render(alloc, files, names, words.as_slice())
}

/// What the files hold.
#[derive(Drop)]
struct Held {
    tune: Vec<u8>,
    table: Vec<u8>,
    wave: Vec<u8>,
    trace: Vec<u8>,
    report: Vec<u8>,
    complaint: Vec<u8>,
}

fn read_all(files: &HostRuntime, names: &Names) -> Result<Held, Fail> {
    Ok(Held {
        tune: fs::read(files, names.tune.as_str())?,
        table: fs::read(files, names.table.as_str())?,
        wave: fs::read(files, names.wave.as_str())?,
        trace: fs::read(files, names.trace.as_str())?,
        report: fs::read(files, names.report.as_str())?,
        complaint: fs::read(files, names.complaint.as_str())?,
    })
}

fn remove_all(files: &HostRuntime, names: &Names) -> Result<(), Fail> {
    for name in [
        &names.tune,
        &names.table,
        &names.wave,
        &names.trace,
        &names.report,
        &names.complaint,
    ] {
        fs::remove_file(files, name.as_str())?;
    }
    Ok(())
}

/// A host in memory that has the same inputs, and room for both outputs.
fn host_like(alloc: Global, names: &Names, held: &Held) -> Result<MemHost, Fail>
    ensures { IfOk result (λ host. ended_of (memory_state host).calls ≡ []) }
{
    let tune = (names.tune.clone()?, held.tune.clone()?);
    let table = (names.table.clone()?, held.table.clone()?);
    let files = vec![in alloc; tune, table]?;
    let rooms = vec![in alloc; 2000, 100, 10000, TRACE_ROOM]?;
    Ok(MemHost::new(alloc, files, Vec::new(alloc), rooms)?)
}

/// The same render over that host.
fn render_inside(alloc: Global, names: &Names, held: &Held) -> Result<Outcome, Fail> {
    let words = render_words(alloc, names)?;
    let mut host = host_like(alloc, names, held)?;
    let status = run(alloc, words.as_slice(), &mut host);
    Ok(Outcome::of_run(status, host))
}

/// Whether real files hold what the outputs in memory do.
fn is_alike(held: &Held, inside: &Outcome) -> bool {
    held.wave.as_slice() == inside.first()
        && held.trace.as_slice() == inside.second()
        && held.report.as_slice() == inside.report()
        && held.complaint.as_slice() == inside.complaint()
}

/// Checks how the runs ended, at what real files hold, and at the outputs in memory.
fn look_at(rt: &impl Abort, made: Status, ended: Status, held: &Held, inside: &Outcome) {
    assert!(rt; made == Status::Ok && ended == Status::Ok && inside.status() == Status::Ok);
    assert!(rt; held.wave.len() == HEADER_SIZE + 4 * 1000 && held.trace.len() >= TRACE_LEAST);
    assert!(rt; held.trace.starts_with(KEYED_LINES) && held.report.starts_with(b"samples 1000\n"));
    assert!(rt; is_alike(held, inside));
}

/// From a file that was written over real files too.
#[test]
fn a_render_over_real_files_is_that_in_memory(rt: HostRuntime) -> Result<(), Fail> {
    let alloc = rt.alloc();
    let front = front_of(alloc, &rt, std::process::id(rt.process()))?;
    let names = names_of(alloc, front.as_str())?;
    write_table(alloc, &rt, &names)?;
    let made = write_tune(alloc, &rt, &names)?;
    let ended = render_on_disk(alloc, &rt, &names)?;
    let held = read_all(&rt, &names)?;
    remove_all(&rt, &names)?;
    let inside = render_inside(alloc, &names, &held)?;
    look_at(&rt, made, ended, &held, &inside);
    Ok(())
}

/// Runs these words over the real files of a sound.
fn run_for_sound(
    alloc: Global,
    files: &HostRuntime,
    names: &SoundNames,
    words: &[&str],
) -> Result<Status, Fail> {
    let words = list_words(alloc, words)?;
    run_on_disk(
        alloc,
        files,
        words.as_slice(),
        names.report.as_str(),
        names.complaint.as_str(),
    )
}

/// Whether the real files hold this sound file, this report and no complaint.
fn hold_the_sound(
    files: &HostRuntime,
    names: &SoundNames,
    wave: &[u8],
    report: &[u8],
) -> Result<bool, Fail> {
    Ok(
        fs::read(files, names.wave.as_str())?.as_slice() == wave
            && fs::read(files, names.report.as_str())?.as_slice() == report
            && fs::read(files, names.complaint.as_str())?.is_empty(),
    )
}

fn remove_sound(files: &HostRuntime, names: &SoundNames) -> Result<(), Fail> {
    for name in [&names.input, &names.wave, &names.report, &names.complaint] {
        fs::remove_file(files, name.as_str())?;
    }
    Ok(())
}

/// Decodes the block of a real file.
fn decode_on_disk(alloc: Global, files: &HostRuntime, names: &SoundNames) -> Result<Status, Fail> {
    fs::write(files, names.input.as_str(), BLOCK)?;
    let words = ["brr", names.input.as_str(), names.wave.as_str()];
    run_for_sound(alloc, files, names, &words)
}

/// The known bytes of the sound file are those of the rules, not of a run.
#[test]
fn a_block_is_decoded_over_real_files(rt: HostRuntime) -> Result<(), Fail> {
    let alloc = rt.alloc();
    let front = front_of(alloc, &rt, std::process::id(rt.process()))?;
    let names = sound_names_of(alloc, front.as_str(), ("-block.brr", "-block.wav"))?;
    let ended = decode_on_disk(alloc, &rt, &names)?;
    let held = hold_the_sound(&rt, &names, BLOCK_WAV, b"blocks 1 samples 16\n")?;
    remove_sound(&rt, &names)?;
    assert!(rt; ended == Status::Ok && held);
    Ok(())
}

/// The last entry of the directory, for the sample of the first, and the registers SRCN of all voices, which name it.
const LAST: Pieces = &[
    (MEMORY + 0x05FC, b"\x00\x05\x00\x05"),
    (DSP + 0x04, b"\xff"),
    (DSP + 0x14, b"\xff"),
    (DSP + 0x24, b"\xff"),
    (DSP + 0x34, b"\xff"),
    (DSP + 0x44, b"\xff"),
    (DSP + 0x54, b"\xff"),
    (DSP + 0x64, b"\xff"),
    (DSP + 0x74, b"\xff"),
];

/// What is reported on it.
const LAST_REPORT: &[u8] = b"entry ff start 0500 blocks 1 loop 0 worst 0 squares 0\nentries 1\n";

/// Rips a tune in a real file, whose voices name the last entry alone; the name of its output begins with a text.
fn rip_on_disk(
    alloc: Global,
    files: &HostRuntime,
    names: &SoundNames,
    front: &str,
) -> Result<Status, Fail> {
    let tune = file_of(alloc, FILE_LENGTH, FIVE, LAST)?;
    fs::write(files, names.input.as_str(), tune.as_slice())?;
    let words = ["rip", names.input.as_str(), front];
    run_for_sound(alloc, files, names, &words)
}

/// An output is named by its entry in two small digits.
#[test]
fn an_entry_is_ripped_into_a_file_of_its_name(rt: HostRuntime) -> Result<(), Fail> {
    let alloc = rt.alloc();
    let front = front_of(alloc, &rt, std::process::id(rt.process()))?;
    let names = sound_names_of(alloc, front.as_str(), ("-rip.spc", "ff.wav"))?;
    let ended = rip_on_disk(alloc, &rt, &names, front.as_str())?;
    let held = hold_the_sound(&rt, &names, STEADY_WAV, LAST_REPORT)?;
    remove_sound(&rt, &names)?;
    assert!(rt; ended == Status::Ok && held);
    Ok(())
}

/// The names of the real files of cuts, or of a session.
#[derive(Drop)]
struct CutNames {
    tune: String,
    table: String,
    lines: String,
    wave: String,
    report: String,
    complaint: String,
}

fn cut_names_of(alloc: Global, front: &str) -> Result<CutNames, Fail> {
    Ok(CutNames {
        tune: name_of(alloc, front, "-cuts.spc")?,
        table: name_of(alloc, front, "-cuts.table")?,
        lines: name_of(alloc, front, "-cuts.lines")?,
        wave: name_of(alloc, front, "-cuts.wav")?,
        report: name_of(alloc, front, "-cuts.report")?,
        complaint: name_of(alloc, front, "-cuts.complaint")?,
    })
}

fn write_cut_inputs(
    alloc: Global,
    files: &HostRuntime,
    names: &CutNames,
    lines: &[u8],
) -> Result<(), Fail> {
    let tune = file_of(alloc, FILE_LENGTH, FIVE, &[])?;
    let table = straight_table(alloc)?;
    fs::write(files, names.tune.as_str(), tune.as_slice())?;
    fs::write(files, names.table.as_str(), table.as_slice())?;
    fs::write(files, names.lines.as_str(), lines)?;
    Ok(())
}

/// Has a command play these lines over those inputs.
fn play_on_disk(
    alloc: Global,
    files: &HostRuntime,
    names: &CutNames,
    command: &str,
    lines: &[u8],
) -> Result<Status, Fail> {
    write_cut_inputs(alloc, files, names, lines)?;
    let words = [
        command,
        names.tune.as_str(),
        names.table.as_str(),
        names.lines.as_str(),
        names.wave.as_str(),
    ];
    let words = list_words(alloc, &words)?;
    run_on_disk(
        alloc,
        files,
        words.as_slice(),
        names.report.as_str(),
        names.complaint.as_str(),
    )
}

/// Whether the sound file of that name has these frames, the inputs are as they were, and no complaint was written.
fn hold_the_cuts(
    alloc: Global,
    files: &HostRuntime,
    names: &CutNames,
    lines: &[u8],
    frames: Frames,
) -> Result<bool, Fail> {
    let wave = wave_of(alloc, frames)?;
    let table = straight_table(alloc)?;
    Ok(
        fs::read(files, names.wave.as_str())?.as_slice() == wave.as_slice()
            && fs::read(files, names.table.as_str())?.as_slice() == table.as_slice()
            && fs::read(files, names.lines.as_str())?.as_slice() == lines
            && fs::read(files, names.complaint.as_str())?.is_empty(),
    )
}

fn remove_cuts(files: &HostRuntime, names: &CutNames) -> Result<(), Fail> {
    for name in [
        &names.tune,
        &names.table,
        &names.lines,
        &names.wave,
        &names.report,
        &names.complaint,
    ] {
        fs::remove_file(files, name.as_str())?;
    }
    Ok(())
}

/// The frames from sample 6 on, and then the first eight.
#[test]
fn cuts_and_sessions_are_written_to_the_last_name(rt: HostRuntime) -> Result<(), Fail> {
    let alloc = rt.alloc();
    let front = front_of(alloc, &rt, std::process::id(rt.process()))?;
    let names = cut_names_of(alloc, front.as_str())?;
    for (command, lines) in [
        ("cuts", "6 2\n0 8\n"),
        ("serve", "seek 6\nplay 2\nseek 0\nplay 8\n"),
    ] {
        let lines = lines.as_bytes();
        let ended = play_on_disk(alloc, &rt, &names, command, lines)?;
        let frames: Frames = &[(2, 4000), (6, 0), (2, 4000)];
        let held = hold_the_cuts(alloc, &rt, &names, lines, frames)?;
        remove_cuts(&rt, &names)?;
        assert!(rt; ended == Status::Ok && held, "{command}");
    }
    Ok(())
}

// Runs of the program over hosts in memory.
use crate::given::{Given, run_given};
use crate::run::run;
use exit_status::Status;
use snd_host::{DripHost, OutFile};
use std::alloc::Global;
use std::test::Fail;
use test_support::{FILE_LENGTH, OUTPUT_ROOM, Outcome, file_of, host_with, straight_table};

/// Adds these words.
fn add_words(alloc: Global, given: &mut Vec<String>, words: &[&str]) -> Result<(), Fail> {
    for word in words {
        given.push(String::from_str(alloc, word)?)?;
    }
    Ok(())
}

/// These words.
pub fn list_words(alloc: Global, words: &[&str]) -> Result<Vec<String>, Fail> {
    let mut given = Vec::new(alloc);
    add_words(alloc, &mut given, words)?;
    Ok(given)
}

/// These words, and these ones more.
fn extend_words(alloc: Global, words: &[&str], more: &[&str]) -> Result<Vec<String>, Fail> {
    let mut given = list_words(alloc, words)?;
    add_words(alloc, &mut given, more)?;
    Ok(given)
}

/// Runs these words over a host with these inputs, whose calls of these numbers fail and whose first output has this
/// room. Its contract says nothing, so that each test is proved without the promises of a run.
fn run_with(
    alloc: Global,
    words: &[String],
    inputs: &[(&str, &[u8])],
    failing: &[u32],
    room: usize,
) -> Result<Outcome, Fail> {
    let mut host = host_with(alloc, inputs, failing, room)?;
    let status = run(alloc, words, &mut host);
    Ok(Outcome::of_run(status, host))
}

/// Runs these words over a host with these inputs, whose first output has this room.
pub fn run_over(
    alloc: Global,
    words: &[String],
    inputs: &[(&str, &[u8])],
    room: usize,
) -> Result<Outcome, Fail> {
    run_with(alloc, words, inputs, &[], room)
}

/// Runs these words over a host with these inputs, whose calls of these numbers fail.
pub fn run_failing(
    alloc: Global,
    words: &[String],
    inputs: &[(&str, &[u8])],
    failing: &[u32],
) -> Result<Outcome, Fail> {
    run_with(alloc, words, inputs, failing, OUTPUT_ROOM)
}

/// How a run ended over a host that gives and takes one byte at a time.
#[derive(Drop)]
pub struct Dripped {
    pub status: Status,
    host: DripHost,
}

impl Dripped {
    /// What the output of this number was given.
    pub fn output(&self, number: u32) -> &[u8] {
        self.host.inner().output(OutFile(number))
    }

    /// Whether it ended as the run over the host in memory did.
    fn is_like(&self, outcome: &Outcome) -> bool {
        self.status == outcome.status()
            && self.output(0) == outcome.report()
            && self.output(1) == outcome.complaint()
            && self.output(2) == outcome.first()
            && self.output(3) == outcome.second()
    }
}

/// Runs these words over such a host with these inputs, whose first output has this room.
pub fn run_dripping(
    alloc: Global,
    words: &[String],
    inputs: &[(&str, &[u8])],
    room: usize,
) -> Result<Dripped, Fail> {
    let mut host = DripHost::new(host_with(alloc, inputs, &[], room)?);
    let status = run(alloc, words, &mut host);
    Ok(Dripped { status, host })
}

/// Whether these words end over such a host as they did over the host in memory.
pub fn drips_alike(
    alloc: Global,
    words: &[String],
    inputs: &[(&str, &[u8])],
    outcome: &Outcome,
) -> Result<bool, Fail> {
    let dripped = run_dripping(alloc, words, inputs, OUTPUT_ROOM)?;
    Ok(dripped.is_like(outcome))
}

/// Runs these words over a host that has the input `IN`.
pub fn run_words(alloc: Global, words: &[&str], input: &[u8]) -> Result<Outcome, Fail> {
    let given = list_words(alloc, words)?;
    run_over(alloc, given.as_slice(), &[("IN", input)], OUTPUT_ROOM)
}

/// Runs a script that asks what is free, with these words more.
pub fn serve_free(alloc: Global, words: &[&str]) -> Result<Outcome, Fail> {
    let file = file_of(alloc, FILE_LENGTH, &[], &[])?;
    let table = straight_table(alloc)?;
    let serve = ["serve", "SPC", "TABLE", "SCRIPT", "OUT"];
    let given = extend_words(alloc, &serve, words)?;
    let inputs = [
        ("SPC", file.as_slice()),
        ("TABLE", table.as_slice()),
        ("SCRIPT", b"free".as_slice()),
    ];
    run_over(alloc, given.as_slice(), &inputs, OUTPUT_ROOM)
}

/// Renders no samples of the base file, to outputs that have the names of the inputs.
pub fn render_onto_inputs(alloc: Global) -> Result<Outcome, Fail> {
    let file = file_of(alloc, FILE_LENGTH, &[], &[])?;
    let table = straight_table(alloc)?;
    let words = [
        "render",
        "SPC",
        "TABLE",
        "TABLE",
        "--samples",
        "0",
        "--trace",
        "SPC",
    ];
    let given = list_words(alloc, &words)?;
    let inputs = [("SPC", file.as_slice()), ("TABLE", table.as_slice())];
    run_over(alloc, given.as_slice(), &inputs, OUTPUT_ROOM)
}

/// The number that the process exits with for what the command line gives, and the complaint.
pub fn give(alloc: Global, given: &Given) -> Result<(u8, Vec<u8>), Fail> {
    let mut host = host_with(alloc, &[], &[], OUTPUT_ROOM)?;
    let code = run_given(alloc, given, &mut host);
    Ok((code, Vec::from_slice(alloc, host.output(OutFile(1)))?))
}

/// Renders a file over a table to `OUT`, which has this room, with these words more.
fn render_over(
    alloc: Global,
    file: &[u8],
    table: &[u8],
    words: &[&str],
    room: usize,
) -> Result<Outcome, Fail> {
    let given = extend_words(alloc, &["render", "SPC", "TABLE", "OUT"], words)?;
    let inputs = [("SPC", file), ("TABLE", table)];
    run_over(alloc, given.as_slice(), &inputs, room)
}

/// Renders a file over the table of straight lines to `OUT`, which has this room, with these words more.
pub fn render_straight(
    alloc: Global,
    file: &[u8],
    words: &[&str],
    room: usize,
) -> Result<Outcome, Fail> {
    let table = straight_table(alloc)?;
    render_over(alloc, file, table.as_slice(), words, room)
}

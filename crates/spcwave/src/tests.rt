// Words, and one run of each command that they say.
use crate::given::Given;
use crate::runs::{give, list_words, render_onto_inputs, run_failing, run_words, serve_free};
use exit_status::Status;
use std::alloc::Global;
use std::process::Abort;
use std::test::Fail;
use test_support::{BLOCK, HEADER_SIZE, Outcome};

/// Whether the words were found to be no command, and nothing was read.
fn is_usage(outcome: &Outcome) -> bool {
    outcome.is_refused(Status::Usage, "spcwave: words not understood\n") && outcome.calls() == 1
}

/// Words that are no command; those that begin like `asm` or a command after it stand in the list below.
const WORDS: &[&[&str]] = &[
    &[],
    &["brr", "IN"],
    &["brr", "IN", "OUT", "OUT"],
    &["brr", "A", "-B"],
    &["brr", "-A", "B"],
    &["brr", "", "OUT"],
    &["BRR", "IN", "OUT"],
    &["info"],
    &["info", "-A"],
    &["info", "IN", "OUT"],
    &["encode", "IN"],
    &["encode", "IN", "--loop"],
    &["encode", "IN", "OUT", "--LOOP"],
    &["encode", "--loop", "IN", "OUT"],
    &["encode", "-A", "B"],
    &["encode", "IN", "OUT", "--loop", "--loop"],
    &["encode", "IN", "OUT", "--search"],
    &["encode", "IN", "OUT", "--search", "0"],
    &["encode", "IN", "OUT", "--search", "65"],
    &["encode", "IN", "OUT", "--search", "002"],
    &["encode", "IN", "OUT", "--search", "2", "--search", "2"],
    &["encode", "IN", "OUT", "--loop-at", "8"],
    &["encode", "IN", "OUT", "--loop-at", "116496"],
    &["encode", "IN", "OUT", "--loop-at", "0000016"],
    &["encode", "IN", "OUT", "--loop-at", "--loop"],
    &["encode", "IN", "OUT", "--loop-at", "0", "--loop-at", "0"],
    &["encode", "IN", "OUT", "0"],
    &["render", "A", "B"],
    &["render", "A", "B", "-C"],
    &["render", "-A", "B", "C"],
    &["render", "A", "-B", "C"],
    &["render", "A", "B", "C", "--samples"],
    &["render", "A", "B", "C", "--samples", "115200001"],
    &["render", "A", "B", "C", "--samples=5"],
    &["render", "A", "B", "C", "--samples", ""],
    &["render", "A", "B", "C", "--samples", "0000000001"],
    &["render", "A", "B", "C", "--samples", "1", "--samples", "1"],
    &["render", "A", "B", "C", "--trace", "C"],
    &["render", "A", "B", "C", "--trace", "-T"],
    &["render", "A", "B", "C", "--trace", "T", "--trace", "T"],
    &["render", "A", "B", "C", "--voices", "1"],
    &["render", "A", "B", "C", "--voices", "0g"],
    &["render", "A", "B", "C", "--voices", "0001"],
    &["render", "A", "B", "C", "--voices", "01", "--voices", "01"],
    &["render", "A", "B", "C", "--mute", "1"],
    &["render", "A", "B", "C", "--mute", "01", "--mute", "01"],
    &["render", "A", "B", "C", "--loop", "1"],
    &["--Help"],
    &["help", "render"],
    &["--version", "--help"],
    &["-h"],
    &["demo", "7"],
    &["demo", "7", "-x"],
    &["demo", "OUT", "7"],
    &["demo", "4294967296", "OUT"],
    &["check"],
    &["check", ""],
    &["check", "-1"],
    &["check", "00000000007"],
];

/// Words that begin like `asm`, `dis`, `cuts`, `serve` or `rip`, and are no command.
const MORE_WORDS: &[&[&str]] = &[
    &["asm", "IN", "0400"],
    &["asm", "IN", "400", "OUT"],
    &["asm", "IN", "00400", "OUT"],
    &["asm", "IN", "$400", "OUT"],
    &["asm", "IN", "0x40", "OUT"],
    &["asm", "IN", "OUT", "0400"],
    &["asm", "-A", "0400", "OUT"],
    &["asm", "IN", "0400", "-B"],
    &["asm", "IN", "0400", "OUT", "OUT"],
    &["dis", "IN", "0400"],
    &["dis", "IN", "040g", "OUT"],
    &["dis", "IN", "", "OUT"],
    &["dis", "IN", "0400", "-B"],
    &["dis", "-A", "0400", "OUT"],
    &["cuts", "A", "B", "C"],
    &["cuts", "A", "B", "C", "-D"],
    &["cuts", "-A", "B", "C", "D"],
    &["cuts", "A", "-B", "C", "D"],
    &["cuts", "A", "B", "-C", "D"],
    &["cuts", "A", "B", "C", "D", "E"],
    &["cuts", "A", "B", "C", "D", "--mute"],
    &["cuts", "A", "B", "C", "D", "--mute", "0g"],
    &["cuts", "A", "B", "C", "D", "--pages", "256"],
    &["cuts", "A", "B", "C", "D", "--mute", "01", "--mute", "01"],
    &["serve", "A", "B", "C"],
    &["serve", "A", "B", "C", "-D"],
    &["serve", "-A", "B", "C", "D"],
    &["serve", "A", "-B", "C", "D"],
    &["serve", "A", "B", "-C", "D"],
    &["serve", "A", "B", "C", "D", "E"],
    &["serve", "A", "B", "C", "D", "--pages"],
    &["serve", "A", "B", "C", "D", "--pages", "255"],
    &["serve", "A", "B", "C", "D", "--pages", "65537"],
    &["serve", "A", "B", "C", "D", "--pages", "000256"],
    &["serve", "A", "B", "C", "D", "--page", "256"],
    &[
        "serve", "A", "B", "C", "D", "--pages", "256", "--pages", "256",
    ],
    &["serve", "A", "B", "C", "D", "--mute", "001"],
    &["serve", "A", "B", "C", "D", "--mute", "01", "--mute", "01"],
    &["render", "A", "B", "C", "--trace", ""],
    &["rip", "A"],
    &["rip", "A", ""],
    &["rip", "A", "-B"],
    &["rip", "-A", "B"],
    &["rip", "A", "B", "--range"],
    &["rip", "A", "B", "--range", "0201"],
    &["rip", "A", "B", "--range", "0g10"],
    &["rip", "A", "B", "--range", "00010"],
    &["rip", "A", "B", "--loop", "0001"],
    &["rip", "A", "B", "--range", "0001", "--range", "0001"],
];

#[test]
fn other_words_are_not_understood(rt: HostRuntime) -> Result<(), Fail> {
    for words in WORDS {
        let outcome = run_words(rt.alloc(), words, BLOCK)?;
        assert!(rt; is_usage(&outcome), "{words:?}");
    }
    Ok(())
}

#[test]
fn other_words_of_code_cuts_and_rips_are_not_understood(rt: HostRuntime) -> Result<(), Fail> {
    for words in MORE_WORDS {
        let outcome = run_words(rt.alloc(), words, BLOCK)?;
        assert!(rt; is_usage(&outcome), "{words:?}");
    }
    Ok(())
}

/// Words of commands on one block, and how each ends with its report.
const COMMANDS: &[(&[&str], Status, &str)] = &[
    (&["version"], Status::Ok, "spcwave 1.2.0\n"),
    (&["--version"], Status::Ok, "spcwave 1.2.0\n"),
    (&["brr", "IN", "OUT"], Status::Ok, "blocks 1 samples 16\n"),
    (&["brr", "IN", "IN"], Status::Ok, "blocks 1 samples 16\n"),
    (&["info", "IN"], Status::SpcLength, ""),
    (&["encode", "IN", "OUT", "--loop"], Status::WavForm, ""),
    (
        &[
            "encode",
            "IN",
            "OUT",
            "--search",
            "64",
            "--loop",
            "--loop-at",
            "116464",
        ],
        Status::WavForm,
        "",
    ),
    (
        &["encode", "IN", "OUT", "--loop-at", "116480"],
        Status::WavForm,
        "",
    ),
    (
        &["encode", "IN", "OUT", "--search", "1"],
        Status::WavForm,
        "",
    ),
    (&["render", "IN", "IN", "OUT"], Status::SpcLength, ""),
    (
        &["render", "IN", "IN", "OUT", "--samples", "115200000"],
        Status::SpcLength,
        "",
    ),
    (&["demo", "0000000007", "OUT"], Status::Ok, "bytes 66048\n"),
    (&["demo", "4294967295", "OUT"], Status::Ok, "bytes 66048\n"),
    (&["asm", "IN", "0400", "OUT"], Status::AsmLine, ""),
    (&["dis", "IN", "fFf7", "OUT"], Status::Ok, "lines 8\n"),
    (&["dis", "IN", "FfF8", "OUT"], Status::CodeLength, ""),
    (&["rip", "IN", "OUT"], Status::SpcLength, ""),
    (&["cuts", "IN", "IN", "IN", "OUT"], Status::SpcLength, ""),
    (&["serve", "IN", "IN", "IN", "OUT"], Status::SpcLength, ""),
    (
        &["render", "IN", "IN", "OUT", "--mute", "fF"],
        Status::SpcLength,
        "",
    ),
    (
        &["cuts", "IN", "IN", "IN", "OUT", "--mute", "00"],
        Status::SpcLength,
        "",
    ),
    (
        &["serve", "IN", "IN", "IN", "OUT", "--pages", "00256"],
        Status::SpcLength,
        "",
    ),
    (
        &[
            "serve", "IN", "IN", "IN", "OUT", "--mute", "0A", "--pages", "256",
        ],
        Status::SpcLength,
        "",
    ),
    (
        &["rip", "IN", "OUT", "--range", "0AfF"],
        Status::SpcLength,
        "",
    ),
    (
        &["rip", "IN", "OUT", "--range", "0505"],
        Status::SpcLength,
        "",
    ),
];

/// Checks how these words ended, and at their report.
fn look_at(rt: &impl Abort, outcome: &Outcome, words: &[&str], status: Status, report: &str) {
    assert!(rt;
        outcome.status() == status && outcome.report() == report.as_bytes(),
        "{words:?}"
    );
}

#[test]
fn each_word_says_its_command(rt: HostRuntime) -> Result<(), Fail> {
    for (words, wanted, report) in COMMANDS {
        let outcome = run_words(rt.alloc(), words, BLOCK)?;
        look_at(&rt, &outcome, words, *wanted, report);
    }
    Ok(())
}

/// Only the names of outputs differ from each other: all inputs are read before the first output is created.
#[test]
fn an_output_may_have_the_name_of_an_input(rt: HostRuntime) -> Result<(), Fail> {
    let outcome = render_onto_inputs(rt.alloc())?;
    let report = "samples 0\nbatches 0 register 0 memory 0 echo 0 full 0 events 0 end 0\n";
    assert!(rt; outcome.status() == Status::Ok && outcome.report() == report.as_bytes());
    assert!(rt; outcome.first().len() == HEADER_SIZE && outcome.second().is_empty());
    Ok(())
}

/// A session has 4,096 pages where no word says how many; 256 of them hold the memory of its first checkpoint.
#[test]
fn a_session_has_so_many_pages(rt: HostRuntime) -> Result<(), Fail> {
    let most: &[&str] = &["--pages", "65536"];
    for (option, report) in [
        (most, "free 65280 marks 1 made 0\n"),
        (&[], "free 3840 marks 1 made 0\n"),
    ] {
        let outcome = serve_free(rt.alloc(), option)?;
        look_at(&rt, &outcome, option, Status::Ok, report);
    }
    Ok(())
}

/// Checks the number that the process exits with, and at the complaint.
fn look_at_exit(rt: &impl Abort, ended: u8, known: &[u8], code: u8, complaint: &str) {
    assert!(rt; ended == code);
    assert!(rt; known == complaint.as_bytes());
}

/// What is no text says no command, and with no memory for the words only its line is written.
#[test]
fn what_is_given_instead_of_words(rt: HostRuntime) -> Result<(), Fail> {
    for (given, code, complaint) in [
        (Given::NoText, 1, "spcwave: words not understood\n"),
        (Given::NoMemory, 7, "spcwave: out of memory\n"),
    ] {
        let (ended, known) = give(rt.alloc(), &given)?;
        look_at_exit(&rt, ended, known.as_slice(), code, complaint);
    }
    Ok(())
}

/// Checks what the word that asks for help shows.
fn look_at_help(rt: &impl Abort, outcome: &Outcome, word: &str) {
    let begins = outcome
        .report()
        .starts_with(b"spcwave renders SPC music files to WAV files.");
    assert!(rt; outcome.status() == Status::Ok && begins, "{word}");
}

/// `tools/checks` sees that it has the line of each command.
#[test]
fn both_words_print_the_help(rt: HostRuntime) -> Result<(), Fail> {
    for word in ["help", "--help"] {
        let outcome = run_words(rt.alloc(), &[word], &[])?;
        look_at_help(&rt, &outcome, word);
    }
    Ok(())
}

/// Runs a word whose first call fails.
fn run_without_report(alloc: Global, word: &str) -> Result<Outcome, Fail> {
    let words = list_words(alloc, &[word])?;
    run_failing(alloc, words.as_slice(), &[], &[0])
}

#[test]
fn help_and_version_need_a_report(rt: HostRuntime) -> Result<(), Fail> {
    for word in ["help", "--help", "version", "--version"] {
        let failed = run_without_report(rt.alloc(), word)?;
        assert!(rt; failed.is_cut_off(0, &[], &[], ""), "{word}");
    }
    Ok(())
}

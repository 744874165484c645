// The report on entries.
ghost use Rattle.std.specs.Prelude.{◌≡◌, ◌++◌, OnOk, IfOk, codes};
ghost use Rattle.text_form.specs.Digits.{two_digits};
ghost use Rattle.command_rip.specs.Rip.{loop_text, found_text, error_text, entry_line, entries_report};

use aram_core::Aram;
use command_runner::OutOfMemory;
use report_text::{put_named, put_two_digits, put_word};
use sample_rip::{RipEnd, RipFound, RipReport, reencode, rip};
use std::alloc::Global;

/// Prints where a sample loops to.
fn put_loop(report: &mut Vec<u8>, end: RipEnd) -> Result<(), OutOfMemory>
    ensures { OnOk result (report.new.items ≡ report.old.items ++ loop_text end) }
{
    match end {
        RipEnd::NoLoop => report.extend_from_slice(b"-"),
        RipEnd::Loop(sample) => put_named(report, b"", u64::from(sample)),
        RipEnd::Outside => report.extend_from_slice(b"outside"),
        RipEnd::Open => report.extend_from_slice(b"open"),
    }
}

/// Prints where a sample starts, how many blocks it has, and where it loops to.
fn put_found(report: &mut Vec<u8>, found: &RipFound) -> Result<(), OutOfMemory>
    ensures { OnOk result (report.new.items ≡ report.old.items ++ found_text found.now) }
{
    report.extend_from_slice(b" start ")?;
    put_word(report, found.start)?;
    put_named(report, b" blocks ", u64::from(found.blocks))?;
    report.extend_from_slice(b" loop ")?;
    put_loop(report, found.end)
}

/// Prints the errors of a sample that is encoded again.
fn put_errors(report: &mut Vec<u8>, errors: RipReport) -> Result<(), OutOfMemory>
    ensures { OnOk result (report.new.items ≡ report.old.items ++ error_text errors) }
{
    put_named(report, b" worst ", u64::from(errors.worst))?;
    put_named(report, b" squares ", errors.squares)?;
    report.extend_from_slice(b"\n")
}

/// Prints the line of an entry.
fn put_entry(
    alloc: Global,
    report: &mut Vec<u8>,
    memory: &Aram,
    dir: u8,
    entry: u8,
) -> Result<(), OutOfMemory>
    ensures { OnOk result (report.new.items ≡ report.old.items ++ entry_line memory.now dir entry) }
{
    let found = rip(memory, dir, entry);
    let errors = reencode(alloc, memory, &found)?;
    report.extend_from_slice(b"entry ")?;
    put_two_digits(report, entry)?;
    put_found(report, &found)?;
    put_errors(report, errors)
}

/// The report on entries of the directory at page `dir`: a line on each, and their number.
pub(crate) fn report_on(
    alloc: Global,
    memory: &Aram,
    dir: u8,
    entries: &[u8],
) -> Result<Vec<u8>, OutOfMemory>
    ensures { IfOk result (λ report. report.items ≡ entries_report memory.now dir entries.now) }
{
    let mut report = Vec::new(alloc);
    for entry in entries {
        put_entry(alloc, &mut report, memory, dir, *entry)?;
    }
    put_named(&mut report, b"entries ", entries.len() as u64)?;
    report.extend_from_slice(b"\n")?;
    Ok(report)
}

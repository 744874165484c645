// Runs of `help` and `version` over a host in memory.
use command_help::{help, version};
use exit_status::Status;
use std::alloc::Global;
use std::test::Fail;
use test_support::{OUTPUT_ROOM, Outcome, host_with};

/// Whether a text begins and ends as the help does. `tools/checks` compares its lines with the manual page and with docs/FORMATS.md.
fn is_help(text: &[u8]) -> bool {
    text.starts_with(b"spcwave renders SPC music files to WAV files. Its commands:\n\n  spcwave ")
        && text.ends_with(
            b"\nThe manual page spcwave(1) and docs/FORMATS.md describe files, texts and exit statuses.\n",
        )
}

/// Asks for the commands, where the calls of these numbers fail.
fn ask_for_help(alloc: Global, failing: &[u32]) -> Result<Outcome, Fail> {
    let mut host = host_with(alloc, &[], failing, OUTPUT_ROOM)?;
    let refusal = help(alloc, &mut host);
    Ok(Outcome::of(refusal, host))
}

/// Asks for the version, where the calls of these numbers fail.
fn ask_for_version(alloc: Global, failing: &[u32]) -> Result<Outcome, Fail> {
    let mut host = host_with(alloc, &[], failing, OUTPUT_ROOM)?;
    let refusal = version(alloc, &mut host);
    Ok(Outcome::of(refusal, host))
}

#[test]
fn help_is_printed(rt: HostRuntime) -> Result<(), Fail> {
    let outcome = ask_for_help(rt.alloc(), &[])?;
    assert!(rt; outcome.status() == Status::Ok && outcome.calls() == 1);
    assert!(rt; outcome.complaint().is_empty() && is_help(outcome.report()));
    let failed = ask_for_help(rt.alloc(), &[0])?;
    assert!(rt; failed.is_cut_off(0, &[], &[], ""));
    Ok(())
}

#[test]
fn the_version_is_printed(rt: HostRuntime) -> Result<(), Fail> {
    let outcome = ask_for_version(rt.alloc(), &[])?;
    assert!(rt; outcome.is_done(&[], "spcwave 1.2.0\n") && outcome.calls() == 1);
    let failed = ask_for_version(rt.alloc(), &[0])?;
    assert!(rt; failed.is_cut_off(0, &[], &[], ""));
    Ok(())
}

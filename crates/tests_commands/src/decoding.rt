// Runs of `brr` over a host in memory.
use command_brr::brr;
use exit_status::Status;
use std::alloc::Global;
use std::test::Fail;
use test_support::{BLOCK, BLOCK_WAV, OUTPUT_ROOM, Outcome, host_with};

/// What is reported on the block.
const BLOCK_REPORT: &str = "blocks 1 samples 16\n";

/// Decodes an input, where the calls of these numbers fail.
fn decode_file(alloc: Global, input: &[u8], failing: &[u32]) -> Result<Outcome, Fail> {
    let mut host = host_with(alloc, &[("IN", input)], failing, OUTPUT_ROOM)?;
    let refusal = brr(alloc, &mut host, "IN", "OUT");
    Ok(Outcome::of(refusal, host))
}

#[test]
fn one_block_is_decoded(rt: HostRuntime) -> Result<(), Fail> {
    let outcome = decode_file(rt.alloc(), BLOCK, &[])?;
    assert!(rt; outcome.is_done(BLOCK_WAV, BLOCK_REPORT));
    Ok(())
}

/// Decodes so many zeros.
fn decode_zeros(alloc: Global, length: usize) -> Result<Outcome, Fail> {
    let input = vec![in alloc; 0u8; length]?;
    decode_file(alloc, input.as_slice(), &[])
}

#[test]
fn the_greatest_length_is_decoded(rt: HostRuntime) -> Result<(), Fail> {
    let outcome = decode_zeros(rt.alloc(), 65529)?;
    assert!(rt; outcome.status() == Status::Ok && outcome.first().len() == 233036);
    assert!(rt; outcome.complaint().is_empty() && !outcome.report().is_empty());
    Ok(())
}

/// Lengths that are not those of blocks.
const LENGTHS: &[(usize, Status, &str)] = &[
    (
        0,
        Status::BrrLength,
        "spcwave: length 0 is not that of BRR blocks\n",
    ),
    (
        8,
        Status::BrrLength,
        "spcwave: length 8 is not that of BRR blocks\n",
    ),
    (
        10,
        Status::BrrLength,
        "spcwave: length 10 is not that of BRR blocks\n",
    ),
    (
        65538,
        Status::BrrLength,
        "spcwave: length 65538 is not that of BRR blocks\n",
    ),
    (
        1048577,
        Status::InputTooLong,
        "spcwave: input is too long\n",
    ),
];

#[test]
fn other_lengths_are_refused(rt: HostRuntime) -> Result<(), Fail> {
    for (length, wanted, line) in LENGTHS {
        let outcome = decode_zeros(rt.alloc(), *length)?;
        assert!(rt; outcome.is_refused(*wanted, line), "at {length}");
    }
    Ok(())
}

#[test]
fn each_call_of_the_host_may_fail(rt: HostRuntime) -> Result<(), Fail> {
    // The input is opened and read twice; then the output is created, written and ended, and the report is written.
    let whole = decode_file(rt.alloc(), BLOCK, &[])?;
    assert!(rt; whole.calls() == 7);
    for call in 0..7 {
        let outcome = decode_file(rt.alloc(), BLOCK, &[call])?;
        let holds = if call < 3 {
            outcome.is_unread(call)
        } else {
            outcome.is_cut_off(call, BLOCK_WAV, &[], BLOCK_REPORT)
                && (outcome.first().len() == 76) == (call > 4)
        };
        assert!(rt; holds, "at {call}");
    }
    Ok(())
}

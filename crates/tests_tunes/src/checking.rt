// Runs of `check` over a host in memory.
use command_check::check;
use std::alloc::Global;
use std::test::Fail;
use test_support::{OUTPUT_ROOM, Outcome, host_with};

/// Checks the demo file of 3456189438, where the calls of these numbers fail.
fn check_failing(alloc: Global, failing: &[u32]) -> Result<Outcome, Fail> {
    let mut host = host_with(alloc, &[], failing, OUTPUT_ROOM)?;
    let refusal = check(alloc, &mut host, 3456189438);
    Ok(Outcome::of(refusal, host))
}

/// What an independent implementation gives of that file.
const REPORT: &str = "samples 320000\nleft 49171252\nright -899585932\nmix 1010732692\n\
    batches 9983 register 4982 memory 4983 echo 0 full 17 events 0 end 1\n";

#[test]
fn a_check_reports_sums_and_batches(rt: HostRuntime) -> Result<(), Fail> {
    let outcome = check_failing(rt.alloc(), &[])?;
    assert!(rt; outcome.is_done(&[], REPORT));
    let failed = check_failing(rt.alloc(), &[0])?;
    assert!(rt; failed.is_cut_off(0, &[], &[], ""));
    Ok(())
}

// Two outputs that are created, written piece by piece and ended, and then the report.
ghost use Rattle.std.specs.Prelude.{◌≡◌, ◌≢◌, ◌+◌, ◌-◌, ◌<◌, ◌≤◌, ◌++◌, [], ◌∷◌, length, true, false, Option, Some, option_map, IfOk, OnOk, slice_get};
ghost use Rattle.snd_host.specs.Follows.{Follows};
ghost use Rattle.snd_host.specs.History.{ended_of};
ghost use Rattle.snd_host.specs.Host.{HostState};
ghost use Rattle.command_runner.specs.Delivery.{CanDeliver};
ghost use Rattle.command_runner.specs.OutputCalls.{both, AreWoven, AreCreations, AreEndings, MakesAtOnce, at_once, DeliversAs};
ghost use Rattle.command_runner.specs.Stream.{AreTargets, AreOpen, pair, stream_outputs};

use crate::Pieces;
use snd_host::{Failed, Host, OutFile, write_all};

pub(crate) const REPORT: OutFile = OutFile(0);

/// The outputs of a stream: its sound file and, where one is wanted, its trace.
#[derive(Clone, Copy)]
pub struct Targets {
    pub wave: OutFile,
    pub trace: Option<OutFile>,
}

/// Creates the outputs.
fn begin<H: Host>(host: &mut H, wave: &str, trace: Option<&str>) -> Result<Targets, Failed>
    requires { CanDeliver (H.state host.old) }
    ensures numbers { let next = length (ended_of (H.state host.old).calls) + 2 in
        IfOk result (λ targets. AreTargets (option_map (λ name. name.now) trace.entry) next targets) }
    ensures calls { let outputs = pair wave.now (option_map (λ name. name.now) trace.entry) [] [] in
        Follows (AreCreations (length (ended_of (H.state host.old).calls) + 2) outputs) (H.state host.old) (H.state host.new) result }
{
    let wave = host.create(wave)?;
    match trace {
        Some(name) => {
            let trace = host.create(name)?;
            Ok(Targets {
                wave,
                trace: Some(trace),
            })
        }
        None => Ok(Targets { wave, trace: None }),
    }
}

/// Writes a piece of each output.
fn put<H: Host>(host: &mut H, targets: Targets, wave: &[u8], trace: &[u8]) -> Result<(), Failed>
    requires { AreOpen (ended_of (H.state host.old).calls) targets }
    ensures { let all = both targets.wave.0 (option_map (λ file. file.0) targets.trace) wave.now trace.now in
        Follows (AreWoven all) (H.state host.old) (H.state host.new) result }
{
    write_all(host, targets.wave, wave)?;
    match targets.trace {
        Some(file) => write_all(host, file, trace),
        None => Ok(()),
    }
}

/// Writes all pieces.
fn pump<H: Host, P: Pieces>(host: &mut H, targets: Targets, source: &mut P) -> Result<(), Failed>
    requires { AreOpen (ended_of (H.state host.old).calls) targets }
    ensures calls { let made = P.to_come source.old in
        let all = both targets.wave.0 (option_map (λ file. file.0) targets.trace) made.wave made.trace in
        Follows (AreWoven all) (H.state host.old) (H.state host.new) result }
    ensures report { P.report source.new ≡ P.report source.old }
    ensures is_done { OnOk result (P.is_done source.new ≡ true) }
{
    'pieces: loop {
        let done = source.make_next();
        put(host, targets, source.wave(), source.trace())?;
        if done {
            return Ok(());
        }
    }
}

/// Ends two outputs, the earlier one first.
fn end_in_turn<H: Host>(host: &mut H, earlier: OutFile, later: OutFile) -> Result<(), Failed>
    requires earlier_created { 2 ≤ earlier.0 }
    requires later_created { 2 ≤ later.0 }
    requires apart { earlier.0 ≢ later.0 }
    requires earlier_open { slice_get (ended_of (H.state host.old).calls) (earlier.0 - 2) ≡ Some false }
    requires later_open { slice_get (ended_of (H.state host.old).calls) (later.0 - 2) ≡ Some false }
    ensures { Follows (AreEndings ((earlier.0, []) ∷ (later.0, []) ∷ [])) (H.state host.old) (H.state host.new) result }
{
    host.finish(earlier)?;
    host.finish(later)
}

/// Ends the outputs, in their order.
fn end<H: Host>(host: &mut H, targets: Targets) -> Result<(), Failed>
    requires { AreOpen (ended_of (H.state host.old).calls) targets }
    ensures { let all = both targets.wave.0 (option_map (λ file. file.0) targets.trace) [] [] in
        Follows (AreEndings all) (H.state host.old) (H.state host.new) result }
{
    match targets.trace {
        Some(file) => end_in_turn(host, targets.wave, file),
        None => host.finish(targets.wave),
    }
}

/// Creates the outputs, writes the head and all pieces to them, and ends them.
pub(crate) fn fill_outputs<H: Host, P: Pieces>(
    host: &mut H,
    wave: &str,
    trace: Option<&str>,
    head: &[u8],
    source: &mut P,
) -> Result<(), Failed>
    requires { CanDeliver (H.state host.old) }
    ensures calls { let outputs = stream_outputs wave.now (option_map (λ name. name.now) trace.entry) head.now (P.to_come source.old) in
        Follows (MakesAtOnce (length (ended_of (H.state host.old).calls) + 2) outputs) (H.state host.old) (H.state host.new) result }
    ensures report { OnOk result (P.report source.new ≡ P.report source.old) }
    ensures is_done { OnOk result (P.is_done source.new ≡ true) }
{
    let targets = begin(host, wave, trace)?;
    put(host, targets, head, &[])?;
    pump(host, targets, source)?;
    end(host, targets)
}

/// Writes the head and all pieces to the outputs, and then the report of the source.
pub fn stream<H: Host, P: Pieces>(
    host: &mut H,
    wave: &str,
    trace: Option<&str>,
    head: &[u8],
    source: &mut P,
) -> Result<(), Failed>
    requires { CanDeliver (H.state host.old) }
    ensures { let outputs = stream_outputs wave.now (option_map (λ name. name.now) trace.entry) head.now (P.to_come source.old) in
        let first = length (ended_of (H.state host.old).calls) + 2 in
        Follows (DeliversAs at_once first outputs (P.report source.old)) (H.state host.old) (H.state host.new) result }
{
    fill_outputs(host, wave, trace, head, source)?;
    write_all(host, REPORT, source.report())
}

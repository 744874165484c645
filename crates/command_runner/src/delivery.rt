// Plans, and how they are carried out: the outputs are created, written and ended, and then the report is written.
ghost use Rattle.std.specs.Prelude.{◌≡◌, ◌+◌, ◌<◌, length};
ghost use Rattle.snd_host.specs.Follows.{Follows};
ghost use Rattle.snd_host.specs.History.{ended_of};
ghost use Rattle.snd_host.specs.Host.{HostState};
ghost use Rattle.command_runner.specs.Conduct.{CarriesOut};
ghost use Rattle.command_runner.specs.Delivery.{CanDeliver};
ghost use Rattle.command_runner.specs.OutputCalls.{at_once, DeliversAs};
ghost use Rattle.command_runner.specs.Plan.{planned_outputs, plan_makes, stream_makes};

use crate::pieces::NoPieces;
use crate::streaming::{REPORT, stream};
use crate::{Pieces, Refusal};
use snd_host::{Failed, Host, write_all};

/// The output and the report of a command that holds them in memory.
#[derive(Drop)]
pub struct Plan<'a> {
    pub output: Option<PlannedOutput<'a>>,
    pub report: Vec<u8>,
}

/// An output with its bytes.
#[derive(Drop)]
pub struct PlannedOutput<'a> {
    pub name: &'a str,
    pub bytes: Vec<u8>,
}

/// The sound file and the trace of a command that are made in pieces, after the head of the sound file, by a source that then
/// has the report.
#[derive(Drop)]
pub struct StreamedPlan<'a, P: Pieces + Drop> {
    pub wave: &'a str,
    pub trace: Option<&'a str>,
    pub head: Vec<u8>,
    pub source: P,
}

/// Writes the output, if there is one, and then the report.
fn deliver<H: Host>(host: &mut H, plan: &Plan<'_>) -> Result<(), Failed>
    requires { CanDeliver (H.state host.old) }
    ensures { let next = length (ended_of (H.state host.old).calls) + 2 in
        Follows (DeliversAs at_once next (planned_outputs plan.now.output) plan.now.report.items) (H.state host.old) (H.state host.new) result }
{
    match &plan.output {
        Some(output) => stream(
            host,
            output.name,
            None,
            output.bytes.as_slice(),
            &mut NoPieces {
                report: plan.report.as_slice(),
            },
        ),
        None => write_all(host, REPORT, plan.report.as_slice()),
    }
}

/// Carries out a plan in memory, if there is one.
pub fn carry_out<H: Host, C: Drop>(
    host: &mut H,
    prepared: Result<Plan<'_>, Refusal<C>>,
) -> Option<Refusal<C>>
    requires { CanDeliver (H.state host.old) }
    ensures { CarriesOut at_once plan_makes prepared.entry (H.state host.old) (H.state host.new) result }
{
    match prepared {
        Ok(plan) => match deliver(host, &plan) {
            Ok(()) => None,
            Err(_) => Some(Refusal::WriteFault),
        },
        Err(refusal) => Some(refusal),
    }
}

/// Carries out a plan in pieces, if there is one.
pub fn carry_stream<H: Host, P: Pieces + Drop, C: Drop>(
    host: &mut H,
    prepared: Result<StreamedPlan<'_, P>, Refusal<C>>,
) -> Option<Refusal<C>>
    requires { CanDeliver (H.state host.old) }
    ensures { CarriesOut at_once (stream_makes P.to_come P.report) prepared.entry (H.state host.old) (H.state host.new) result }
{
    match prepared {
        Ok(plan) => {
            let StreamedPlan {
                wave,
                trace,
                head,
                mut source,
            } = plan;
            match stream(host, wave, trace, head.as_slice(), &mut source) {
                Ok(()) => None,
                Err(_) => Some(Refusal::WriteFault),
            }
        }
        Err(refusal) => Some(refusal),
    }
}

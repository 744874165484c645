// Outputs of a list, which are created, written and ended one after another, and then the report.
ghost use Rattle.std.specs.Prelude.{◌≡◌, ◌+◌, ◌<◌, [], ◌∷◌, length, map, IfOk};
ghost use Rattle.snd_host.specs.Follows.{Follows};
ghost use Rattle.snd_host.specs.History.{ended_of};
ghost use Rattle.snd_host.specs.Host.{HostState};
ghost use Rattle.command_runner.specs.Conduct.{CarriesOut};
ghost use Rattle.command_runner.specs.Delivery.{CanDeliverAll};
ghost use Rattle.command_runner.specs.Listed.{listed_output, list_makes};
ghost use Rattle.command_runner.specs.OutputCalls.{MakesAtOnce, MakesInTurn, in_turn, DeliversAs};

use crate::streaming::{REPORT, fill_outputs};
use crate::{Pieces, Refusal};
use snd_host::{Failed, Host, write_all};

/// An output that is made in pieces, after its head.
#[derive(Drop)]
pub struct ListedOutput<P: Pieces + Drop> {
    pub name: String,
    pub head: Vec<u8>,
    pub source: P,
}

/// The outputs of a command that are made one after another, and its report.
#[derive(Drop)]
pub struct ListPlan<P: Pieces + Drop> {
    pub outputs: Vec<ListedOutput<P>>,
    pub report: Vec<u8>,
}

/// Creates an output, writes it and ends it.
fn fill_one<H: Host, P: Pieces + Drop>(host: &mut H, output: ListedOutput<P>) -> Result<(), Failed>
    requires { CanDeliverAll 1 (H.state host.old) }
    ensures { let made = listed_output P.to_come output ∷ [] in
        Follows (MakesAtOnce (length (ended_of (H.state host.old).calls) + 2) made) (H.state host.old) (H.state host.new) result }
{
    let ListedOutput {
        name,
        head,
        mut source,
    } = output;
    fill_outputs(host, name.as_str(), None, head.as_slice(), &mut source)
}

/// Creates the outputs, writes them and ends them, one after another.
fn fill_all<H: Host, P: Pieces + Drop>(
    host: &mut H,
    outputs: Vec<ListedOutput<P>>,
) -> Result<(), Failed>
    requires { CanDeliverAll (length outputs.items) (H.state host.old) }
    ensures { let made = map (listed_output P.to_come) outputs.items in
        Follows (MakesInTurn (length (ended_of (H.state host.old).calls) + 2) made) (H.state host.old) (H.state host.new) result }
{
    for output in outputs {
        fill_one(host, output)?;
    }
    Ok(())
}

/// Writes the outputs and then the report.
fn deliver_all<H: Host, P: Pieces + Drop>(host: &mut H, plan: ListPlan<P>) -> Result<(), Failed>
    requires { CanDeliverAll (length plan.outputs.items) (H.state host.old) }
    ensures { let makes = list_makes P.to_come plan in
        Follows (DeliversAs in_turn (length (ended_of (H.state host.old).calls) + 2) makes.outputs makes.report) (H.state host.old) (H.state host.new) result }
{
    let ListPlan { outputs, report } = plan;
    fill_all(host, outputs)?;
    write_all(host, REPORT, report.as_slice())
}

/// Carries out a plan of a list of outputs, if there is one.
pub fn carry_all<H: Host, P: Pieces + Drop, C: Drop>(
    host: &mut H,
    prepared: Result<ListPlan<P>, Refusal<C>>,
) -> Option<Refusal<C>>
    requires { IfOk prepared (λ plan. CanDeliverAll (length plan.outputs.items) (H.state host.old)) }
    ensures { CarriesOut in_turn (list_makes P.to_come) prepared (H.state host.old) (H.state host.new) result }
{
    match prepared {
        Ok(plan) => match deliver_all(host, plan) {
            Ok(()) => None,
            Err(_) => Some(Refusal::WriteFault),
        },
        Err(refusal) => Some(refusal),
    }
}

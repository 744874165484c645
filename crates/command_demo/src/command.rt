// The command `demo`: a demo file.
ghost use Rattle.std.specs.Prelude.{◌≡◌, IfOk, []};
ghost use Rattle.command_runner.specs.NamedInputs.{Held};
ghost use Rattle.command_runner.specs.Answer.{done};
ghost use Rattle.snd_host.specs.Host.{HostState};
ghost use Rattle.command_runner.specs.Conduct.{Plans};
ghost use Rattle.command_runner.specs.OutputCalls.{at_once};
ghost use Rattle.command_runner.specs.RunCalls.{AttemptsBy};
ghost use Rattle.command_runner.specs.Delivery.{CanDeliver};
ghost use Rattle.command_runner.specs.Plan.{plan_makes};
ghost use Rattle.command_demo.specs.Demo.{demo_answer};

use command_runner::{OutOfMemory, Plan, PlannedOutput, Refusal, carry_out};
use exit_status::Cause;
use snd_host::Host;
use spc_form::write_spc;
use std::alloc::Global;

/// The plan for a file.
fn plan_file(alloc: Global, number: u32, output: &str) -> Result<Plan<'_>, OutOfMemory>
    ensures { IfOk result (λ plan. demo_answer number output.now ≡ done (plan_makes plan).outputs (plan_makes plan).report) }
{
    let file = demo_gen::demo(alloc, number)?;
    let bytes = write_spc(alloc, &file)?;
    let report = Vec::from_slice(alloc, b"bytes 66048\n")?;
    Ok(Plan {
        output: Some(PlannedOutput {
            name: output,
            bytes,
        }),
        report,
    })
}

/// Makes the plan.
fn plan<'a>(alloc: Global, number: u32, output: &'a str) -> Result<Plan<'a>, Refusal<Cause>>
    ensures { Plans plan_makes (demo_answer number output.now) result }
{
    Ok(plan_file(alloc, number, output)?)
}

/// Makes the demo file of a number, the output.
pub fn demo<H: Host>(
    alloc: Global,
    host: &mut H,
    number: u32,
    output: &str,
) -> Option<Refusal<Cause>>
    requires { CanDeliver (H.state host.old) }
    ensures attempts { let answer = λ (held : Held). demo_answer number output.now in
        AttemptsBy at_once answer [] result (H.state host.old) (H.state host.new) }
    ensures not_usage { result ≡ Some Refusal.Usage → ⊥ }
{
    let prepared = plan(alloc, number, output);
    carry_out(host, prepared)
}

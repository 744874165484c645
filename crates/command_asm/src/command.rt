// The command `asm`: a source to code.
ghost use Rattle.std.specs.Prelude.{◌≡◌, ◌≤◌, length, IfOk, [], ◌∷◌};
ghost use Rattle.snd_host.specs.Host.{HostState};
ghost use Rattle.input_files.specs.Reading.{input_limit, input_up_to};
ghost use Rattle.command_runner.specs.NamedInputs.{Held, first};
ghost use Rattle.command_runner.specs.Conduct.{Plans, PreparesBy};
ghost use Rattle.command_runner.specs.OutputCalls.{at_once};
ghost use Rattle.command_runner.specs.RunCalls.{AttemptsBy};
ghost use Rattle.command_runner.specs.Delivery.{CanDeliver};
ghost use Rattle.command_runner.specs.Plan.{plan_makes};
ghost use Rattle.command_asm.specs.Asm.{fault_text, asm_report, source_answer, asm_answer};
ghost use Rattle.spc700_asm.specs.Assembly.{max_source};

use command_runner::{OutOfMemory, Plan, PlannedOutput, Refusal, carry_out};
use exit_status::Cause;
use input_files::{INPUT_LIMIT, read_input};
use report_text::put_named;
use snd_host::Host;
use spc700_asm::{AsmRefusal, LineFault, assemble};
use std::alloc::Global;

/// What is wrong with a line, as the complaint says it.
fn fault_text(fault: LineFault) -> exit_status::LineFault
    ensures { result ≡ fault_text fault }
{
    match fault {
        LineFault::Form => exit_status::LineFault::Form,
        LineFault::Number => exit_status::LineFault::Number,
        LineFault::Twice => exit_status::LineFault::Twice,
        LineFault::Long => exit_status::LineFault::Long,
        LineFault::Name => exit_status::LineFault::Name,
        LineFault::Far => exit_status::LineFault::Far,
    }
}

/// The line that says how much code was made.
fn report(alloc: Global, code: &[u8]) -> Result<Vec<u8>, OutOfMemory>
    ensures { IfOk result (λ report. report.items ≡ asm_report code.now) }
{
    let mut report = Vec::new(alloc);
    put_named(&mut report, b"bytes ", code.len() as u64)?;
    report.extend_from_slice(b"\n")?;
    Ok(report)
}

/// Makes the plan for an input that was read.
fn plan<'a>(
    alloc: Global,
    source: &[u8],
    origin: u16,
    output: &'a str,
) -> Result<Plan<'a>, Refusal<Cause>>
    requires { length source.now ≤ max_source }
    ensures { Plans plan_makes (source_answer origin output.now source.now) result }
{
    let code = match assemble(alloc, source, origin) {
        Ok(code) => code,
        Err(AsmRefusal::Line { number, fault }) => {
            return Err(Refusal::Input(Cause::AsmLine {
                line: number as usize,
                fault: fault_text(fault),
            }));
        }
        Err(AsmRefusal::OutOfMemory) => return Err(Refusal::OutOfMemory),
    };
    let report = report(alloc, code.as_slice())?;
    Ok(Plan {
        output: Some(PlannedOutput {
            name: output,
            bytes: code,
        }),
        report,
    })
}

/// Reads the input and makes the plan for it.
fn prepare<'a, H: Host>(
    alloc: Global,
    host: &mut H,
    input: &str,
    origin: u16,
    output: &'a str,
) -> Result<Plan<'a>, Refusal<Cause>>
    ensures { let answer = λ (held : Held). asm_answer origin output.now (first held) in
        PreparesBy plan_makes answer (input_up_to input_limit input.now ∷ []) (H.state host.old) (H.state host.new) result }
{
    let bytes = read_input(alloc, host, input, INPUT_LIMIT, Cause::InputTooLong)?;
    plan(alloc, bytes.as_slice(), origin, output)
}

/// Assembles the source that the input holds, its first line at the origin, to code, the output, and reports how many
/// bytes there are.
pub fn asm<H: Host>(
    alloc: Global,
    host: &mut H,
    input: &str,
    origin: u16,
    output: &str,
) -> Option<Refusal<Cause>>
    requires { CanDeliver (H.state host.old) }
    ensures attempts { let answer = λ (held : Held). asm_answer origin output.now (first held) in
        AttemptsBy at_once answer (input_up_to input_limit input.now ∷ []) result (H.state host.old) (H.state host.new) }
    ensures not_usage { result ≡ Some Refusal.Usage → ⊥ }
{
    let prepared = prepare(alloc, host, input, origin, output);
    carry_out(host, prepared)
}

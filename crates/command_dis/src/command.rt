// The command `dis`: the listing of code.
ghost use Rattle.std.specs.Prelude.{◌≡◌, IfOk, [], ◌∷◌};
ghost use Rattle.snd_host.specs.Host.{HostState};
ghost use Rattle.input_files.specs.Reading.{input_limit, input_up_to};
ghost use Rattle.command_runner.specs.NamedInputs.{Held, first};
ghost use Rattle.command_runner.specs.Conduct.{Plans, PreparesBy};
ghost use Rattle.command_runner.specs.OutputCalls.{at_once};
ghost use Rattle.command_runner.specs.RunCalls.{AttemptsBy};
ghost use Rattle.command_runner.specs.Delivery.{CanDeliver};
ghost use Rattle.command_runner.specs.Plan.{plan_makes};
ghost use Rattle.command_dis.specs.Dis.{line_count, dis_report, code_answer, dis_answer};

use aram_core::MEMORY_SIZE;
use command_runner::{OutOfMemory, Plan, PlannedOutput, Refusal, carry_out};
use exit_status::Cause;
use input_files::{INPUT_LIMIT, read_input};
use report_text::put_named;
use snd_host::Host;
use spc700_asm::disassemble;
use std::alloc::Global;

/// How many lines a text has, each ended by a line feed.
fn line_count(text: &[u8]) -> usize
    ensures { result ≡ line_count text.now }
{
    text.iter().filter(|byte| **byte == b'\n').count()
}

/// The line that says how long the listing is.
fn report(alloc: Global, text: &[u8]) -> Result<Vec<u8>, OutOfMemory>
    ensures { IfOk result (λ report. report.items ≡ dis_report text.now) }
{
    let mut report = Vec::new(alloc);
    put_named(&mut report, b"lines ", line_count(text) as u64)?;
    report.extend_from_slice(b"\n")?;
    Ok(report)
}

/// Makes the plan for an input that was read.
fn plan<'a>(
    alloc: Global,
    bytes: &[u8],
    origin: u16,
    output: &'a str,
) -> Result<Plan<'a>, Refusal<Cause>>
    ensures { Plans plan_makes (code_answer origin output.now bytes.now) result }
{
    if bytes.len() > MEMORY_SIZE - usize::from(origin) {
        return Err(Refusal::Input(Cause::CodeLength {
            length: bytes.len(),
            origin,
        }));
    }
    let text = disassemble(alloc, bytes, origin)?;
    let report = report(alloc, text.as_slice())?;
    Ok(Plan {
        output: Some(PlannedOutput {
            name: output,
            bytes: text,
        }),
        report,
    })
}

/// Reads the input and makes the plan for it.
fn prepare<'a, H: Host>(
    alloc: Global,
    host: &mut H,
    input: &str,
    origin: u16,
    output: &'a str,
) -> Result<Plan<'a>, Refusal<Cause>>
    ensures { let answer = λ (held : Held). dis_answer origin output.now (first held) in
        PreparesBy plan_makes answer (input_up_to input_limit input.now ∷ []) (H.state host.old) (H.state host.new) result }
{
    let bytes = read_input(alloc, host, input, INPUT_LIMIT, Cause::InputTooLong)?;
    plan(alloc, bytes.as_slice(), origin, output)
}

/// Lists the code that the input holds, its first byte at the origin, to the output, and reports how many lines there are.
pub fn dis<H: Host>(
    alloc: Global,
    host: &mut H,
    input: &str,
    origin: u16,
    output: &str,
) -> Option<Refusal<Cause>>
    requires { CanDeliver (H.state host.old) }
    ensures attempts { let answer = λ (held : Held). dis_answer origin output.now (first held) in
        AttemptsBy at_once answer (input_up_to input_limit input.now ∷ []) result (H.state host.old) (H.state host.new) }
    ensures not_usage { result ≡ Some Refusal.Usage → ⊥ }
{
    let prepared = prepare(alloc, host, input, origin, output);
    carry_out(host, prepared)
}

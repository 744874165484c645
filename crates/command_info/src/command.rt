// The command `info`: the fields of an SPC file.
ghost use Rattle.std.specs.Prelude.{◌≡◌, ◌++◌, OnOk, IfOk, length, codes, [], ◌∷◌};
ghost use Rattle.snd_host.specs.Host.{HostState};
ghost use Rattle.input_files.specs.Inputs.{spc_input};
ghost use Rattle.command_runner.specs.NamedInputs.{Held, first};
ghost use Rattle.command_runner.specs.Conduct.{Plans, PreparesBy};
ghost use Rattle.command_runner.specs.OutputCalls.{at_once};
ghost use Rattle.command_runner.specs.RunCalls.{AttemptsBy};
ghost use Rattle.command_runner.specs.Delivery.{CanDeliver};
ghost use Rattle.command_runner.specs.Plan.{plan_makes};
ghost use Rattle.command_info.specs.Info.{tag_name, tag_line, tag_lines, register_text, counter_text, data_text, status_text, register_line, info_report, fields_answer, info_answer};

use command_runner::{OutOfMemory, Plan, Refusal, carry_out};
use exit_status::Cause;
use input_files::{INPUT_LIMIT, accept_file, read_input};
use report_text::{put_number, put_text, put_two_digits, put_word};
use snd_host::Host;
use spc_form::{SpcFile, Tag};
use std::alloc::Global;

/// The tags in the order of their lines.
const TAGS: [Tag; 8] = [
    Tag::Title,
    Tag::Game,
    Tag::Dumper,
    Tag::Comments,
    Tag::Date,
    Tag::Seconds,
    Tag::Fade,
    Tag::Artist,
];

/// The name of a tag in the report.
fn name_of(tag: Tag) -> &'static [u8]
    ensures { result.now ≡ tag_name tag }
{
    match tag {
        Tag::Title => b"title",
        Tag::Game => b"game",
        Tag::Dumper => b"dumper",
        Tag::Comments => b"comments",
        Tag::Date => b"date",
        Tag::Seconds => b"seconds",
        Tag::Fade => b"fade",
        Tag::Artist => b"artist",
    }
}

/// Prints the line of a tag.
fn put_tag(report: &mut Vec<u8>, file: &SpcFile, tag: Tag) -> Result<(), OutOfMemory>
    ensures { OnOk result (report.new.items ≡ report.old.items ++ tag_line file.now tag) }
{
    report.extend_from_slice(name_of(tag))?;
    report.extend_from_slice(b" ")?;
    put_text(report, file.text(tag))?;
    report.extend_from_slice(b"\n")
}

/// Prints whether there are tags, and their lines.
fn put_tags(report: &mut Vec<u8>, file: &SpcFile) -> Result<(), OutOfMemory>
    ensures { OnOk result (report.new.items ≡ report.old.items ++ tag_lines file.now) }
{
    if !file.is_tagged() {
        return report.extend_from_slice(b"tags no\n");
    }
    report.extend_from_slice(b"tags yes\n")?;
    for tag in TAGS {
        put_tag(report, file, tag)?;
    }
    Ok(())
}

/// Prints a register of eight bits after its name.
fn put_register(report: &mut Vec<u8>, name: &[u8], value: u8) -> Result<(), OutOfMemory>
    ensures { OnOk result (report.new.items ≡ report.old.items ++ register_text name.now value) }
{
    report.extend_from_slice(b" ")?;
    report.extend_from_slice(name)?;
    report.extend_from_slice(b" ")?;
    put_two_digits(report, value)
}

/// Prints the program counter.
fn put_counter(report: &mut Vec<u8>, file: &SpcFile) -> Result<(), OutOfMemory>
    ensures { OnOk result (report.new.items ≡ report.old.items ++ counter_text file.now) }
{
    report.extend_from_slice(b"pc ")?;
    put_word(report, file.pc())
}

/// Prints A, X and Y.
fn put_data(report: &mut Vec<u8>, file: &SpcFile) -> Result<(), OutOfMemory>
    ensures { OnOk result (report.new.items ≡ report.old.items ++ data_text file.now) }
{
    put_register(report, b"a", file.a())?;
    put_register(report, b"x", file.x())?;
    put_register(report, b"y", file.y())
}

/// Prints the status and the stack pointer.
fn put_status(report: &mut Vec<u8>, file: &SpcFile) -> Result<(), OutOfMemory>
    ensures { OnOk result (report.new.items ≡ report.old.items ++ status_text file.now) }
{
    put_register(report, b"psw", file.psw())?;
    put_register(report, b"sp", file.sp())
}

/// Prints the line of the processor's registers.
fn put_registers(report: &mut Vec<u8>, file: &SpcFile) -> Result<(), OutOfMemory>
    ensures { OnOk result (report.new.items ≡ report.old.items ++ register_line file.now) }
{
    put_counter(report, file)?;
    put_data(report, file)?;
    put_status(report, file)?;
    report.extend_from_slice(b"\n")
}

/// The report on a file, whose input had this size.
fn report(alloc: Global, size: usize, file: &SpcFile) -> Result<Vec<u8>, OutOfMemory>
    ensures { IfOk result (λ report. report.items ≡ info_report size file.now) }
{
    let mut report = Vec::from_slice(alloc, b"length ")?;
    put_number(&mut report, size)?;
    report.extend_from_slice(b"\nminor ")?;
    put_number(&mut report, usize::from(file.minor()))?;
    report.extend_from_slice(b"\n")?;
    put_tags(&mut report, file)?;
    put_registers(&mut report, file)?;
    Ok(report)
}

/// Makes the plan for an input that was read.
fn plan(alloc: Global, bytes: &[u8]) -> Result<Plan<'static>, Refusal<Cause>>
    ensures { Plans plan_makes (fields_answer bytes.now) result }
{
    let file = accept_file(alloc, bytes)?;
    let report = report(alloc, bytes.len(), &file)?;
    Ok(Plan {
        output: None,
        report,
    })
}

/// Reads the input and makes the plan for it.
fn prepare<H: Host>(
    alloc: Global,
    host: &mut H,
    input: &str,
) -> Result<Plan<'static>, Refusal<Cause>>
    ensures { let answer = λ (held : Held). info_answer (first held) in
        PreparesBy plan_makes answer (spc_input input.now ∷ []) (H.state host.old) (H.state host.new) result }
{
    let bytes = read_input(
        alloc,
        host,
        input,
        INPUT_LIMIT,
        Cause::SpcLength(INPUT_LIMIT + 1),
    )?;
    plan(alloc, bytes.as_slice())
}

/// Reports the fields of the SPC file that the input holds.
pub fn info<H: Host>(alloc: Global, host: &mut H, input: &str) -> Option<Refusal<Cause>>
    requires { CanDeliver (H.state host.old) }
    ensures attempts { let answer = λ (held : Held). info_answer (first held) in
        AttemptsBy at_once answer (spc_input input.now ∷ []) result (H.state host.old) (H.state host.new) }
    ensures not_usage { result ≡ Some Refusal.Usage → ⊥ }
{
    let prepared = prepare(alloc, host, input);
    carry_out(host, prepared)
}

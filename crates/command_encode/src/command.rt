// The command `encode`: a sound file of one channel to blocks of BRR.
ghost use Rattle.std.specs.Prelude.{◌≡◌, ◌++◌, OnOk, IfOk, [], ◌∷◌};
ghost use Rattle.snd_host.specs.Host.{HostState};
ghost use Rattle.input_files.specs.Reading.{wave_limit, input_up_to};
ghost use Rattle.command_runner.specs.NamedInputs.{Held, first};
ghost use Rattle.command_runner.specs.Conduct.{Plans, PreparesBy};
ghost use Rattle.command_runner.specs.OutputCalls.{at_once};
ghost use Rattle.command_runner.specs.RunCalls.{AttemptsBy};
ghost use Rattle.command_runner.specs.Delivery.{CanDeliver};
ghost use Rattle.command_runner.specs.Plan.{plan_makes};
ghost use Rattle.brr_search.specs.Options.{AreInRange};
ghost use Rattle.command_encode.specs.Encode.{block_line, loop_line, encode_report, encoding_answer, wave_answer, encode_answer};

use brr_encode::{BlockReport, EncodeRefusal};
use brr_search::{EncodeOptions, find_encoding};
use command_runner::{OutOfMemory, Plan, PlannedOutput, Refusal, carry_out};
use exit_status::Cause;
use input_files::{WAVE_LIMIT, read_input};
use report_text::{put_named, put_two_digits};
use snd_host::Host;
use std::alloc::Global;
use wav_form::{WavRefusal, read_mono};

/// Prints the line of a block.
fn put_block(report: &mut Vec<u8>, place: usize, block: &BlockReport) -> Result<(), OutOfMemory>
    ensures { OnOk result (report.new.items ≡ report.old.items ++ block_line place block.now) }
{
    put_named(report, b"block ", place as u64)?;
    report.extend_from_slice(b" header ")?;
    put_two_digits(report, block.header)?;
    put_named(report, b" worst ", u64::from(block.worst))?;
    put_named(report, b" squares ", block.squares)?;
    report.extend_from_slice(b"\n")
}

/// Prints the line of the place at which a loop goes on, where there is one.
fn put_loop(report: &mut Vec<u8>, loop_at: Option<u32>) -> Result<(), OutOfMemory>
    ensures { OnOk result (report.new.items ≡ report.old.items ++ loop_line loop_at) }
{
    match loop_at {
        Some(sample) => {
            put_named(report, b"loop ", u64::from(sample))?;
            report.extend_from_slice(b"\n")
        }
        None => Ok(()),
    }
}

/// The lines of the blocks, how many there are, and the place of the loop.
fn report(
    alloc: Global,
    blocks: &[BlockReport],
    loop_at: Option<u32>,
) -> Result<Vec<u8>, OutOfMemory>
    ensures { IfOk result (λ report. report.items ≡ encode_report blocks.now loop_at) }
{
    let mut report = Vec::new(alloc);
    for (place, block) in blocks.iter().enumerate() {
        put_block(&mut report, place, block)?;
    }
    put_named(&mut report, b"blocks ", blocks.len() as u64)?;
    report.extend_from_slice(b"\n")?;
    put_loop(&mut report, loop_at)?;
    Ok(report)
}

/// Makes the plan for samples.
fn plan_samples<'a>(
    alloc: Global,
    samples: &[i16],
    output: &'a str,
    options: EncodeOptions,
) -> Result<Plan<'a>, Refusal<Cause>>
    requires { AreInRange options }
    ensures { Plans plan_makes (encoding_answer output.now options samples.now) result }
{
    let count = samples.len();
    if options.is_past(count) {
        return Err(Refusal::Input(Cause::EncodeSize(count)));
    }
    let (candidates, loop_block, looped) = (
        options.candidates(),
        options.loop_block(),
        options.is_looped(),
    );
    let encoded = match find_encoding(alloc, candidates, loop_block, samples, looped) {
        Ok(encoded) => encoded,
        Err(EncodeRefusal::Empty | EncodeRefusal::TooLong) => {
            return Err(Refusal::Input(Cause::EncodeSize(count)));
        }
        Err(EncodeRefusal::OutOfMemory) => return Err(Refusal::OutOfMemory),
    };
    let report = report(alloc, &encoded.reports, options.loop_at)?;
    Ok(Plan {
        output: Some(PlannedOutput {
            name: output,
            bytes: encoded.bytes,
        }),
        report,
    })
}

/// Makes the plan for an input that was read.
fn plan<'a>(
    alloc: Global,
    bytes: &[u8],
    output: &'a str,
    options: EncodeOptions,
) -> Result<Plan<'a>, Refusal<Cause>>
    requires { AreInRange options }
    ensures { Plans plan_makes (wave_answer output.now options bytes.now) result }
{
    match read_mono(alloc, bytes) {
        Ok(samples) => plan_samples(alloc, &samples, output, options),
        Err(WavRefusal::OutOfMemory) => Err(Refusal::OutOfMemory),
        Err(_) => Err(Refusal::Input(Cause::WavForm)),
    }
}

/// Reads the input and makes the plan for it.
fn prepare<'a, H: Host>(
    alloc: Global,
    host: &mut H,
    input: &str,
    output: &'a str,
    options: EncodeOptions,
) -> Result<Plan<'a>, Refusal<Cause>>
    requires { AreInRange options }
    ensures { let answer = λ (held : Held). encode_answer output.now options (first held) in
        PreparesBy plan_makes answer (input_up_to wave_limit input.now ∷ []) (H.state host.old) (H.state host.new) result }
{
    let bytes = read_input(alloc, host, input, WAVE_LIMIT, Cause::InputTooLong)?;
    plan(alloc, bytes.as_slice(), output, options)
}

/// Encodes the sound file of one channel that the input holds to blocks, the output, and reports on each block. The options say whether
/// the sound loops and from where, and how many candidates are kept open. A loop that is to go on from a sample that isn't there is refused as
/// a sound is that has too few samples or too many.
pub fn encode<H: Host>(
    alloc: Global,
    host: &mut H,
    input: &str,
    output: &str,
    options: EncodeOptions,
) -> Option<Refusal<Cause>>
    requires deliver { CanDeliver (H.state host.old) }
    requires in_range { AreInRange options }
    ensures attempts { let answer = λ (held : Held). encode_answer output.now options (first held) in
        AttemptsBy at_once answer (input_up_to wave_limit input.now ∷ []) result (H.state host.old) (H.state host.new) }
    ensures not_usage { result ≡ Some Refusal.Usage → ⊥ }
{
    let prepared = prepare(alloc, host, input, output, options);
    carry_out(host, prepared)
}

// The command `brr`: blocks of BRR to a sound file of one channel.
ghost use Rattle.std.specs.Prelude.{◌≡◌, ◌≤◌, ◌++◌, length, codes, decimal, IfOk, [], ◌∷◌};
ghost use Rattle.num_fix.specs.Limits.{max_frames};
ghost use Rattle.wav_form.specs.Wave.{mono_wave};
ghost use Rattle.snd_host.specs.Host.{HostState};
ghost use Rattle.input_files.specs.Reading.{input_limit, input_up_to};
ghost use Rattle.command_runner.specs.NamedInputs.{Held, first};
ghost use Rattle.command_runner.specs.Conduct.{Plans, PreparesBy};
ghost use Rattle.command_runner.specs.OutputCalls.{at_once};
ghost use Rattle.command_runner.specs.RunCalls.{AttemptsBy};
ghost use Rattle.command_runner.specs.Delivery.{CanDeliver};
ghost use Rattle.command_runner.specs.Plan.{plan_makes};
ghost use Rattle.command_brr.specs.Brr.{decoding_answer, brr_answer};

use brr_decode::{BrrRefusal, decode_stream};
use byteorder::{ByteOrder, LittleEndian};
use command_runner::{OutOfMemory, Plan, PlannedOutput, Refusal, carry_out};
use exit_status::Cause;
use input_files::{INPUT_LIMIT, read_input};
use report_text::put_named;
use snd_host::Host;
use std::alloc::Global;
use wav_form::{HEADER_SIZE, header};

/// The bytes of a sound file of one channel.
fn wave(alloc: Global, samples: &[i16]) -> Result<Vec<u8>, OutOfMemory>
    requires { length samples.now ≤ max_frames }
    ensures { IfOk result (λ wave. wave.items ≡ mono_wave samples.now) }
{
    let mut wave = Vec::with_capacity(alloc, HEADER_SIZE + 2 * samples.len())?;
    wave.extend_from_slice(&header(1, samples.len() as u32))?;
    for sample in samples {
        let mut bytes = [0u8; 2];
        LittleEndian::write_i16(&mut bytes, *sample);
        wave.extend_from_slice(&bytes)?;
    }
    Ok(wave)
}

/// The line that says what was decoded.
fn report(alloc: Global, blocks: usize, samples: usize) -> Result<Vec<u8>, OutOfMemory>
    ensures { IfOk result (λ report. report.items ≡
        codes "blocks " ++ decimal blocks ++ codes " samples " ++ decimal samples ++ codes "\n") }
{
    let mut report = Vec::new(alloc);
    put_named(&mut report, b"blocks ", blocks as u64)?;
    put_named(&mut report, b" samples ", samples as u64)?;
    report.extend_from_slice(b"\n")?;
    Ok(report)
}

/// Makes the plan for an input that was read.
fn plan<'a>(alloc: Global, bytes: &[u8], output: &'a str) -> Result<Plan<'a>, Refusal<Cause>>
    ensures { Plans plan_makes (decoding_answer output.now bytes.now) result }
{
    let samples = match decode_stream(alloc, bytes) {
        Ok(samples) => samples,
        Err(BrrRefusal::Length(length)) => return Err(Refusal::Input(Cause::BrrLength(length))),
        Err(BrrRefusal::OutOfMemory) => return Err(Refusal::OutOfMemory),
    };
    let wave = wave(alloc, &samples)?;
    let report = report(alloc, bytes.len() / 9, samples.len())?;
    Ok(Plan {
        output: Some(PlannedOutput {
            name: output,
            bytes: wave,
        }),
        report,
    })
}

/// Reads the input and makes the plan for it.
fn prepare<'a, H: Host>(
    alloc: Global,
    host: &mut H,
    input: &str,
    output: &'a str,
) -> Result<Plan<'a>, Refusal<Cause>>
    ensures { let answer = λ (held : Held). brr_answer output.now (first held) in
        PreparesBy plan_makes answer (input_up_to input_limit input.now ∷ []) (H.state host.old) (H.state host.new) result }
{
    let bytes = read_input(alloc, host, input, INPUT_LIMIT, Cause::InputTooLong)?;
    plan(alloc, bytes.as_slice(), output)
}

/// Decodes the blocks of the input to a sound file of one channel, the output, and reports how many there were.
pub fn brr<H: Host>(
    alloc: Global,
    host: &mut H,
    input: &str,
    output: &str,
) -> Option<Refusal<Cause>>
    requires { CanDeliver (H.state host.old) }
    ensures attempts { let answer = λ (held : Held). brr_answer output.now (first held) in
        AttemptsBy at_once answer (input_up_to input_limit input.now ∷ []) result (H.state host.old) (H.state host.new) }
    ensures not_usage { result ≡ Some Refusal.Usage → ⊥ }
{
    let prepared = prepare(alloc, host, input, output);
    carry_out(host, prepared)
}

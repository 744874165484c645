// The command `render`: the sound of an SPC file over a table of weights, and its trace where it is wanted.
ghost use Rattle.std.specs.Prelude.{◌≡◌, ◌≤◌, ◌++◌, IfOk, is_some, unwrap_or, [], ◌∷◌};
ghost use Rattle.wav_form.specs.Wave.{header_of};
ghost use Rattle.dsp_core.specs.DspChip.{dsp_chip};
ghost use Rattle.snd_host.specs.Host.{HostState};
ghost use Rattle.input_files.specs.Inputs.{table_input};
ghost use Rattle.command_runner.specs.NamedInputs.{Held, first};
ghost use Rattle.command_runner.specs.Conduct.{Plans, PreparesBy};
ghost use Rattle.command_runner.specs.OutputCalls.{at_once};
ghost use Rattle.command_runner.specs.RunCalls.{AttemptsBy};
ghost use Rattle.command_runner.specs.Delivery.{CanDeliver};
ghost use Rattle.command_runner.specs.Plan.{stream_makes};
ghost use Rattle.render_files.specs.RenderReport.{sound_report};
ghost use Rattle.num_fix.specs.Limits.{max_frames};
ghost use Rattle.render_files.specs.RenderFiles.{to_come_of, report_of};
ghost use Rattle.command_render.specs.Options.{options_of, SamplesWithinHour};
ghost use Rattle.command_render.specs.Render.{length_with, traced_voices, muted_voices, rendered_wave, rendered_trace, rendered_counts, rendering_answer, file_answer, render_over, render_inputs};

use crate::options::RenderOptions;
use command_runner::{OutOfMemory, Refusal, StreamedPlan, carry_stream};
use dsp_core::Dsp;
use exit_status::Cause;
use gauss_table::GaussTable;
use input_files::{read_file, read_table};
use render_files::RenderFiles;
use snd_host::Host;
use spc_form::{Length, SpcFile};
use std::alloc::Global;
use tune_opening::open_tune;
use wav_form::header;

/// The length of the render and its fade, in frames.
fn length_with(samples: Option<u32>, file: &SpcFile) -> Length
    requires { SamplesWithinHour samples }
    ensures length { result ≡ length_with samples file.now }
    ensures frames { result.frames ≤ max_frames }
    ensures fade { result.fade ≤ result.frames }
{
    match samples {
        Some(frames) => Length { frames, fade: 0 },
        None => file.length(),
    }
}

/// The voices of the trace, where there is a trace.
fn traced_voices(options: RenderOptions<'_>) -> Option<u8>
    ensures { result ≡ traced_voices (options_of options.entry) }
{
    match options.trace {
        Some(_) => Some(options.voices.unwrap_or(0)),
        None => None,
    }
}

/// The muted voices.
fn muted_voices(options: RenderOptions<'_>) -> u8
    ensures { result ≡ muted_voices (options_of options.entry) }
{
    options.muted.unwrap_or(0)
}

/// Opens the files of a render of this length, with these voices muted. With voices there is a trace, which has the records
/// of these voices; bit v is voice v.
fn open_files(
    alloc: Global,
    file: &SpcFile,
    table: GaussTable,
    muted: u8,
    length: Length,
    voices: Option<u8>,
) -> Result<RenderFiles<Dsp>, OutOfMemory>
    requires limit { length.frames ≤ max_frames }
    requires within { length.fade ≤ length.frames }
    ensures wave { IfOk result (λ files. header_of 2 length.frames ++ (to_come_of dsp_chip files).wave ≡ rendered_wave file.now table muted voices length) }
    ensures trace { IfOk result (λ files. (to_come_of dsp_chip files).trace ≡ rendered_trace file.now table muted voices length) }
    ensures report { IfOk result (λ files. report_of dsp_chip files ≡ sound_report length.frames (rendered_counts file.now table muted voices length)) }
{
    let mask = voices.unwrap_or(0);
    let render = open_tune(alloc, file, table, muted, length.frames, mask)?;
    RenderFiles::open(alloc, render, length.frames, length.fade, voices.is_some())
}

/// Makes the plan for a file and a table.
fn plan<'a>(
    alloc: Global,
    file: &SpcFile,
    table: GaussTable,
    wave: &'a str,
    options: RenderOptions<'a>,
) -> Result<StreamedPlan<'a, RenderFiles<Dsp>>, Refusal<Cause>>
    requires { SamplesWithinHour options.samples }
    ensures { let answer = rendering_answer wave.now (options_of options.entry) file.now table in
        Plans (stream_makes (to_come_of dsp_chip) (report_of dsp_chip)) answer result }
{
    let length = length_with(options.samples, file);
    let muted = muted_voices(options);
    let voices = traced_voices(options);
    let head = Vec::from_slice(alloc, &header(2, length.frames))?;
    let source = open_files(alloc, file, table, muted, length, voices)?;
    Ok(StreamedPlan {
        wave,
        trace: options.trace,
        head,
        source,
    })
}

/// Reads the table and makes the plan for it and a file.
fn prepare_with<'a, H: Host>(
    alloc: Global,
    host: &mut H,
    file: &SpcFile,
    table: &str,
    wave: &'a str,
    options: RenderOptions<'a>,
) -> Result<StreamedPlan<'a, RenderFiles<Dsp>>, Refusal<Cause>>
    requires { SamplesWithinHour options.samples }
    ensures { let answer = λ (held : Held). file_answer wave.now (options_of options.entry) (first held) file.now in
        PreparesBy (stream_makes (to_come_of dsp_chip) (report_of dsp_chip)) answer
        (table_input table.now ∷ []) (H.state host.old) (H.state host.new) result }
{
    let table = read_table(alloc, host, table)?;
    plan(alloc, file, table, wave, options)
}

/// Reads the file and the table and makes the plan for them.
fn prepare<'a, H: Host>(
    alloc: Global,
    host: &mut H,
    file: &str,
    table: &str,
    wave: &'a str,
    options: RenderOptions<'a>,
) -> Result<StreamedPlan<'a, RenderFiles<Dsp>>, Refusal<Cause>>
    requires { SamplesWithinHour options.samples }
    ensures { let answer = render_over wave.now (options_of options.entry) in
        PreparesBy (stream_makes (to_come_of dsp_chip) (report_of dsp_chip)) answer
        (render_inputs file.now table.now) (H.state host.old) (H.state host.new) result }
{
    let file = read_file(alloc, host, file)?;
    prepare_with(alloc, host, &file, table, wave, options)
}

/// Renders the file over the table to the sound file, and to the trace where it has a name.
pub fn render<H: Host>(
    alloc: Global,
    host: &mut H,
    file: &str,
    table: &str,
    wave: &str,
    options: RenderOptions<'_>,
) -> Option<Refusal<Cause>>
    requires outputs { CanDeliver (H.state host.old) }
    requires within_hour { SamplesWithinHour options.samples }
    ensures attempts { let answer = render_over wave.now (options_of options.entry) in
        AttemptsBy at_once answer (render_inputs file.now table.now) result (H.state host.old) (H.state host.new) }
    ensures not_usage { result ≡ Some Refusal.Usage → ⊥ }
{
    let prepared = prepare(alloc, host, file, table, wave, options);
    carry_stream(host, prepared)
}

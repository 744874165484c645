// The command `serve`: a session over a tune.
ghost use Rattle.std.specs.Prelude.{◌≡◌, ◌++◌, IfOk, [], ◌∷◌};
ghost use Rattle.wav_form.specs.Wave.{header_of, stereo_wave};
ghost use Rattle.dsp_core.specs.DspChip.{dsp_chip, dsp_saving};
ghost use Rattle.snd_host.specs.Host.{HostState};
ghost use Rattle.input_files.specs.Reading.{input_limit, input_up_to};
ghost use Rattle.input_files.specs.Inputs.{table_input};
ghost use Rattle.command_runner.specs.NamedInputs.{Held, first, second};
ghost use Rattle.command_runner.specs.Conduct.{Plans, PreparesBy};
ghost use Rattle.command_runner.specs.OutputCalls.{at_once};
ghost use Rattle.command_runner.specs.RunCalls.{AttemptsBy};
ghost use Rattle.command_runner.specs.Delivery.{CanDeliver};
ghost use Rattle.command_runner.specs.Plan.{stream_makes};
ghost use Rattle.cut_form.specs.Session.{played_cuts};
ghost use Rattle.cut_form.specs.Slices.{cut_frames};
ghost use Rattle.cut_text.specs.Playing.{played_frames};
ghost use Rattle.session_files.specs.Replies.{report_on};
ghost use Rattle.session_files.specs.SessionFiles.{to_come_of, report_of};
ghost use Rattle.tune_opening.specs.Tune.{tune_frames};
ghost use Rattle.command_serve.specs.Serve.{AreOptionsInRange, tune_replies, script_answer, table_answer, file_answer, serve_over, serve_inputs};

use crate::options::SessionOptions;
use crate::script::read_lines;
use command_runner::{OutOfMemory, Refusal, StreamedPlan, carry_stream};
use cut_text::ScriptLines;
use dsp_core::Dsp;
use exit_status::Cause;
use gauss_table::GaussTable;
use input_files::{read_file, read_table};
use session_files::SessionFiles;
use snd_host::Host;
use spc_form::SpcFile;
use std::alloc::Global;
use tune_opening::open_server;
use wav_form::header;

/// The names of the inputs of a session, and of its sound file.
#[derive(Clone, Copy)]
struct Names<'a> {
    file: &'a str,
    table: &'a str,
    script: &'a str,
    wave: &'a str,
}

/// Opens the session of a script over a file and a table.
fn open_session(
    alloc: Global,
    file: &SpcFile,
    table: GaussTable,
    script: ScriptLines,
    options: SessionOptions,
) -> Result<SessionFiles<Dsp>, OutOfMemory>
    requires { AreOptionsInRange options }
    ensures wave { IfOk result (λ files. header_of 2 (played_frames 0 0 script) ++ (to_come_of dsp_chip dsp_saving files).wave
        ≡ stereo_wave (cut_frames (tune_frames file.now table options.muted 0) (played_cuts (tune_replies options file.now table script)))) }
    ensures report { IfOk result (λ files. report_of dsp_chip dsp_saving files ≡ report_on (tune_replies options file.now table script)) }
{
    let server = open_server(alloc, file, table, options.muted, options.pages)?;
    let files = SessionFiles::open(alloc, server, script)?;
    Ok(files)
}

/// Makes the plan for a file, a table and a script. The size of the sound file is known from the script.
fn plan<'a>(
    alloc: Global,
    file: &SpcFile,
    table: GaussTable,
    script: ScriptLines,
    wave: &'a str,
    options: SessionOptions,
) -> Result<StreamedPlan<'a, SessionFiles<Dsp>>, Refusal<Cause>>
    requires { AreOptionsInRange options }
    ensures { let answer = script_answer wave.now options file.now table script in
        Plans (stream_makes (to_come_of dsp_chip dsp_saving) (report_of dsp_chip dsp_saving)) answer result }
{
    let head = Vec::from_slice(alloc, &header(2, script.samples()))?;
    let source = open_session(alloc, file, table, script, options)?;
    Ok(StreamedPlan {
        wave,
        trace: None,
        head,
        source,
    })
}

/// Reads the script and makes the plan for it, a file and a table.
fn prepare_script<'a, H: Host>(
    alloc: Global,
    host: &mut H,
    file: &SpcFile,
    table: GaussTable,
    names: Names<'a>,
    options: SessionOptions,
) -> Result<StreamedPlan<'a, SessionFiles<Dsp>>, Refusal<Cause>>
    requires { AreOptionsInRange options }
    ensures { let answer = λ (held : Held). table_answer names.entry.wave.now options (first held) file.now table in
        PreparesBy (stream_makes (to_come_of dsp_chip dsp_saving) (report_of dsp_chip dsp_saving)) answer
        (input_up_to input_limit names.entry.script.now ∷ []) (H.state host.old) (H.state host.new) result }
{
    let lines = read_lines(alloc, host, names.script)?;
    plan(alloc, file, table, lines, names.wave, options)
}

/// Reads the table and the script and makes the plan for them and a file.
fn prepare_table<'a, H: Host>(
    alloc: Global,
    host: &mut H,
    file: &SpcFile,
    names: Names<'a>,
    options: SessionOptions,
) -> Result<StreamedPlan<'a, SessionFiles<Dsp>>, Refusal<Cause>>
    requires { AreOptionsInRange options }
    ensures { let answer = λ (held : Held). file_answer names.entry.wave.now options (first held) (second held) file.now in
        PreparesBy (stream_makes (to_come_of dsp_chip dsp_saving) (report_of dsp_chip dsp_saving)) answer
        (table_input names.entry.table.now ∷ input_up_to input_limit names.entry.script.now ∷ []) (H.state host.old) (H.state host.new) result }
{
    let table = read_table(alloc, host, names.table)?;
    prepare_script(alloc, host, file, table, names, options)
}

/// Reads the file, the table and the script and makes the plan for them.
fn prepare<'a, H: Host>(
    alloc: Global,
    host: &mut H,
    names: Names<'a>,
    options: SessionOptions,
) -> Result<StreamedPlan<'a, SessionFiles<Dsp>>, Refusal<Cause>>
    requires { AreOptionsInRange options }
    ensures { let answer = serve_over names.entry.wave.now options in
        PreparesBy (stream_makes (to_come_of dsp_chip dsp_saving) (report_of dsp_chip dsp_saving)) answer
        (serve_inputs names.entry.file.now names.entry.table.now names.entry.script.now) (H.state host.old) (H.state host.new) result }
{
    let file = read_file(alloc, host, names.file)?;
    prepare_table(alloc, host, &file, names, options)
}

/// Runs the script over the tune of the file and the table, with the pages for its checkpoints and the muted voices that the
/// options say, writes all that is played to the sound file, and reports a reply to each line.
pub fn serve<H: Host>(
    alloc: Global,
    host: &mut H,
    file: &str,
    table: &str,
    script: &str,
    wave: &str,
    options: SessionOptions,
) -> Option<Refusal<Cause>>
    requires outputs { CanDeliver (H.state host.old) }
    requires pages { AreOptionsInRange options }
    ensures attempts { let answer = serve_over wave.now options in
        AttemptsBy at_once answer (serve_inputs file.now table.now script.now) result (H.state host.old) (H.state host.new) }
    ensures not_usage { result ≡ Some Refusal.Usage → ⊥ }
{
    let names = Names {
        file,
        table,
        script,
        wave,
    };
    let prepared = prepare(alloc, host, names, options);
    carry_stream(host, prepared)
}

// The command `rip`: samples of a tune as sound files.
ghost use Rattle.std.specs.Prelude.{◌≡◌, ◌+◌, ◌<◌, ◌≤◌, ◌++◌, map, length, codes, string_bytes, IfOk, [], ◌∷◌};
ghost use Rattle.spc_form.specs.Layout.{dsp_of};
ghost use Rattle.sample_rip.specs.Entries.{max_entries};
ghost use Rattle.spc_form.specs.Opening.{opening_memory};
ghost use Rattle.snd_host.specs.Host.{HostState};
ghost use Rattle.input_files.specs.Inputs.{spc_input};
ghost use Rattle.command_runner.specs.NamedInputs.{Held, first};
ghost use Rattle.command_runner.specs.Answer.{done};
ghost use Rattle.command_runner.specs.Conduct.{Plans};
ghost use Rattle.command_runner.specs.OutputCalls.{in_turn};
ghost use Rattle.command_runner.specs.RunCalls.{AttemptsBy};
ghost use Rattle.command_runner.specs.Delivery.{CanDeliverAll};
ghost use Rattle.command_runner.specs.Listed.{listed_output, list_makes};
ghost use Rattle.command_rip.specs.Pieces.{to_come_of};
ghost use Rattle.command_rip.specs.Rip.{wanted_in, directory_page, entry_name, entry_output, entries_answer, file_answer, rip_answer};

use crate::pieces::RipPieces;
use crate::reports::report_on;
use aram_core::Aram;
use command_runner::{ListPlan, ListedOutput, OutOfMemory, Refusal, carry_all};
use exit_status::Cause;
use input_files::read_file;
use sample_rip::wanted;
use snd_host::Host;
use spc_form::{OpenState, SpcFile, opening};
use std::alloc::Global;
use text_form::two_digits;
use wav_form::header;

/// The register DIR: the page of the directory.
const DIR: usize = 0x5D;

/// The entries that are wanted, in ascending order.
fn wanted_in(alloc: Global, file: &SpcFile, range: Option<(u8, u8)>) -> Result<Vec<u8>, OutOfMemory>
    ensures entries { IfOk result (λ entries. entries.items ≡ wanted_in (dsp_of file.now) range) }
    ensures few { IfOk result (λ entries. length entries.items ≤ max_entries) }
{
    let flags = wanted(file, range);
    let mut entries = Vec::new(alloc);
    for entry in 0..256u16 {
        if flags[usize::from(entry)] {
            entries.push(entry as u8)?;
        }
    }
    Ok(entries)
}

/// The name of an entry's output.
pub(crate) fn entry_name(alloc: Global, prefix: &str, entry: u8) -> Result<String, OutOfMemory>
    ensures { IfOk result (λ name. string_bytes name ≡ entry_name prefix.now entry) }
{
    let digits = two_digits(entry);
    let mut name = String::from_str(alloc, prefix)?;
    name.push(char::from(digits[0]))?;
    name.push(char::from(digits[1]))?;
    name.push_str(".wav")?;
    Ok(name)
}

/// The output of an entry.
fn entry_output<'a>(
    alloc: Global,
    prefix: &str,
    memory: &'a Aram,
    dir: u8,
    entry: u8,
) -> Result<ListedOutput<RipPieces<'a>>, OutOfMemory>
    ensures { IfOk result (λ output. listed_output to_come_of output ≡ entry_output prefix.now memory.now dir entry) }
{
    let found = sample_rip::rip(memory, dir, entry);
    Ok(ListedOutput {
        name: entry_name(alloc, prefix, entry)?,
        head: Vec::from_slice(alloc, &header(1, 16 * found.blocks))?,
        source: RipPieces::new(memory, &found),
    })
}

/// The outputs of entries.
fn entry_outputs<'a>(
    alloc: Global,
    prefix: &str,
    memory: &'a Aram,
    dir: u8,
    entries: &[u8],
) -> Result<Vec<ListedOutput<RipPieces<'a>>>, OutOfMemory>
    ensures { IfOk result (λ outputs. map (listed_output to_come_of) outputs.items ≡ map (entry_output prefix.now memory.now dir) entries.now) }
{
    let mut outputs = Vec::new(alloc);
    for entry in entries {
        outputs.push(entry_output(alloc, prefix, memory, dir, *entry)?)?;
    }
    Ok(outputs)
}

/// The plan for entries of the directory at page `dir`. All reports are made here.
fn plan_entries<'a>(
    alloc: Global,
    prefix: &str,
    memory: &'a Aram,
    dir: u8,
    entries: &[u8],
) -> Result<ListPlan<RipPieces<'a>>, OutOfMemory>
    ensures plan { IfOk result (λ plan. entries_answer prefix.now memory.now dir entries.now
        ≡ done (list_makes to_come_of plan).outputs (list_makes to_come_of plan).report) }
    ensures few { IfOk result (λ plan. length plan.outputs.items ≡ length entries.now) }
{
    let report = report_on(alloc, memory, dir, entries)?;
    let outputs = entry_outputs(alloc, prefix, memory, dir, entries)?;
    Ok(ListPlan { outputs, report })
}

/// The plan for a file and the state that it opens.
fn plan_file<'a>(
    alloc: Global,
    prefix: &str,
    range: Option<(u8, u8)>,
    file: &SpcFile,
    state: &'a OpenState,
) -> Result<ListPlan<RipPieces<'a>>, Refusal<Cause>>
    requires memory { state.now.memory ≡ opening_memory file.now }
    requires dsp { state.now.dsp ≡ dsp_of file.now }
    ensures plans { Plans (list_makes to_come_of) (file_answer prefix.now range file.now) result }
    ensures few { IfOk result (λ plan. length plan.outputs.items ≤ max_entries) }
{
    let entries = wanted_in(alloc, file, range)?;
    let plan = plan_entries(alloc, prefix, &state.memory, state.dsp[DIR], &entries)?;
    Ok(plan)
}

/// Writes each wanted sample of the SPC file that the input holds to a sound file of one channel, whose name is the
/// prefix, the entry's number in two hexadecimal digits and `.wav`, and reports on each. Wanted are the entries that the
/// voices name, and those of the range.
pub fn rip<H: Host>(
    alloc: Global,
    host: &mut H,
    input: &str,
    prefix: &str,
    range: Option<(u8, u8)>,
) -> Option<Refusal<Cause>>
    requires { CanDeliverAll max_entries (H.state host.old) }
    ensures attempts { let answer = λ (held : Held). rip_answer prefix.now range (first held) in
        AttemptsBy in_turn answer (spc_input input.now ∷ []) result (H.state host.old) (H.state host.new) }
    ensures not_usage { result ≡ Some Refusal.Usage → ⊥ }
{
    let file = match read_file(alloc, host, input) {
        Ok(file) => file,
        Err(refusal) => return Some(refusal),
    };
    let Ok(state) = opening(alloc, &file) else {
        return Some(Refusal::OutOfMemory);
    };
    let planned = plan_file(alloc, prefix, range, &file, &state);
    carry_all(host, planned)
}

//! What comes after the voices of a sample.

ghost use Rattle.std.specs.Prelude.{◌≡◌};
ghost use Rattle.echo_unit.specs.Echo.{next_echo, echo_memory, echo_heard, output_frame};
ghost use Rattle.dsp_state.specs.Mix.{main_frame, sent_frame};
ghost use Rattle.dsp_state.specs.Results.{bits_from, registers_after};

use aram_core::Aram;
use dsp_state::{ChipState, SILENT_SUMS, Settings, put_results, sum_voices};
use num_fix::Frame;
use voice_unit::VoiceOut;

/// The sums of a sample whose voices gave their answers, the echo with the output, and the registers' results. `keyed` has the voices that
/// were keyed, as bits.
pub fn finish_sample(
    state: &mut ChipState,
    keyed: u8,
    settings: &Settings,
    memory: &mut Aram,
    answers: &[VoiceOut; 8],
) -> Frame
    requires { keyed ≡ bits_from (λ answer. answer.keyed) 0 answers.now }
    ensures state { state.new ≡ record state.old {
      registers = registers_after answers.now state.old.registers;
      hidden = record state.old.hidden { echo = next_echo state.old.hidden.echo settings.now.echo memory.old };
    } }
    ensures memory { let sent = sent_frame settings.now.volumes answers.now in
        memory.new ≡ echo_memory state.old.hidden.echo settings.now.echo memory.old sent }
    ensures frame { let main = main_frame settings.now.volumes answers.now in
        result ≡ output_frame settings.now.echo main (echo_heard state.old.hidden.echo settings.now.echo memory.old) }
{
    let mut sums = SILENT_SUMS;
    sum_voices(&mut sums, &settings.volumes, answers);
    let frame = state
        .hidden
        .echo
        .step(memory, &settings.echo, sums.main, sums.sent);
    put_results(&mut state.registers, keyed, answers);
    frame
}

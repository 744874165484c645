//! One sample of the chip.

ghost use Rattle.std.specs.Prelude.{◌≡◌, length, map, pos, if◌then◌else◌};
ghost use Rattle.rate_clock.specs.Counter.{counter_at};
ghost use Rattle.dsp_state.specs.Sample.{is_polled, sample, results_from, shared_input};
ghost use Rattle.dsp_state.specs.Settings.{settings_of};
ghost use Rattle.dsp_core.specs.MadeSample.{IsMade};

use crate::voices::{SampleReads, step_voices};
use aram_core::Aram;
use batch_rows::{finish_sample, is_polled, poll, step_noise};
use dsp_state::{ChipState, Settings, SharedByVoices};
use num_fix::Frame;
use rate_clock::RateClock;
use voice_unit::VoiceOut;

/// The voices that the sample of a number keys, once the keys are polled, as bits.
fn keyed_voices(state: &ChipState, number: u32) -> u8
    ensures { result ≡ (if is_polled number then state.now.hidden.kon_latched else 0) }
{
    if is_polled(number) {
        state.hidden.kon_latched
    } else {
        0
    }
}

/// One step of the voices, with their answers.
fn step_chip_voices(
    state: &mut ChipState,
    number: u32,
    clock: &RateClock,
    settings: &Settings,
    memory: &Aram,
    answers: &mut [VoiceOut; 8],
)
    requires { settings.now ≡ settings_of state.old.registers state.old.muted }
    ensures voices { let results = results_from (shared_input state.old memory.now number) 0 (pos 0) state.old.hidden.voices in
        clock.now ≡ counter_at number → state.new ≡ record state.old { hidden = record state.old.hidden { voices = map (λ one. one.voice) results } } }
    ensures answers { let results = results_from (shared_input state.old memory.now number) 0 (pos 0) state.old.hidden.voices in
        clock.now ≡ counter_at number → answers.new ≡ map (λ one. one.answer) results }
    ensures eight { length state.new.hidden.voices ≡ 8 }
{
    let reads = SampleReads {
        settings,
        common: SharedByVoices {
            noise: state.hidden.noise.value(),
            kon_latched: state.hidden.kon_latched,
            is_poll: is_polled(number),
        },
        memory,
        table: &state.table,
        clock: *clock,
    };
    step_voices(&mut state.hidden.voices, &reads, answers);
}

/// Makes the sample of a number, at which the clock stands, with the answers of the voices.
#[tactic(auto, unfolding(dsp_state::specs::Sample::sample))]
pub fn make_sample(
    state: &mut ChipState,
    number: u32,
    clock: &RateClock,
    settings: &Settings,
    memory: &mut Aram,
    answers: &mut [VoiceOut; 8],
) -> Frame
    requires settings { settings.now ≡ settings_of state.old.registers state.old.muted }
    requires clock { clock.now ≡ counter_at number }
    ensures { IsMade (sample number state.old memory.old) number state.new memory.new result answers.new }
{
    poll(state, number);
    step_noise(state, settings.noise_rate, clock);
    step_chip_voices(state, number, clock, settings, memory, answers);
    let keyed = keyed_voices(state, number);
    finish_sample(state, keyed, settings, memory, answers)
}

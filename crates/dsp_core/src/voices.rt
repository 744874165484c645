//! The voices of one sample, one after another.

ghost use Rattle.std.specs.Prelude.{◌≡◌, ◌<◌, ℕ, List};
ghost use Rattle.dsp_state.specs.Settings.{settings_of};
ghost use Rattle.dsp_state.specs.Sample.{voice_in, voice_result};
ghost use Rattle.dsp_core.specs.VoicesOfSample.{ForInput, voices_after_step, answers_of};

use aram_core::Aram;
use dsp_state::{Settings, SharedByVoices};
use gauss_table::GaussTable;
use num_fix::has_bit;
use rate_clock::RateClock;
use voice_unit::{Voice, VoiceIn, VoiceOut};

/// What all voices read in one sample.
#[derive(Clone, Copy)]
pub struct SampleReads<'a> {
    /// What is read of the registers.
    pub settings: &'a Settings,
    /// The keys and the noise.
    pub common: SharedByVoices,
    /// The memory.
    pub memory: &'a Aram,
    /// The table of weights.
    pub table: &'a GaussTable,
    /// The clock of the sample.
    pub clock: RateClock,
}

/// What voice `v` reads beside its registers.
fn voice_in(settings: &Settings, common: &SharedByVoices, v: u8, previous: i16) -> VoiceIn
    requires { v < 8 }
    ensures value { (registers : List ℕ) (muted : ℕ) → settings.now ≡ settings_of registers muted
        → result ≡ voice_in registers common.now v previous }
    ensures noise { result.noise ≡ common.now.noise }
{
    let one = &settings.voices[usize::from(v)];
    VoiceIn {
        dir: settings.dir,
        modulated: one.modulated,
        previous,
        noisy: one.noisy,
        noise: common.noise,
        reset: settings.reset,
        poll: common.is_poll,
        koff: one.koff,
        kon: has_bit(common.kon_latched, v),
    }
}

/// One step of voice `v`.
#[tactic(auto, unfolding(dsp_state::specs::Sample::voice_result))]
fn step_voice(voice: &mut Voice, v: u8, previous: i16, reads: &SampleReads) -> VoiceOut
    requires v { v < 8 }
    requires noise { reads.now.common.noise < 0x8000 }
    ensures voice { ForInput reads.now (λ shared. voice.new ≡ (voice_result shared v previous voice.old).voice) }
    ensures answer { ForInput reads.now (λ shared. result ≡ (voice_result shared v previous voice.old).answer) }
{
    let settings = reads.settings;
    let input = voice_in(settings, &reads.common, v, previous);
    let regs = &settings.voices[usize::from(v)].regs;
    voice.step(regs, &input, reads.memory, reads.table, &reads.clock)
}

/// One step of all voices in order, with their answers; each hears the output of the one before it.
pub fn step_voices(voices: &mut [Voice; 8], reads: &SampleReads, answers: &mut [VoiceOut; 8])
    requires { reads.now.common.noise < 0x8000 }
    ensures voices { ForInput reads.now (λ shared. voices.new ≡ voices_after_step shared voices.old) }
    ensures answers { ForInput reads.now (λ shared. answers.new ≡ answers_of shared voices.old) }
{
    let mut previous = 0;
    for v in 0..8u8 {
        let place = usize::from(v);
        let answer = step_voice(&mut voices[place], v, previous, reads);
        previous = answer.out;
        answers[place] = answer;
    }
}

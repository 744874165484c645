//! What one voice reads of the registers, and what all voices share beside them.

ghost use Rattle.std.specs.Prelude.{◌<◌};

use voice_unit::VoiceRegs;

/// What one voice reads beside its volumes.
#[derive(Clone, Copy)]
pub struct VoiceSettings {
    pub regs: VoiceRegs,
    /// The pitch is changed by the voice before: its bit of PMON, never of voice 0.
    pub modulated: bool,
    /// Noise takes the place of the samples: its bit of NON.
    pub noisy: bool,
    /// Its bit of KOFF.
    pub koff: bool,
    pub ghost pitch_of_14_bits: { regs.pitch < 0x4000 },
}

/// What all voices share in a sample beside the registers.
#[derive(Clone, Copy)]
pub struct SharedByVoices {
    /// The noise, at most 7FFFh.
    pub noise: u16,
    /// The key-ons that the last poll latched.
    pub kon_latched: u8,
    /// The keys are polled in this sample.
    pub is_poll: bool,
}

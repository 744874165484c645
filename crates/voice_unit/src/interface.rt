//! What a step of a voice reads beside the memory and the table, and what it gives.

ghost use Rattle.std.specs.Prelude.{◌≡◌, ◌<◌};
ghost use Rattle.voice_unit.specs.Voice.{is_keyed, is_modulated, is_silencing};

use brr_decode::{has_end, has_loop};
use num_fix::has_bit;

/// The registers of one voice that its step reads (Anomie's S-DSP Doc, "DSP Voices").
#[derive(Clone, Copy, Debug)]
pub struct VoiceRegs {
    /// PITCHL and PITCHH together, at most 3FFFh: 1000h plays a sample of the source in each step.
    pub pitch: u16,
    /// The number of the source in the directory.
    pub srcn: u8,
    /// ADSR1: the attack rate in bits 0 to 3, the decay rate in bits 4 to 6; bit 7 says that ADSR rules, and not GAIN.
    pub adsr1: u8,
    /// ADSR2: the sustain rate in bits 0 to 4, and in bits 5 to 7 the level at which decay ends, in units of 100h.
    pub adsr2: u8,
    /// GAIN: below 80h a level in units of 16; else the slope in bits 5 and 6, and its rate in bits 0 to 4.
    pub gain: u8,
}

/// What else a step reads: registers that all voices share, seen by one voice.
#[derive(Clone, Copy, Debug)]
pub struct VoiceIn {
    /// The page of the directory.
    pub dir: u8,
    /// The pitch is changed by the voice before: its PMON bit, never of voice 0.
    pub modulated: bool,
    /// The output of the voice before in this sample.
    pub previous: i16,
    /// Noise takes the place of the samples: its NON bit.
    pub noisy: bool,
    /// The noise, at most 7FFFh.
    pub noise: u16,
    /// The soft reset of FLG.
    pub reset: bool,
    /// The keys are looked at in this sample, as in every second one.
    pub poll: bool,
    /// Its KOFF bit: it is released where the keys are looked at.
    pub koff: bool,
    /// The poll took its KON bit.
    pub kon: bool,
}

/// What a step gives.
#[derive(Clone, Copy, Debug)]
pub struct VoiceOut {
    /// The output before its volumes.
    pub out: i16,
    /// The level that made it, at most 7FFh.
    pub level: u16,
    /// The register ENVX: the level over 16, at most 7Fh.
    pub envx: u8,
    /// The register OUTX: the high byte of the output, which is signed.
    pub outx: u8,
    /// The address of its block after the step.
    pub block: u16,
    /// It came to the end of a block that has its end bit.
    pub ended: bool,
    /// It was keyed.
    pub keyed: bool,
}

/// The answer of a voice that has not been heard.
pub const UNHEARD: VoiceOut = VoiceOut {
    out: 0,
    level: 0,
    envx: 0,
    outx: 0,
    block: 0,
    ended: false,
    keyed: false,
};

/// Whether a voice is modulated by the one before it, by its bit of PMON.
pub fn is_modulated(pmon: u8, voice: u8) -> bool
    requires { voice < 8 }
    ensures { result ≡ is_modulated pmon voice }
{
    voice > 0 && has_bit(pmon, voice)
}

/// Whether the soft reset or the header of a block that ends without a loop silences a voice.
pub fn is_silencing(reset: bool, header: u8) -> bool
    ensures { result ≡ is_silencing reset header }
{
    reset || has_end(header) && !has_loop(header)
}

/// Whether a voice is keyed in a step.
pub fn is_keyed(input: &VoiceIn) -> bool
    ensures { result ≡ is_keyed input.now }
{
    input.poll && input.kon
}

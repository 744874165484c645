//! Samples at a level, and the pitch of a voice, modulated by samples of the voice before.

ghost use Rattle.std.specs.Prelude.{◌≡◌, ◌<◌, ◌≤◌, pos, unsigned_abs, ◌+ℤ◌};
ghost use Rattle.num_fix.specs.Arithmetic.{scaled, floor_shift, high_byte};
ghost use Rattle.voice_unit.specs.Voice.{pitch_of};

use crate::interface::{VoiceIn, VoiceRegs};
use num_fix::scaled;

/// A sample at a level, at most 7FFh: that many 2048ths of it.
pub fn at_level(sample: i16, level: u16) -> i16
    requires { level ≤ 0x7ff }
    ensures { result ≡ scaled sample (pos level) 11 }
{
    scaled(sample, level as i16, 11) as i16
}

/// A pitch modulated by the output of the voice before: by none of it at 0, to 0 at the least output,
/// and nearly to its double at the greatest.
#[tactic(auto, unfolding(num_fix::specs::Arithmetic::floor_shift))]
pub fn modulated_pitch(pitch: u16, previous: i16) -> u16
    requires { pitch < 0x4000 }
    ensures value { result ≡ unsigned_abs (pos pitch +ℤ scaled (floor_shift previous 5) (pos pitch) 10) }
    ensures bound { result < 0x8000 }
{
    let bend = scaled(previous >> 5, pitch as i16, 10);
    (i32::from(pitch) + bend) as u16
}

/// The pitch of a voice.
#[tactic(auto, unfolding(crate::specs::Voice::pitch_of))]
pub(crate) fn pitch_of(regs: &VoiceRegs, input: &VoiceIn) -> u16
    requires { regs.now.pitch < 0x4000 }
    ensures value { result ≡ pitch_of regs.now input.now }
    ensures bound { result < 0x8000 }
{
    if input.modulated {
        modulated_pitch(regs.pitch, input.previous)
    } else {
        regs.pitch
    }
}

/// The high byte of an output.
#[tactic(auto, unfolding(num_fix::specs::Arithmetic::high_byte, num_fix::specs::Arithmetic::floor_shift))]
pub fn high_byte(out: i16) -> u8
    ensures { result ≡ high_byte out }
{
    (out >> 8).rem_euclid(0x100) as u8
}

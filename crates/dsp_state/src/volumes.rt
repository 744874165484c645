//! The volumes of the voices.

ghost use Rattle.std.specs.Prelude.{◌≡◌, ◌<◌};
ghost use Rattle.dsp_state.specs.Volumes.{voice_volumes, heard_volumes, all_volumes};

use crate::registers::{EON, Registers, VOLL, VOLR, voice_register};
use num_fix::{has_bit, sign8};

/// The volumes of a voice, each -128 to 127, in 128ths.
#[derive(Clone, Copy)]
pub struct Volumes {
    /// The left volume, VOLL; a negative one turns the wave over.
    pub left: i16,
    /// The right volume, VOLR, likewise.
    pub right: i16,
    /// The left volume where the voice is sent to the echo, and 0 elsewhere.
    pub sent_left: i16,
    /// The right volume where the voice is sent to the echo, and 0 elsewhere.
    pub sent_right: i16,
}

/// The volumes of voice `v`.
#[tactic(auto, unfolding(crate::specs::Volumes::voice_volumes))]
fn voice_volumes(registers: &Registers, v: u8) -> Volumes
    requires { v < 8 }
    ensures { result ≡ voice_volumes registers.now v }
{
    let left = sign8(voice_register(registers, v, VOLL)) as i16;
    let right = sign8(voice_register(registers, v, VOLR)) as i16;
    let is_sent = has_bit(registers[EON], v);
    Volumes {
        left,
        right,
        sent_left: if is_sent { left } else { 0 },
        sent_right: if is_sent { right } else { 0 },
    }
}

/// The volumes at which a voice is not heard.
const NO_VOLUMES: Volumes = Volumes {
    left: 0,
    right: 0,
    sent_left: 0,
    sent_right: 0,
};

/// The volumes at which voice `v` is heard: its own, unless it is muted.
#[tactic(auto, unfolding(crate::specs::Volumes::heard_volumes))]
fn heard_volumes(registers: &Registers, muted: u8, v: u8) -> Volumes
    requires { v < 8 }
    ensures { result ≡ heard_volumes registers.now muted v }
{
    if has_bit(muted, v) {
        NO_VOLUMES
    } else {
        voice_volumes(registers, v)
    }
}

/// The volumes at which all voices are heard.
#[tactic(auto, unfolding(crate::specs::Volumes::all_volumes))]
pub fn all_volumes(r: &Registers, muted: u8) -> [Volumes; 8]
    ensures { result ≡ all_volumes r.now muted }
{
    [
        heard_volumes(r, muted, 0),
        heard_volumes(r, muted, 1),
        heard_volumes(r, muted, 2),
        heard_volumes(r, muted, 3),
        heard_volumes(r, muted, 4),
        heard_volumes(r, muted, 5),
        heard_volumes(r, muted, 6),
        heard_volumes(r, muted, 7),
    ]
}

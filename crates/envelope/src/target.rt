//! What a step aims at: the new value of the level, and the rate. The level is set to the value in samples in which the rate fires.

ghost use Rattle.std.specs.Prelude.{◌≡◌, ◌<◌, ◌≤◌, IfSome};
ghost use Rattle.envelope.specs.Envelope.{exponential_fall, attack_target, decay_target, sustain_target, slope_value, gain_target, step_target, sustain_level};

use crate::Mode;

/// The new value of a step, and its rate, 0 to 31.
#[derive(Clone, Copy)]
pub struct Target {
    pub value: i32,
    pub rate: u8,
}

/// GAIN rules where bit 7 of ADSR1 is clear.
const ADSR: u8 = 0x80;

/// The level less 1 and a 256th of the rest.
#[tactic(auto, unfolding(crate::specs::Envelope::exponential_fall, num_fix::specs::Arithmetic::floor_shift))]
fn exponential_fall(level: u16) -> i32
    requires { level ≤ 0x7ff }
    ensures { result ≡ exponential_fall level }
{
    let less = i32::from(level) - 1;
    less - (less >> 8)
}

/// The rise of attack.
#[tactic(auto, unfolding(crate::specs::Envelope::attack_target))]
fn attack_target(level: u16, adsr1: u8) -> Target
    requires { level ≤ 0x7ff }
    ensures value { result ≡ attack_target level adsr1 }
    ensures bound { result.rate < 32 }
{
    let rate = 2 * (adsr1 % 16) + 1;
    let rise = if rate == 31 { 0x400 } else { 0x20 };
    Target {
        value: i32::from(level) + rise,
        rate,
    }
}

/// The fall of decay.
#[tactic(auto, unfolding(crate::specs::Envelope::decay_target))]
fn decay_target(level: u16, adsr1: u8) -> Target
    requires { level ≤ 0x7ff }
    ensures value { result ≡ decay_target level adsr1 }
    ensures bound { result.rate < 32 }
{
    Target {
        value: exponential_fall(level),
        rate: 2 * (adsr1 / 16 % 8) + 0x10,
    }
}

/// The fall of sustain.
#[tactic(auto, unfolding(crate::specs::Envelope::sustain_target))]
fn sustain_target(level: u16, adsr2: u8) -> Target
    requires { level ≤ 0x7ff }
    ensures value { result ≡ sustain_target level adsr2 }
    ensures bound { result.rate < 32 }
{
    Target {
        value: exponential_fall(level),
        rate: adsr2 % 32,
    }
}

/// The slopes of GAIN: down, down by a 256th, up, and up with a bend at the hidden value 600h.
#[tactic(auto, unfolding(crate::specs::Envelope::slope_value))]
fn slope_value(kind: u8, level: u16, hidden: i32) -> i32
    requires { level ≤ 0x7ff }
    ensures { result ≡ slope_value kind level hidden }
{
    let from = i32::from(level);
    if kind == 0 {
        from - 0x20
    } else if kind == 1 {
        exponential_fall(level)
    } else if kind == 2 || hidden < 0x600 {
        from + 0x20
    } else {
        from + 8
    }
}

/// GAIN below 80h is a value of its own, else one of the slopes.
#[tactic(auto, unfolding(crate::specs::Envelope::gain_target))]
fn gain_target(gain: u8, level: u16, hidden: i32) -> Target
    requires { level ≤ 0x7ff }
    ensures value { result ≡ gain_target gain level hidden }
    ensures bound { result.rate < 32 }
{
    if gain < 0x80 {
        Target {
            value: i32::from(gain) * 16,
            rate: 31,
        }
    } else {
        Target {
            value: slope_value(gain / 32 % 4, level, hidden),
            rate: gain % 32,
        }
    }
}

/// The new value and the rate of a step; in release there is none.
#[tactic(auto, unfolding(crate::specs::Envelope::step_target))]
pub fn step_target(
    mode: Mode,
    level: u16,
    hidden: i32,
    adsr1: u8,
    adsr2: u8,
    gain: u8,
) -> Option<Target>
    requires { level ≤ 0x7ff }
    ensures value { result ≡ step_target mode level hidden adsr1 adsr2 gain }
    ensures bound { IfSome result (λ target. target.rate < 32) }
{
    match mode {
        Mode::Release => None,
        _ if adsr1 < ADSR => Some(gain_target(gain, level, hidden)),
        Mode::Attack => Some(attack_target(level, adsr1)),
        Mode::Decay => Some(decay_target(level, adsr1)),
        Mode::Sustain => Some(sustain_target(level, adsr2)),
    }
}

/// Where decay ends: the top 3 bits of ADSR2, or of GAIN where it rules.
#[tactic(auto, unfolding(crate::specs::Envelope::sustain_level))]
pub fn sustain_level(adsr1: u8, adsr2: u8, gain: u8) -> u8
    ensures { result ≡ sustain_level adsr1 adsr2 gain }
{
    if adsr1 < ADSR { gain / 32 } else { adsr2 / 32 }
}

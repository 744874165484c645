//! The volume envelope of a voice: attack, decay, sustain and release, or a gain set by hand.
#![tactic(auto)]

mod samples_until_change;
mod target;

ghost use Rattle.std.specs.Prelude.{◌≡◌, ◌≤◌, pos};
ghost use Rattle.envelope.specs.declared.Mode.TheVariants.{Attack, Release};
ghost use Rattle.envelope.specs.Envelope.{envelope_step, next_mode, nearest_level};

use num_fix::sar;
use rate_clock::RateClock;
use std::marker::Model;
use target::{step_target, sustain_level};

/// What each step of a released envelope takes from its level, down to 0.
pub const RELEASE_FALL: u16 = 8;

/// What an envelope is doing.
#[derive(Clone, Copy, Debug, PartialEq, Eq)]
pub enum Mode {
    /// From a key on, until a new value is no level: below 0 or above 7FFh.
    Attack,
    /// From there, until the new value, in units of 100h, is the sustain level.
    Decay,
    /// From there, until the key off.
    Sustain,
    /// From a key off: the level falls by 8 in each step, to 0.
    Release,
}

/// The envelope of a voice (Anomie's S-DSP Doc, "Envelopes").
#[derive(Clone, Copy, Debug)]
pub struct Envelope {
    /// What it is doing: it says how the next step goes.
    pub mode: Mode,
    /// The level, at most 7FFh.
    pub level: u16,
    /// The last new value before it was clamped to a level, whether its rate fired or not.
    pub hidden: i32,
}

impl Model for Envelope {
    ghost use Rattle.std.specs.Prelude.{◌≤◌};
    ghost use Rattle.envelope.specs.Envelope.{EnvelopeState};

    ghost Value = { EnvelopeState };

    ghost view = { λ e. record { mode = e.mode; level = e.level; hidden = e.hidden } };

    ghost invariant = { λ e. e.level ≤ 0x7ff };

    ghost inverse = { λ s. record { mode = s.mode; level = s.level; hidden = s.hidden } };
}

/// The mode after a step with this new value, where decay ends at `sustain`.
#[tactic(auto, unfolding(crate::specs::Envelope::next_mode))]
fn next_mode(mode: Mode, value: i32, sustain: u8) -> Mode
    ensures { result ≡ next_mode mode value sustain }
{
    match mode {
        Mode::Attack => {
            if value < 0 || value > 0x7ff {
                Mode::Decay
            } else {
                Mode::Attack
            }
        }
        Mode::Decay => {
            if sar(value, 8) == i32::from(sustain) {
                Mode::Sustain
            } else {
                Mode::Decay
            }
        }
        Mode::Sustain => Mode::Sustain,
        Mode::Release => Mode::Release,
    }
}

/// The level nearest to a value.
fn nearest_level(value: i32) -> u16
    ensures value { result ≡ nearest_level value }
    ensures bound { result ≤ 0x7ff }
{
    value.clamp(0, 0x7ff) as u16
}

impl Envelope {
    /// A released envelope at level 0.
    pub fn released() -> Self
        ensures { result ≡ record { mode = Release; level = 0; hidden = pos 0 } }
    {
        Envelope {
            mode: Mode::Release,
            level: 0,
            hidden: 0,
        }
    }

    /// Begins the attack at a key on.
    pub fn key(&mut self)
        ensures { self.new ≡ record self.old { mode = Attack } }
    {
        self.mode = Mode::Attack;
    }

    /// Begins the release at a key off.
    pub fn release(&mut self)
        ensures { self.new ≡ record self.old { mode = Release } }
    {
        self.mode = Mode::Release;
    }

    /// Ends the sound at once.
    pub fn silence(&mut self)
        ensures { self.new ≡ record self.old { mode = Release; level = 0 } }
    {
        self.mode = Mode::Release;
        self.level = 0;
    }

    /// Keeps the level at 0 while a voice waits after its key on.
    pub fn reset_for_key_on(&mut self)
        ensures { self.new ≡ record self.old { level = 0; hidden = pos 0 } }
    {
        self.level = 0;
        self.hidden = 0;
    }

    /// The level, 0 to 7FFh.
    pub fn level(&self) -> u16
        ensures value { result ≡ self.now.level }
        ensures bound { result ≤ 0x7ff }
    {
        self.level
    }

    /// One step, by the registers ADSR1, ADSR2 and GAIN, at the clock's counter. The mode and the
    /// hidden value change in each step, and the level only where the rate fires; in release the
    /// level alone changes.
    #[tactic(auto, unfolding(crate::specs::Envelope::envelope_step, crate::specs::Envelope::after_target, crate::specs::Envelope::next_level))]
    pub fn step(&mut self, adsr1: u8, adsr2: u8, gain: u8, clock: &RateClock)
        ensures { self.new ≡ envelope_step self.old adsr1 adsr2 gain clock.now }
    {
        match step_target(self.mode, self.level, self.hidden, adsr1, adsr2, gain) {
            None => self.level = self.level.saturating_sub(RELEASE_FALL),
            Some(target) => {
                self.mode = next_mode(self.mode, target.value, sustain_level(adsr1, adsr2, gain));
                self.hidden = target.value;
                if clock.fires(target.rate) {
                    self.level = nearest_level(target.value);
                }
            }
        }
    }
}

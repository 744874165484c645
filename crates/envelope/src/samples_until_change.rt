//! How many samples an envelope stays as it is.

ghost use Rattle.std.specs.Prelude.{◌≡◌, ◌<◌, ◌+◌, ℕ, Some};
ghost use Rattle.rate_clock.specs.Counter.{counter_at};
ghost use Rattle.envelope.specs.Envelope.{step_target};
ghost use Rattle.envelope.specs.UntilChange.{StaysFor, ChangesAt, never_changes};

use crate::target::{Target, step_target, sustain_level};
use crate::{Envelope, nearest_level, next_mode};
use rate_clock::RateClock;

/// More samples than a batch has: the envelope never changes.
const NEVER: u16 = u16::MAX;

impl Envelope {
    /// How many samples the envelope stays as it is under this target of its steps, from the clock's on: until the rate fires,
    /// where a step changes neither mode nor hidden value, and `NEVER` where it has the target's level too.
    fn samples_until_change_on(
        &self,
        target: &Target,
        adsr1: u8,
        adsr2: u8,
        gain: u8,
        clock: &RateClock,
    ) -> u16
        requires target { step_target self.now.mode self.now.level self.now.hidden adsr1 adsr2 gain ≡ Some target.now }
        requires rate { target.now.rate < 32 }
        ensures unchanged { (k : ℕ) → clock.now ≡ counter_at k → StaysFor self.now adsr1 adsr2 gain k result }
        ensures then_changes { (k : ℕ) → clock.now ≡ counter_at k → result < never_changes → ChangesAt self.now adsr1 adsr2 gain (k + result) }
    {
        let mode = next_mode(self.mode, target.value, sustain_level(adsr1, adsr2, gain));
        if mode != self.mode {
            return 0;
        }
        if target.value != self.hidden {
            return 0;
        }
        if target.rate == 0 {
            return NEVER;
        }
        if nearest_level(target.value) == self.level {
            return NEVER;
        }
        clock.until_fires(target.rate)
    }

    /// How many samples the envelope stays as it is, from the clock's on: the step after them changes it, unless it never changes.
    pub fn samples_until_change(&self, adsr1: u8, adsr2: u8, gain: u8, clock: &RateClock) -> u16
        ensures unchanged { (k : ℕ) → clock.now ≡ counter_at k → StaysFor self.now adsr1 adsr2 gain k result }
        ensures then_changes { (k : ℕ) → clock.now ≡ counter_at k → result < never_changes → ChangesAt self.now adsr1 adsr2 gain (k + result) }
    {
        match step_target(self.mode, self.level, self.hidden, adsr1, adsr2, gain) {
            None if self.level == 0 => NEVER,
            None => 0,
            Some(target) => self.samples_until_change_on(&target, adsr1, adsr2, gain, clock),
        }
    }
}

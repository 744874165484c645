//! The noise generator.

ghost use Rattle.std.specs.Prelude.{◌≡◌, ℕ, ◌+◌, ◌<◌, if◌then◌else◌};
ghost use Rattle.rate_clock.specs.Noise.{next_noise, noise_at};

use std::marker::Model;

/// The noise generator, a 15-bit number (Anomie's S-DSP Doc, "Noise").
#[derive(Clone, Copy, Debug)]
pub struct Noise {
    value: u16,
}

impl Model for Noise {
    ghost use Rattle.std.specs.Prelude.{ℕ, ◌<◌};

    ghost Value = { ℕ };

    ghost view = { λ n. n.value };

    ghost invariant = { λ n. n.value < 0x8000 };

    ghost inverse = { λ n. record { value = n } };
}

/// The number after `n`: shifted right, with the exclusive or of its two lowest bits as the new top bit.
#[tactic(auto, unfolding(crate::specs::Noise::next_noise))]
fn next_noise(n: u16) -> u16
    requires { n < 0x8000 }
    ensures value { result ≡ next_noise n }
    ensures bound { result < 0x8000 }
{
    (n >> 1) | (((n ^ (n >> 1)) & 1) << 14)
}

impl Noise {
    /// The noise before the first sample.
    pub fn new() -> Self
        ensures { result ≡ noise_at 0 }
    {
        Noise { value: 0x4000 }
    }

    /// Goes on to the next number of the list, where the noise's rate fired.
    pub fn step(&mut self, fired: bool)
        ensures next { self.new ≡ (if fired then next_noise self.old else self.old) }
        ensures listed { (k : ℕ) → self.old ≡ noise_at k → self.new ≡ noise_at (if fired then k + 1 else k) }
    {
        if fired {
            self.value = next_noise(self.value);
        }
    }

    /// The noise of this sample, 0 to 7FFFh.
    pub fn value(&self) -> u16
        ensures value { result ≡ self.now }
        ensures bound { result < 0x8000 }
    {
        self.value
    }
}

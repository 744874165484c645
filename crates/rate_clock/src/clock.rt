//! The counter that all rates look at.

ghost use Rattle.std.specs.Prelude.{◌≡◌, ℕ, ◌+◌, ◌-◌, ◌%◌, ◌==◌, ◌<◌, ◌≤◌, true, if◌then◌else◌};
ghost use Rattle.rate_clock.specs.Counter.{counter_range, counter_at, counter_after, fires, until_fires, IsQuiet};
ghost use Rattle.rate_clock.specs.Inside.{rest_at};

use std::marker::Model;

/// After so many samples the counter wraps around.
const COUNTER_RANGE: u16 = 30720;

/// The offset of the rates whose period is three times a power of 2.
const THIRDS: u16 = 1040;

/// The offset of the rates whose period is five times a power of 2. All other periods are powers of 2.
const FIFTHS: u16 = 536;

/// The offset of each rate, which is added to the counter.
const OFFSETS: [u16; 32] = [
    0, 0, 1040, 536, 0, 1040, 536, 0, 1040, 536, 0, 1040, 536, 0, 1040, 536, 0, 1040, 536, 0, 1040,
    536, 0, 1040, 536, 0, 1040, 536, 0, 1040, 0, 0,
];

/// The period of each rate in samples; rate 0 has none.
const PERIODS: [u16; 32] = [
    0, 2048, 1536, 1280, 1024, 768, 640, 512, 384, 320, 256, 192, 160, 128, 96, 80, 64, 48, 40, 32,
    24, 20, 16, 12, 10, 8, 6, 5, 4, 3, 2, 1,
];

/// The power of 2 in the period of each rate, less 1.
const LOW_BITS: [u16; 32] = [
    0, 2047, 511, 255, 1023, 255, 127, 511, 127, 63, 255, 63, 31, 127, 31, 15, 63, 15, 7, 31, 7, 3,
    15, 3, 1, 7, 1, 0, 3, 0, 1, 0,
];

/// The counter, which falls by 1 at each sample: 0 before the first sample, and 30,719 in it.
/// All 31 rates of envelopes and noise are read off this one counter (Anomie's S-DSP Doc, "Counter").
#[derive(Clone, Copy, Debug)]
pub struct RateClock {
    counter: u16,
    /// The counter with its offset, modulo 3.
    thirds: u8,
    /// The counter with its offset, modulo 5.
    fifths: u8,
}

impl Model for RateClock {
    ghost use Rattle.std.specs.Prelude.{ℕ};

    ghost Value = { ℕ };

    ghost use Rattle.rate_clock.specs.Inside.{IsClock, inside_of, inside_of-counter};

    ghost view = { λ c. c.counter };

    ghost invariant = { IsClock };

    ghost inverse = { inside_of };

    ghost inverse_ok = { inside_of-counter };
}

/// The number before `n`, from 0 on to the last below `modulus`.
fn number_before(n: u16, modulus: u16) -> u16
    requires { n < modulus }
    ensures value { result ≡ (n + modulus - 1) % modulus }
    ensures bound { result < modulus }
{
    if n == 0 { modulus - 1 } else { n - 1 }
}

/// The samples from one firing of a rate, 0 to 31, to its next.
pub fn samples_between_firings(rate: u8) -> u16
    requires { rate < 32 }
    ensures some { 0 < rate → 1 ≤ result }
    ensures quiet { (k : ℕ) → fires rate (counter_at k) ≡ true → IsQuiet rate (k + 1) (result - 1) }
    ensures then_fires { (k : ℕ) → fires rate (counter_at k) ≡ true → fires rate (counter_at (k + result)) ≡ true }
{
    PERIODS[usize::from(rate)]
}

impl RateClock {
    /// The clock before the first sample.
    pub fn new() -> Self
        ensures { result ≡ 0 }
    {
        RateClock {
            counter: 0,
            thirds: 2,
            fifths: 1,
        }
    }

    /// Goes on to the next sample.
    pub fn step(&mut self)
        ensures falls { self.new ≡ (if self.old == 0 then counter_range - 1 else self.old - 1) }
        ensures counts { (n : ℕ) → self.old ≡ counter_after n → self.new ≡ counter_after (n + 1) }
    {
        self.counter = number_before(self.counter, COUNTER_RANGE);
        self.thirds = number_before(u16::from(self.thirds), 3) as u8;
        self.fifths = number_before(u16::from(self.fifths), 5) as u8;
    }

    /// The clock so many samples later.
    pub fn after_samples(&self, samples: u8) -> RateClock
        ensures at { (k : ℕ) → self.now ≡ counter_at k → result ≡ counter_at (k + samples) }
        ensures after { (n : ℕ) → self.now ≡ counter_after n → result ≡ counter_after (n + samples) }
    {
        let elapsed = u16::from(samples);
        let counter = if self.counter < elapsed {
            self.counter + COUNTER_RANGE - elapsed
        } else {
            self.counter - elapsed
        };
        RateClock {
            counter,
            thirds: ((counter + THIRDS) % 3) as u8,
            fifths: ((counter + FIFTHS) % 5) as u8,
        }
    }

    /// The counter with its offset, modulo the odd part of the rate's period: 0 where the odd part divides it.
    fn rest(&self, offset: u16) -> u8
        ensures { result ≡ rest_at self.now offset }
    {
        if offset == THIRDS {
            self.thirds
        } else if offset == FIFTHS {
            self.fifths
        } else {
            0
        }
    }

    /// Whether a rate, 0 to 31, fires at this sample. A period is a power of 2, or three or five times
    /// one, so low bits and a rest show, and nothing is divided.
    pub fn fires(&self, rate: u8) -> bool
        requires { rate < 32 }
        ensures { result ≡ fires rate self.now }
    {
        if rate == 0 {
            return false;
        }
        let place = usize::from(rate);
        let offset = OFFSETS[place];
        let low = (self.counter + offset) & LOW_BITS[place];
        let rest = self.rest(offset);
        low == 0 && rest == 0
    }

    /// How many samples pass before a rate, 1 to 31, fires, this one the first of them; 0 where it fires at this one.
    pub fn until_fires(&self, rate: u8) -> u16
        requires positive { 0 < rate }
        requires within { rate < 32 }
        ensures count { result ≡ until_fires rate self.now }
        ensures quiet { (k : ℕ) → self.now ≡ counter_at k → IsQuiet rate k result }
        ensures then_fires { (k : ℕ) → self.now ≡ counter_at k → fires rate (counter_at (k + result)) ≡ true }
    {
        let place = usize::from(rate);
        (self.counter + OFFSETS[place]) % PERIODS[place]
    }
}

//! What all voices read in a batch.

ghost use Rattle.std.specs.Prelude.{◌≡◌, replicate};
ghost use Rattle.voice_unit.specs.KeyBits.{HasBitsOf};

use num_fix::BATCH_SIZE;

/// What all voices read in each sample of a batch beside the registers.
#[derive(Clone, Copy)]
pub struct BatchRows {
    /// The noise, at most 7FFFh.
    pub noise: [u16; BATCH_SIZE],
    /// The keys are looked at, as in every second sample.
    pub poll: [bool; BATCH_SIZE],
    /// The key-ons that the last poll latched: bit v is voice v.
    pub kon: [u8; BATCH_SIZE],
    /// The voices whose key-on is latched in any sample.
    pub any: u8,
    ghost has_bits: { HasBitsOf kon any },
}

/// The bits of all bytes of a row.
fn all_bits(kon: &[u8; BATCH_SIZE]) -> u8
    ensures { HasBitsOf kon.now result }
{
    let mut all = 0;
    for j in 0..BATCH_SIZE {
        all = all | kon[j];
    }
    all
}

impl BatchRows {
    /// The rows of a batch.
    pub fn new(
        noise: [u16; BATCH_SIZE],
        poll: [bool; BATCH_SIZE],
        kon: [u8; BATCH_SIZE],
    ) -> BatchRows
        ensures noise { result.noise ≡ noise }
        ensures poll { result.poll ≡ poll }
        ensures kon { result.kon ≡ kon }
    {
        BatchRows {
            noise,
            poll,
            kon,
            any: all_bits(&kon),
        }
    }

    /// The rows of a batch in which no key-on is latched.
    pub fn unkeyed(noise: [u16; BATCH_SIZE], poll: [bool; BATCH_SIZE]) -> BatchRows
        ensures noise { result.noise ≡ noise }
        ensures poll { result.poll ≡ poll }
        ensures kon { result.kon ≡ replicate BATCH_SIZE 0 }
    {
        BatchRows {
            noise,
            poll,
            kon: [0; BATCH_SIZE],
            any: 0,
        }
    }
}

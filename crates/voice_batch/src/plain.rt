//! The samples of a batch in which a voice plays plainly: no key on of it is latched.

ghost use Rattle.std.specs.Prelude.{◌≡◌, ◌<◌, ◌≤◌, ℕ, false, slice_index};
ghost use Rattle.num_fix.specs.Arithmetic.{has_bit};
ghost use Rattle.voice_batch.specs.Plain.{IsPlain, IsKnownPlain};

use num_fix::{BATCH_SIZE, has_bit};
use voice_unit::{BatchRows, VoiceView};

/// The sample after the last one of a batch.
const END: u8 = BATCH_SIZE as u8;

/// Samples of a batch that are known to be plain: those before one sample, and those from another one on.
#[derive(Clone, Copy)]
pub(crate) struct PlainSamples {
    pub before: u8,
    pub from: u8,
}

/// Whether a key on of a voice is latched in any sample of a batch.
fn is_ever_latched(rows: &BatchRows, voice: u8) -> bool
    requires { voice < 8 }
    ensures { result ≡ false → (j : ℕ) → j < BATCH_SIZE → has_bit (slice_index rows.now.kon j) voice ≡ false }
{
    has_bit(rows.any, voice)
}

/// The first sample of a batch in which a key on of a voice is latched; 64 if there is none.
// Out of line, as most voices have no key on in a batch.
#[inline(never)]
fn first_latched(kon: &[u8; BATCH_SIZE], voice: u8) -> u8
    requires { voice < 8 }
    ensures { (j : ℕ) → j < result → has_bit (slice_index kon.now j) voice ≡ false }
{
    for j in 0..END {
        if has_bit(kon[usize::from(j)], voice) {
            return j;
        }
    }
    END
}

/// The sample after the last one in which a key on of a voice is latched; 0 if there is none.
// Out of line, as the first.
#[inline(never)]
fn after_latched(kon: &[u8; BATCH_SIZE], voice: u8) -> u8
    requires { voice < 8 }
    ensures { (j : ℕ) → result ≤ j → j < BATCH_SIZE → has_bit (slice_index kon.now j) voice ≡ false }
{
    let mut from = 0;
    for j in 0..END {
        if has_bit(kon[usize::from(j)], voice) {
            from = j + 1;
        }
    }
    from
}

impl PlainSamples {
    /// Up to which sample, `n` at most, all samples from sample `j` on are plain.
    pub(crate) fn end_from(&self, j: u8, n: u8) -> u8
        requires { j ≤ n }
        ensures from { j ≤ result }
        ensures to { result ≤ n }
        ensures plain { (i : ℕ) → j ≤ i → i < result → IsKnownPlain self.now i }
    {
        if self.from <= j {
            n
        } else if j < self.before {
            self.before.min(n)
        } else {
            j
        }
    }
}

/// The samples in which a voice plays plainly: those before and after its key on.
pub(crate) fn plain_samples(seen: &VoiceView, rows: &BatchRows) -> PlainSamples
    requires { seen.now.voice < 8 }
    ensures { (j : ℕ) → j < BATCH_SIZE → IsKnownPlain result j → IsPlain seen.now rows.now j }
{
    if !is_ever_latched(rows, seen.voice) {
        return PlainSamples {
            before: END,
            from: END,
        };
    }
    PlainSamples {
        before: first_latched(&rows.kon, seen.voice),
        from: after_latched(&rows.kon, seen.voice),
    }
}

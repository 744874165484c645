//! The levels of the samples of a span, as a row.

ghost use Rattle.std.specs.Prelude.{◌≡◌, ◌<◌, ◌≤◌, ◌+◌, ◌-◌, ◌*◌, ℕ, slice_index};
ghost use Rattle.rate_clock.specs.Counter.{counter_at};
ghost use Rattle.envelope.specs.declared.Mode.TheVariants.{Release};
ghost use Rattle.voice_batch.specs.Levels.{envelope_from, level_in};

use envelope::{Envelope, Mode, RELEASE_FALL};
use num_fix::BATCH_SIZE;
use rate_clock::RateClock;
use voice_unit::VoiceReads;

/// How many levels there are, 0 to 7FFh: at this one a sample would be whole.
pub(crate) const LEVELS: u16 = 0x800;

/// The clock in sample `at` of a batch. Most spans begin with its first one.
pub(crate) fn clock_in(reads: &VoiceReads, at: u8) -> RateClock
    ensures { (k : ℕ) → reads.now.clock ≡ counter_at k → result ≡ counter_at (k + at) }
{
    if at == 0 {
        return reads.clock;
    }
    reads.clock.after_samples(at)
}

/// Puts a level for n samples, from sample `at` on.
fn put_level(levels: &mut [u16; BATCH_SIZE], at: u8, n: u8, level: u16)
    requires { at + n ≤ BATCH_SIZE }
    ensures here { (j : ℕ) → j < n → slice_index levels.new (at + j) ≡ level }
    ensures before { (i : ℕ) → i < at → slice_index levels.new i ≡ slice_index levels.old i }
{
    let from = usize::from(at);
    for j in 0..usize::from(n) {
        levels[from + j] = level;
    }
}

/// Puts falling levels for n samples, from sample `at` on, down to 0.
fn put_falling(levels: &mut [u16; BATCH_SIZE], at: u8, n: u8, level: u16)
    requires { at + n ≤ BATCH_SIZE }
    ensures { (j : ℕ) → j < n → slice_index levels.new (at + j) ≡ level - RELEASE_FALL * j }
{
    let from = usize::from(at);
    let mut fall = 0;
    for j in 0..usize::from(n) {
        levels[from + j] = level.saturating_sub(fall);
        fall += RELEASE_FALL;
    }
}

/// Puts the levels of a released envelope for n samples, from sample `at` on, and steps it over them.
fn put_released(levels: &mut [u16; BATCH_SIZE], at: u8, n: u8, envelope: &mut Envelope)
    requires few { at + n ≤ BATCH_SIZE }
    requires released { envelope.old.mode ≡ Release }
    ensures levels { (j : ℕ) → j < n → slice_index levels.new (at + j) ≡ envelope.old.level - RELEASE_FALL * j }
    ensures within { (j : ℕ) → j < n → slice_index levels.new (at + j) < LEVELS }
    ensures envelope { envelope.new ≡ record envelope.old { level = envelope.old.level - RELEASE_FALL * n } }
{
    let level = envelope.level();
    put_falling(levels, at, n, level);
    envelope.level = level.saturating_sub(RELEASE_FALL * u16::from(n));
}

/// Puts the level of an envelope for the samples from sample `at` on in which it stays, n at most, and steps it over them: the step in the last of them may
/// change it. The answer is how many they are.
fn put_steady(
    levels: &mut [u16; BATCH_SIZE],
    at: u8,
    n: u8,
    envelope: &mut Envelope,
    reads: &VoiceReads,
) -> u8
    requires some { 0 < n }
    requires few { at + n ≤ BATCH_SIZE }
    ensures some { 0 < result }
    ensures few { result ≤ n }
    ensures level { (j : ℕ) → j < result → slice_index levels.new (at + j) ≡ envelope.old.level }
    ensures within { (j : ℕ) → j < result → slice_index levels.new (at + j) < LEVELS }
    ensures before { (i : ℕ) → i < at → slice_index levels.new i ≡ slice_index levels.old i }
    ensures stays { (k : ℕ) → reads.now.clock ≡ counter_at k → (j : ℕ) → j < result → envelope_from envelope.old reads.now.regs (k + at) j ≡ envelope.old }
    ensures envelope { (k : ℕ) → reads.now.clock ≡ counter_at k → envelope.new ≡ envelope_from envelope.old reads.now.regs (k + at) result }
{
    let regs = &reads.regs;
    let level = envelope.level();
    let clock = clock_in(reads, at);
    let samples_until_change = envelope.samples_until_change(
        regs.adsr1, regs.adsr2, regs.gain, &clock,
    );
    if u16::from(n) <= samples_until_change {
        put_level(levels, at, n, level);
        return n;
    }
    let last = samples_until_change as u8;
    put_level(levels, at, last + 1, level);
    let then = clock.after_samples(last);
    envelope.step(regs.adsr1, regs.adsr2, regs.gain, &then);
    last + 1
}

/// Puts the level at which each of n samples sounds, from sample `at` on, and steps an envelope over them. Out of line, as most spans have one level.
#[inline(never)]
pub(crate) fn put_levels(
    levels: &mut [u16; BATCH_SIZE],
    at: u8,
    n: u8,
    envelope: &mut Envelope,
    reads: &VoiceReads,
)
    requires { at + n ≤ BATCH_SIZE }
    ensures levels { (k : ℕ) → reads.now.clock ≡ counter_at k → (j : ℕ) → j < n
        → slice_index levels.new (at + j) ≡ level_in envelope.old reads.now.regs (k + at) j }
    ensures within { (j : ℕ) → j < n → slice_index levels.new (at + j) < LEVELS }
    ensures envelope { (k : ℕ) → reads.now.clock ≡ counter_at k → envelope.new ≡ envelope_from envelope.old reads.now.regs (k + at) n }
{
    if envelope.mode == Mode::Release {
        put_released(levels, at, n, envelope);
        return;
    }
    let mut j = 0;
    'levels: while j < n {
        j += put_steady(levels, at + j, n - j, envelope, reads);
    }
}

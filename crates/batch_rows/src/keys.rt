//! The keys and the noise, of a sample and of a batch.

ghost use Rattle.std.specs.Prelude.{◌≡◌, ◌≤◌, ◌+◌, ◌<◌, ℕ, suc, true, false, get_or, slice_index, replicate};
ghost use Rattle.rate_clock.specs.Counter.{counter_at, counter_after, fires};
ghost use Rattle.chip_form.specs.Limits.{max_samples_of_chip, max_samples_of_batch};
ghost use Rattle.dsp_state.specs.Registers.{noise_rate};
ghost use Rattle.dsp_state.specs.Sample.{is_polled, after_poll, after_noise};
ghost use Rattle.dsp_state.specs.declared.registers.TheConstants.{FLG};
ghost use Rattle.batch_rows.specs.KeyRows.{AreKeyRows};
ghost use Rattle.batch_rows.specs.KeysAndNoise.{noise_after, with_keys_of, IsUnkeyed};
ghost use Rattle.batch_rows.specs.Reads.{IsBatch};
ghost use Rattle.batch_rows.specs.Rows.{keys_after};

use crate::reads::BatchSamples;
use dsp_state::ChipState;
use num_fix::BATCH_SIZE;
use rate_clock::{Noise, RateClock, samples_between_firings};
use voice_unit::BatchRows;

/// Whether the sample of a number polls the keys, as each even one does.
pub fn is_polled(number: u32) -> bool
    ensures { result ≡ is_polled number }
{
    number % 2 == 0
}

/// Polls the keys at an even sample.
#[tactic(auto, unfolding(dsp_state::specs::Sample::after_poll))]
pub fn poll(state: &mut ChipState, number: u32)
    ensures state { state.new ≡ after_poll state.old number }
    ensures registers { state.new.registers ≡ state.old.registers }
    ensures muted { state.new.muted ≡ state.old.muted }
{
    if is_polled(number) {
        state.hidden.kon_pending &= 0xff - state.hidden.kon_latched;
        state.hidden.kon_latched = state.hidden.kon_pending;
    }
}

/// Lets the noise go on where its rate fires.
#[tactic(auto, unfolding(dsp_state::specs::Sample::after_noise))]
pub fn step_noise(state: &mut ChipState, rate: u8, clock: &RateClock)
    requires { rate ≡ noise_rate (slice_index state.old.registers FLG) }
    ensures state { state.new ≡ after_noise state.old clock.now }
    ensures registers { state.new.registers ≡ state.old.registers }
    ensures muted { state.new.muted ≡ state.old.muted }
{
    let fired = clock.fires(rate);
    state.hidden.noise.step(fired);
}

/// The first samples of a batch, of which two poll the keys: later ones change them no more.
const KEYED_SAMPLES: u8 = 4;

/// How many of n samples can change the keys: none where no key-on is pending or latched. A pending one is latched at a poll and dropped at the next.
fn keyed_samples(state: &ChipState, n: u8) -> u8
    ensures few { result ≤ n }
    ensures rest { (k : ℕ) → result < n → IsUnkeyed (keys_after k state.now result) }
{
    if state.hidden.kon_pending == 0 && state.hidden.kon_latched == 0 {
        0
    } else {
        n.min(KEYED_SAMPLES)
    }
}

/// Polls the keys in n samples from a number on, and returns the key-ons that are latched in each.
fn poll_each(state: &mut ChipState, number: u32, n: u8) -> [u8; BATCH_SIZE]
    requires few { n ≤ max_samples_of_batch }
    requires number { number + n ≤ max_samples_of_chip }
    ensures state { state.new ≡ with_keys_of state.old (keys_after number state.old n) }
    ensures kon_latched { (j : ℕ) → j < n → slice_index result j ≡ (keys_after number state.old (suc j)).hidden.kon_latched }
{
    let mut kon = [0; BATCH_SIZE];
    let keyed = keyed_samples(state, n);
    for j in 0..keyed {
        poll(state, number + u32::from(j));
        kon[usize::from(j)] = state.hidden.kon_latched;
    }
    kon
}

/// The first of n samples at which the noise's rate fires; n where it fires at none.
fn first_firing(n: u8, rate: u8, first: &RateClock) -> u8
    requires rate { rate < 32 }
    ensures within { result ≤ n }
    ensures some { result < n → 0 < rate }
    ensures quiet { (k j : ℕ) → first.now ≡ counter_at k → j < result → fires rate (counter_at (k + j)) ≡ false }
    ensures fires { (k : ℕ) → first.now ≡ counter_at k → result < n → fires rate (counter_at (k + result)) ≡ true }
{
    if rate == 0 {
        return n;
    }
    first.until_fires(rate).min(u16::from(n)) as u8
}

/// The next of n samples at which a rate fires, some samples after one at which it does; n where it fires no more.
fn next_firing(at: u8, n: u8, between: u16) -> u8
    requires at { at < n }
    requires between { 1 ≤ between }
    ensures after { at < result }
    ensures within { result ≤ n }
    ensures near { result ≤ at + between }
    ensures fires { result < n → result ≡ at + between }
{
    at + between.min(u16::from(n - at)) as u8
}

/// Steps the noise through n samples, from one firing of its rate to the next, and gives the noise of each.
fn step_noise_each(noise: &mut Noise, n: u8, rate: u8, first: &RateClock) -> [u16; BATCH_SIZE]
    requires few { n ≤ max_samples_of_batch }
    requires rate { rate < 32 }
    ensures noise { (k : ℕ) → first.now ≡ counter_at k → noise.new ≡ noise_after rate k noise.old n }
    ensures row { (k j : ℕ) → first.now ≡ counter_at k → j < n → slice_index result j ≡ noise_after rate k noise.old (suc j) }
    ensures bound { (j : ℕ) → j < n → slice_index result j < 0x8000 }
{
    let mut row = [noise.value(); BATCH_SIZE];
    let between = samples_between_firings(rate);
    let mut at = first_firing(n, rate, first);
    'firings: while at < n {
        let next = next_firing(at, n, between);
        noise.step(true);
        row[usize::from(at)..usize::from(next)].fill(noise.value());
        at = next;
    }
    row
}

/// Which samples poll the keys, from a number on.
fn polls_from(number: u32) -> [bool; BATCH_SIZE]
    ensures { (j : ℕ) → j < max_samples_of_batch → get_or result j false ≡ is_polled (number + j) }
{
    let odd = (number % 2) as u8;
    let mut polls = [false; BATCH_SIZE];
    for j in 0..BATCH_SIZE as u8 {
        polls[usize::from(j)] = j % 2 == odd;
    }
    polls
}

/// The rows of samples that leave the keys and the noise as they are, from a number on.
fn idle_rows(state: &ChipState, number: u32) -> BatchRows
    ensures noise { result.noise ≡ replicate BATCH_SIZE state.now.hidden.noise }
    ensures kon { result.kon ≡ replicate BATCH_SIZE 0 }
    ensures polls { (j : ℕ) → j < max_samples_of_batch → get_or result.poll j false ≡ is_polled (number + j) }
    ensures bound { state.now.hidden.noise < 0x8000 }
{
    BatchRows::unkeyed([state.hidden.noise.value(); BATCH_SIZE], polls_from(number))
}

/// The clock of the sample after those that were made.
pub(crate) fn next_clock(clock: &RateClock) -> RateClock
    ensures { (n : ℕ) → clock.now ≡ counter_after n → result ≡ counter_at n }
{
    clock.after_samples(1)
}

/// Steps the keys and the noise through the samples of a batch, and gives what its voices read as rows. The keys and the noise don't concern each
/// other, and go through the batch one after the other. Rows that neither changes are put at once.
pub fn step_keys(state: &mut ChipState, samples: &BatchSamples, rate: u8) -> BatchRows
    requires batch { IsBatch samples.now }
    requires rate { rate ≡ noise_rate (slice_index state.old.registers FLG) }
    ensures state { state.new ≡ keys_after samples.now.number state.old samples.now.n }
    ensures rows { AreKeyRows samples.now.number samples.now.n state.old result }
    ensures noise { (j : ℕ) → j < samples.now.n → slice_index result.noise j < 0x8000 }
    ensures kon_latched { (j : ℕ) → j < samples.now.n → slice_index result.kon j < 0x100 }
    ensures registers { state.new.registers ≡ state.old.registers }
{
    let number = samples.number;
    let n = samples.n;
    let first = &samples.clock;
    let keyed = keyed_samples(state, n);
    let firing = first_firing(n, rate, first);
    if keyed == 0 && firing == n {
        return idle_rows(state, number);
    }
    let kon = poll_each(state, number, n);
    let noise = step_noise_each(&mut state.hidden.noise, n, rate, first);
    BatchRows::new(noise, polls_from(number), kon)
}

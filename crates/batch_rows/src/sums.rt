//! The sums over the voices, as rows.

ghost use Rattle.std.specs.Prelude.{◌≡◌, ◌<◌, ℕ, ℤ, pos, ◌+ℤ◌, ◌*ℤ◌, neg_ℤ, ◌≤ℤ◌, ◌<ℤ◌, replicate, true, unsigned_abs};
ghost use Rattle.num_fix.specs.Arithmetic.{clamp16, scaled};
ghost use Rattle.num_fix.specs.SignedWords.{number_at};
ghost use Rattle.chip_form.specs.Limits.{max_samples_of_batch};
ghost use Rattle.batch_rows.specs.SumRows.{HasShares, IsSilentRow};

use dsp_state::{Volumes, with_share};
use echo_unit::SumRows;
use num_fix::{BATCH_SIZE, add_clamped, scaled};

/// The high word of a product.
fn high_product(out: i16, factor: i16) -> i16
    ensures { result ≡ scaled out factor 16 }
{
    scaled(out, factor, 16) as i16
}

/// A sum with the share of an output at a volume whose product with 512 is the factor: one multiplication of 16-bit numbers.
fn with_share_at_small_volume(sum: i16, out: i16, factor: i16) -> i16
    ensures { (volume : ℤ) → factor ≡ volume *ℤ pos 512 → result ≡ clamp16 (sum +ℤ scaled out volume 7) }
{
    add_clamped(sum, high_product(out, factor))
}

/// The factor of a volume, as a row, so that 16-bit numbers meet 16-bit numbers.
fn factors_of(volume: i16) -> [i16; BATCH_SIZE]
    requires least { neg_ℤ (pos 64) ≤ℤ volume }
    requires most { volume <ℤ pos 64 }
    ensures { (j : ℕ) → j < max_samples_of_batch → number_at result j ≡ volume *ℤ pos 512 }
{
    let factor = volume * 512;
    [factor; BATCH_SIZE]
}

/// Adds the shares of a voice at a volume from -64 to 63. Inlined, since only there the rows are known to lie apart.
#[inline(always)]
fn add_row_at_small_volume(sums: &mut [i16; BATCH_SIZE], outs: &[i16; BATCH_SIZE], volume: i16)
    requires least { neg_ℤ (pos 64) ≤ℤ volume }
    requires most { volume <ℤ pos 64 }
    ensures { HasShares outs.now volume sums.old sums.new }
{
    let factors = factors_of(volume);
    for j in 0..BATCH_SIZE {
        sums[j] = with_share_at_small_volume(sums[j], outs[j], factors[j]);
    }
}

/// A sum with the share of an output at a volume from 64 on: the output, less its share at what the volume lacks to 128, whose
/// product with -512 is the factor.
fn with_share_at_large_volume(sum: i16, out: i16, factor: i16) -> i16
    ensures { (less : ℤ) → factor ≡ less *ℤ pos 512 → unsigned_abs (less +ℤ pos 128) < 128
        → result ≡ clamp16 (sum +ℤ scaled out (less +ℤ pos 128) 7) }
{
    add_clamped(sum, add_clamped(out, high_product(out, factor)))
}

/// Adds the shares of a voice at a volume from 64 to 127. Inlined, as those of smaller volumes.
#[inline(always)]
fn add_row_at_large_volume(sums: &mut [i16; BATCH_SIZE], outs: &[i16; BATCH_SIZE], volume: i16)
    requires least { pos 64 ≤ℤ volume }
    requires most { volume <ℤ pos 128 }
    ensures { HasShares outs.now volume sums.old sums.new }
{
    let factors = factors_of(volume - 128);
    for j in 0..BATCH_SIZE {
        sums[j] = with_share_at_large_volume(sums[j], outs[j], factors[j]);
    }
}

/// Adds the shares of a voice at any volume, also below -64 and from 128 on, whose factor doesn't fit 16 bits. Out of line, since such
/// volumes are rare.
#[inline(never)]
fn add_row_at_any_volume(sums: &mut [i16; BATCH_SIZE], outs: &[i16; BATCH_SIZE], volume: i16)
    ensures { HasShares outs.now volume sums.old sums.new }
{
    for j in 0..BATCH_SIZE {
        sums[j] = with_share(sums[j], outs[j], volume);
    }
}

/// A number of 16 bits is within their limits. Nothing runs.
fn is_limited(sum: i16)
    ensures { clamp16 sum ≡ sum }
{}

/// The sums of a row are within the limits of 16 bits. Nothing runs.
fn are_limited(sums: &[i16; BATCH_SIZE])
    ensures { (j : ℕ) → j < max_samples_of_batch → clamp16 (number_at sums.now j) ≡ number_at sums.now j }
{
    for j in 0..BATCH_SIZE {
        is_limited(sums[j]);
    }
}

/// Leaves the sums as they are, as shares at volume 0 do. Nothing runs.
fn add_row_at_volume_0(sums: &[i16; BATCH_SIZE], outs: &[i16; BATCH_SIZE])
    ensures { HasShares outs.now (pos 0) sums.now sums.now }
{
    are_limited(sums);
}

/// Leaves the sums as they are, as shares of a silent row do. Nothing runs.
fn leave_row(sums: &[i16; BATCH_SIZE], outs: &[i16; BATCH_SIZE], volume: i16)
    requires { IsSilentRow outs.now }
    ensures { HasShares outs.now volume sums.now sums.now }
{
    are_limited(sums);
}

/// Adds the shares of a voice at a volume. Inlined with them.
#[inline(always)]
fn add_row(sums: &mut [i16; BATCH_SIZE], outs: &[i16; BATCH_SIZE], volume: i16)
    ensures { HasShares outs.now volume sums.old sums.new }
{
    if volume == 0 {
        add_row_at_volume_0(sums, outs);
    } else if volume < -64 || 128 <= volume {
        add_row_at_any_volume(sums, outs, volume);
    } else if volume < 64 {
        add_row_at_small_volume(sums, outs, volume);
    } else {
        add_row_at_large_volume(sums, outs, volume);
    }
}

/// Begins with the sums over no voices.
pub(crate) fn clear_sums(sums: &mut SumRows)
    ensures { let zeros = replicate BATCH_SIZE (pos 0) in
        sums.new ≡ record { main_left = zeros; main_right = zeros; sent_left = zeros; sent_right = zeros } }
{
    *sums = SumRows {
        main_left: [0; BATCH_SIZE],
        main_right: [0; BATCH_SIZE],
        sent_left: [0; BATCH_SIZE],
        sent_right: [0; BATCH_SIZE],
    };
}

/// Whether each output of a row is 0.
fn is_silent_row(outs: &[i16; BATCH_SIZE]) -> bool
    ensures { result ≡ true → IsSilentRow outs.now }
{
    let mut silent = true;
    for j in 0..BATCH_SIZE {
        if outs[j] != 0 {
            silent = false;
        }
    }
    silent
}

/// Whether each output of a row is 0. Most rows of voices that sound are recognized by their first output.
fn is_silent(outs: &[i16; BATCH_SIZE]) -> bool
    ensures { result ≡ true → IsSilentRow outs.now }
{
    outs[0] == 0 && is_silent_row(outs)
}

/// Adds the shares of a voice. A silent one has none.
pub(crate) fn add_shares(sums: &mut SumRows, outs: &[i16; BATCH_SIZE], volumes: &Volumes)
    ensures main_left { HasShares outs.now volumes.now.left sums.old.main_left sums.new.main_left }
    ensures main_right { HasShares outs.now volumes.now.right sums.old.main_right sums.new.main_right }
    ensures sent_left { HasShares outs.now volumes.now.sent_left sums.old.sent_left sums.new.sent_left }
    ensures sent_right { HasShares outs.now volumes.now.sent_right sums.old.sent_right sums.new.sent_right }
{
    if is_silent(outs) {
        leave_row(&sums.main_left, outs, volumes.left);
        leave_row(&sums.main_right, outs, volumes.right);
        leave_row(&sums.sent_left, outs, volumes.sent_left);
        leave_row(&sums.sent_right, outs, volumes.sent_right);
        return;
    }
    add_row(&mut sums.main_left, outs, volumes.left);
    add_row(&mut sums.main_right, outs, volumes.right);
    add_row(&mut sums.sent_left, outs, volumes.sent_left);
    add_row(&mut sums.sent_right, outs, volumes.sent_right);
}

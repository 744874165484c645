//! ENDX over a batch.

ghost use Rattle.std.specs.Prelude.{◌≡◌, ◌≤◌, ◌<◌, ℕ, List, true, false, get_or, slice_index, if◌then◌else◌};
ghost use Rattle.voice_unit.specs.declared.interface.VoiceOut.{VoiceOut};
ghost use Rattle.chip_form.specs.Limits.{max_samples_of_batch};
ghost use Rattle.batch_rows.specs.Once.{endx_after, AreBits};

use dsp_state::next_endx;
use num_fix::BATCH_SIZE;
use voice_unit::BatchRows;

/// The voices that are keyed in sample `j`, as bits.
pub(crate) fn keyed_in(rows: &BatchRows, j: u8) -> u8
    requires { j < max_samples_of_batch }
    ensures { result ≡ (if get_or rows.now.poll j false then slice_index rows.now.kon j else 0) }
{
    let place = usize::from(j);
    if rows.poll[place] { rows.kon[place] } else { 0 }
}

/// Whether no key-on is latched in any sample of a batch.
fn are_none_latched(rows: &BatchRows) -> bool
    ensures { result ≡ true → (j : ℕ) → j < BATCH_SIZE → slice_index rows.now.kon j ≡ 0 }
{
    rows.any == 0
}

/// ENDX after n samples of a batch in which no voice is keyed: it gains the voices that ended.
fn gained_endx(endx: u8, n: u8, rows: &BatchRows, ends: &[u8; BATCH_SIZE]) -> u8
    requires few { n ≤ max_samples_of_batch }
    requires unkeyed { (j : ℕ) → j < BATCH_SIZE → slice_index rows.now.kon j ≡ 0 }
    ensures { (answers : ℕ → List VoiceOut) → AreBits n answers rows.now ends.now → result ≡ endx_after answers endx n }
{
    let mut now = endx;
    for j in 0..n {
        now = next_endx(now, ends[usize::from(j)], 0);
    }
    now
}

/// ENDX after n samples of a batch: in each it gains the voices that ended and then loses those that were keyed.
pub fn endx_of_batch(endx: u8, n: u8, rows: &BatchRows, ends: &[u8; BATCH_SIZE]) -> u8
    requires few { n ≤ max_samples_of_batch }
    ensures { (answers : ℕ → List VoiceOut) → AreBits n answers rows.now ends.now → result ≡ endx_after answers endx n }
{
    if are_none_latched(rows) {
        return gained_endx(endx, n, rows, ends);
    }
    let mut now = endx;
    for j in 0..n {
        now = next_endx(now, ends[usize::from(j)], keyed_in(rows, j));
    }
    now
}

//! The rows of a batch: what is heard, what goes back into the buffer, and the output.

ghost use Rattle.std.specs.Prelude.{◌≡◌, ◌<◌, ◌≤◌, ◌+◌, ℕ, ℤ, ◌+ℤ◌, false, get_or, length, map, take};
ghost use Rattle.num_fix.specs.Arithmetic.{scaled, sign8, wrap16};
ghost use Rattle.num_fix.specs.SignedWords.{number_at};
ghost use Rattle.echo_unit.specs.Echo.{silent_frame, at_volume, side_output, feedback_word, output_frame};
ghost use Rattle.echo_unit.specs.Fir.{taps, signed_sum, filtered_sample, eight_from};
ghost use Rattle.echo_unit.specs.EchoOverBatch.{pair_of, main_of};
ghost use Rattle.echo_unit.specs.Flg.{is_muted};

use crate::EchoRegs;
use crate::filter::{left_of, right_of};
use crate::flg::is_muted;
use crate::parts::{add_row, over_64, over_128};
use crate::volume::signed;
use num_fix::{BATCH_SIZE, Frame, add_clamped, clear_bit0};

/// The sums of each sample of a batch on both sides: of all voices, and of those that are sent to the echo.
#[derive(Clone, Copy)]
pub struct SumRows {
    pub main_left: [i16; BATCH_SIZE],
    pub main_right: [i16; BATCH_SIZE],
    pub sent_left: [i16; BATCH_SIZE],
    pub sent_right: [i16; BATCH_SIZE],
}

/// What is heard of the echo in each sample of a batch, on both sides.
#[derive(Clone, Copy)]
pub struct HeardRows {
    pub left: [i16; BATCH_SIZE],
    pub right: [i16; BATCH_SIZE],
}

/// The samples of a row of what is read of one side: the eight of the history, and those of a batch.
pub const READ_SIZE: usize = 8 + BATCH_SIZE;

/// The silent frame.
pub const SILENT_FRAME: Frame = Frame { left: 0, right: 0 };

/// Adds what a tap gives in each sample, over a row from a place on. Most filters have taps of 0, which cost nothing.
#[inline(always)]
fn add_tap(sums: &mut [i16; BATCH_SIZE], row: &[i16; READ_SIZE], place: usize, coefficient: u8)
    requires { place + BATCH_SIZE ≤ READ_SIZE }
    ensures { (j : ℕ) (sum : ℤ) → j < BATCH_SIZE → number_at sums.old j ≡ wrap16 sum
        → number_at sums.new j ≡ wrap16 (sum +ℤ scaled (number_at row.now (place + j)) (sign8 coefficient) 6) }
{
    let by = signed(coefficient);
    if by != 0 {
        add_row(sums, row, place, over_64(by));
    }
}

/// The sums of the first seven taps of the filter in each sample.
#[inline(always)]
fn row_of_taps(row: &[i16; READ_SIZE], coefficients: &[u8; 8]) -> [i16; BATCH_SIZE]
    ensures { (j : ℕ) → j < BATCH_SIZE
        → number_at result j ≡ wrap16 (signed_sum (take 7 (taps (eight_from row.now (j + 1)) coefficients.now))) }
{
    let mut sums = [0; BATCH_SIZE];
    for i in 0..7 {
        add_tap(&mut sums, row, i + 1, coefficients[i]);
    }
    sums
}

/// The last tap of the filter in each sample.
#[inline(always)]
fn row_of_last_tap(row: &[i16; READ_SIZE], coefficients: &[u8; 8]) -> [i16; BATCH_SIZE]
    ensures { (j : ℕ) → j < BATCH_SIZE → number_at result j ≡ wrap16 (number_at (taps (eight_from row.now (j + 1)) coefficients.now) 7) }
{
    let mut last = [0; BATCH_SIZE];
    add_tap(&mut last, row, 8, coefficients[7]);
    last
}

/// What the filter gives in each sample, over a row of eight samples of the history and those that were read.
pub fn filtered_row(row: &[i16; READ_SIZE], coefficients: &[u8; 8]) -> [i16; BATCH_SIZE]
    ensures { (j : ℕ) → j < BATCH_SIZE → number_at result j ≡ filtered_sample (eight_from row.now (j + 1)) coefficients.now }
{
    let sums = row_of_taps(row, coefficients);
    let last = row_of_last_tap(row, coefficients);
    let mut heard = [0; BATCH_SIZE];
    for j in 0..BATCH_SIZE {
        heard[j] = clear_bit0(add_clamped(sums[j], last[j]));
    }
    heard
}

/// A row of samples times a signed register, over 128.
#[inline(always)]
fn row_at_volume(row: &[i16; BATCH_SIZE], volume: u8) -> [i16; BATCH_SIZE]
    ensures { (j : ℕ) → j < BATCH_SIZE → number_at result j ≡ at_volume (number_at row.now j) volume }
{
    let mut heard = [0; BATCH_SIZE];
    add_row(&mut heard, row, 0, over_128(signed(volume)));
    heard
}

/// The words of one side that go back into the buffer.
pub fn feedback_row(
    sent: &[i16; BATCH_SIZE],
    heard: &[i16; BATCH_SIZE],
    efb: u8,
) -> [i16; BATCH_SIZE]
    ensures { (j : ℕ) → j < BATCH_SIZE → number_at result j ≡ feedback_word (number_at sent.now j) (number_at heard.now j) efb }
{
    let mut words = row_at_volume(heard, efb);
    for j in 0..BATCH_SIZE {
        words[j] = clear_bit0(add_clamped(sent[j], words[j]));
    }
    words
}

/// The frame of the entries of two rows at one place.
pub fn frame_at(left: &[i16], right: &[i16], place: usize) -> Frame
    requires left { place < length left.now }
    requires right { place < length right.now }
    ensures { result ≡ pair_of left.now right.now place }
{
    Frame {
        left: left[place],
        right: right[place],
    }
}

/// The output of one side: its main sums and its echo, each at its volume.
fn row_of_outputs(
    main: &[i16; BATCH_SIZE],
    main_volume: u8,
    echo: &[i16; BATCH_SIZE],
    echo_volume: u8,
) -> [i16; BATCH_SIZE]
    ensures { (j : ℕ) → j < BATCH_SIZE → number_at result j ≡ side_output (number_at main.now j) main_volume (number_at echo.now j) echo_volume }
{
    let mut outputs = row_at_volume(main, main_volume);
    let echoes = row_at_volume(echo, echo_volume);
    for j in 0..BATCH_SIZE {
        outputs[j] = add_clamped(outputs[j], echoes[j]);
    }
    outputs
}

/// The output frames where FLG doesn't mute them.
fn row_of_frames(regs: &EchoRegs, sums: &SumRows, heard: &HeardRows) -> [Frame; BATCH_SIZE]
    ensures { is_muted regs.now.flg ≡ false → (j : ℕ) → j < BATCH_SIZE → get_or result j silent_frame
        ≡ output_frame regs.now (main_of sums.now j) (pair_of heard.now.left heard.now.right j) }
{
    let left = row_of_outputs(&sums.main_left, regs.mvol_l, &heard.left, regs.evol_l);
    let right = row_of_outputs(&sums.main_right, regs.mvol_r, &heard.right, regs.evol_r);
    let mut frames = [SILENT_FRAME; BATCH_SIZE];
    for j in 0..BATCH_SIZE {
        frames[j] = frame_at(&left, &right, j);
    }
    frames
}

/// The output frames.
#[tactic(auto, unfolding(crate::specs::Echo::output_frame))]
pub fn output_row(regs: &EchoRegs, sums: &SumRows, heard: &HeardRows) -> [Frame; BATCH_SIZE]
    ensures { (j : ℕ) → j < BATCH_SIZE → get_or result j silent_frame
        ≡ output_frame regs.now (main_of sums.now j) (pair_of heard.now.left heard.now.right j) }
{
    if is_muted(regs.flg) {
        return [SILENT_FRAME; BATCH_SIZE];
    }
    row_of_frames(regs, sums, heard)
}

/// The last eight pairs of two rows of eight samples of the history and `n` that were read.
pub fn last_pairs(left: &[i16; READ_SIZE], right: &[i16; READ_SIZE], n: u8) -> [Frame; 8]
    requires { n ≤ BATCH_SIZE }
    ensures { (i : ℕ) → i < 8 → get_or result i silent_frame ≡ pair_of left.now right.now (n + i) }
{
    let first = usize::from(n);
    let mut history = [SILENT_FRAME; 8];
    for i in 0..8 {
        history[i] = frame_at(left, right, first + i);
    }
    history
}

/// Puts eight pairs into two rows.
pub fn put_history(history: &[Frame; 8], left: &mut [i16; READ_SIZE], right: &mut [i16; READ_SIZE])
    ensures left { take 8 left.new ≡ map (λ pair. pair.left) history.now }
    ensures right { take 8 right.new ≡ map (λ pair. pair.right) history.now }
{
    for i in 0..8 {
        left[i] = left_of(&history[i]);
        right[i] = right_of(&history[i]);
    }
}

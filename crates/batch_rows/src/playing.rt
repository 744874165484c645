//! The voices of a batch, each over all its samples before the next.

ghost use Rattle.std.specs.Prelude.{◌≡◌, ◌<◌, ◌≤◌, ◌+◌, ◌-◌, ◌^◌, ℕ, length, pos, replicate, slice_index, true};
ghost use Rattle.num_fix.specs.SignedWords.{number_at};
ghost use Rattle.chip_form.specs.Limits.{max_samples_of_batch};
ghost use Rattle.dsp_state.specs.declared.state.ChipState.{ChipState};
ghost use Rattle.voice_unit.specs.Voice.{is_modulated};
ghost use Rattle.batch_rows.specs.Reads.{AreReadsOf};
ghost use Rattle.batch_rows.specs.PlayedBatch.{IsPlayedBatch};
ghost use Rattle.batch_rows.specs.PlayedLane.{LaneMade, IsPlayedLane};
ghost use Rattle.batch_rows.specs.Rows.{inputs};

use crate::reads::BatchReads;
use crate::sent::{all_unsent, are_all_sent, send_main};
use crate::sums::{add_shares, clear_sums};
use dsp_state::Volumes;
use dsp_state::registers::PMON;
use echo_unit::SumRows;
use num_fix::BATCH_SIZE;
use voice_batch::{PlayedRows, Workspace, play};
use voice_unit::{UNHEARD, Voice, VoiceOut, is_modulated};

/// What the voices make of a batch.
#[derive(Clone, Copy)]
pub struct PlayedBatch {
    /// What each voice gives in the last sample.
    pub last: [VoiceOut; 8],
    /// The outputs of the voice that played last, and the voices that come to an end in each sample.
    pub rows: PlayedRows,
    /// The sums over the voices in each sample.
    pub sums: SumRows,
}

impl PlayedBatch {
    /// A place for what the voices make. No clause is wanted: each part is written before it is read.
    pub fn new() -> PlayedBatch {
        PlayedBatch {
            last: [UNHEARD; 8],
            rows: PlayedRows {
                outs: [0; BATCH_SIZE],
                ends: [0; BATCH_SIZE],
            },
            sums: SumRows {
                main_left: [0; BATCH_SIZE],
                main_right: [0; BATCH_SIZE],
                sent_left: [0; BATCH_SIZE],
                sent_right: [0; BATCH_SIZE],
            },
        }
    }
}

/// Plays voice `v` over a batch of n samples, over the row of outputs of the voice before it. The answer is that of the last sample.
pub fn play_voice(
    voice: &mut Voice,
    v: u8,
    n: u8,
    reads: &BatchReads,
    previous: &[i16; BATCH_SIZE],
    work: &mut Workspace,
    made: &mut PlayedRows,
) -> VoiceOut
    requires voice { v < 8 }
    requires some { 0 < n }
    requires few { n ≤ max_samples_of_batch }
    requires noise { (j : ℕ) → j < n → slice_index reads.now.rows.now.noise j < 0x8000 }
    requires lower { (j : ℕ) → j < max_samples_of_batch → slice_index made.old.ends j < 2 ^ v }
    ensures played { (k : ℕ) (s : ChipState) → AreReadsOf k n s reads.now
        → let lane : LaneMade = record { voice = voice.new; row = made.new.outs; ends = made.new.ends; last = result } in
        IsPlayedLane (inputs k s reads.now.memory.now) v n (number_at previous.now) voice.old made.old.ends lane }
    ensures lower { (j : ℕ) → j < max_samples_of_batch → slice_index made.new.ends j < 2 ^ (v + 1) }
{
    let own = reads.of_voice(v);
    play(voice, n, &own, previous, work, made)
}

/// Begins with no voice that has ended, and with silence before the first.
fn clear_rows(rows: &mut PlayedRows)
    ensures outs { rows.new.outs ≡ replicate BATCH_SIZE (pos 0) }
    ensures ends { rows.new.ends ≡ replicate BATCH_SIZE 0 }
{
    rows.outs = [0; BATCH_SIZE];
    rows.ends = [0; BATCH_SIZE];
}

/// Takes the outputs of voice `v`, where they change the pitch of the next: only there they are read.
fn take_previous(previous: &mut [i16; BATCH_SIZE], outs: &[i16; BATCH_SIZE], pmon: u8, v: u8)
    requires { v < 8 }
    ensures { v + 1 < 8 → is_modulated pmon (v + 1) ≡ true → previous.new ≡ outs.now }
{
    if v < 7 && is_modulated(pmon, v + 1) {
        *previous = *outs;
    }
}

/// Plays all voices over a batch of n samples, and adds each to the main sums and to what is sent.
fn play_each(
    voices: &mut [Voice; 8],
    n: u8,
    reads: &BatchReads,
    volumes: &[Volumes; 8],
    work: &mut Workspace,
    made: &mut PlayedBatch,
)
    requires some { 0 < n }
    requires few { n ≤ max_samples_of_batch }
    requires noise { (j : ℕ) → j < n → slice_index reads.now.rows.now.noise j < 0x8000 }
    ensures played { (k : ℕ) (s : ChipState) → AreReadsOf k n s reads.now
        → let shared = inputs k s reads.now.memory.now in
        IsPlayedBatch shared n volumes.now voices.old voices.new made.new.last made.new.rows.ends made.new.sums }
    ensures eight { length voices.old ≡ 8 }
{
    clear_rows(&mut made.rows);
    clear_sums(&mut made.sums);
    let mut previous = [0; BATCH_SIZE];
    for v in 0..8u8 {
        let place = usize::from(v);
        let answer = play_voice(
            &mut voices[place],
            v,
            n,
            reads,
            &previous,
            work,
            &mut made.rows,
        );
        let own = volumes[place];
        add_shares(&mut made.sums, &made.rows.outs, &own);
        made.last[place] = answer;
        take_previous(&mut previous, &made.rows.outs, reads.registers[PMON], v);
    }
}

/// Plays all voices over a batch of n samples: what each gives in the last sample, the bits of the voices that end in each sample, and the sums of each
/// sample. Where all are sent to the echo at their own volumes, the main sums are those of what they send.
pub fn play_voices(
    voices: &mut [Voice; 8],
    n: u8,
    reads: &BatchReads,
    volumes: &[Volumes; 8],
    work: &mut Workspace,
    made: &mut PlayedBatch,
)
    requires some { 0 < n }
    requires few { n ≤ max_samples_of_batch }
    requires noise { (j : ℕ) → j < n → slice_index reads.now.rows.now.noise j < 0x8000 }
    ensures played { (k : ℕ) (s : ChipState) → AreReadsOf k n s reads.now
        → let shared = inputs k s reads.now.memory.now in
        IsPlayedBatch shared n volumes.now voices.old voices.new made.new.last made.new.rows.ends made.new.sums }
    ensures eight { length voices.old ≡ 8 }
{
    if !are_all_sent(volumes) {
        return play_each(voices, n, reads, volumes, work, made);
    }
    let heard = all_unsent(volumes);
    play_each(voices, n, reads, &heard, work, made);
    send_main(&mut made.sums);
}

//! What a voice reads over a batch of up to 64 samples.

ghost use Rattle.std.specs.Prelude.{◌≡◌, ◌<◌, slice_index};
ghost use Rattle.voice_unit.specs.Batch.{lane_input};
ghost use Rattle.voice_unit.specs.Voice.{is_modulated};

use crate::all_voices::BatchRows;
use crate::interface::{VoiceIn, VoiceRegs, is_modulated};
use aram_core::Aram;
use gauss_table::GaussTable;
use num_fix::{BATCH_SIZE, has_bit};
use rate_clock::RateClock;

/// What a voice sees of the registers that all voices share, and its number, which shows its bits in them.
#[derive(Clone, Copy)]
pub struct VoiceView {
    /// The number of the voice, 0 to 7.
    pub voice: u8,
    /// The page of the directory.
    pub dir: u8,
    /// The voices whose pitch is changed by the voice before.
    pub pmon: u8,
    /// The voices that play noise.
    pub non: u8,
    /// The voices that are keyed off.
    pub koff: u8,
    /// The soft reset of FLG.
    pub reset: bool,
}

/// What a voice reads over a batch, beside the outputs of the voice before it.
#[derive(Clone, Copy)]
pub struct VoiceReads<'a> {
    /// Its own registers.
    pub regs: VoiceRegs,
    /// What it sees of the registers that all voices share, and its number.
    pub seen: VoiceView,
    /// The keys and the noise of each sample.
    pub rows: &'a BatchRows,
    /// The memory, which stays as it is throughout the batch.
    pub memory: &'a Aram,
    /// The table of weights.
    pub table: &'a GaussTable,
    /// The clock of the first sample.
    pub clock: RateClock,
}

impl VoiceView {
    /// Whether the pitch of the voice is modulated by the voice before.
    pub fn is_modulated(&self) -> bool
        requires { self.now.voice < 8 }
        ensures { result ≡ is_modulated self.now.pmon self.now.voice }
    {
        is_modulated(self.pmon, self.voice)
    }

    /// What the voice reads in sample `j`, after the output of the voice before it.
    #[tactic(auto, unfolding(crate::specs::Batch::lane_input))]
    pub fn input(&self, rows: &BatchRows, previous: i16, j: u8) -> VoiceIn
        requires voice { self.now.voice < 8 }
        requires few { j < BATCH_SIZE }
        ensures value { result ≡ lane_input self.now rows.now previous j }
        ensures noise { result.noise ≡ slice_index rows.now.noise j }
    {
        let place = usize::from(j);
        VoiceIn {
            dir: self.dir,
            modulated: self.is_modulated(),
            previous,
            noisy: has_bit(self.non, self.voice),
            noise: rows.noise[place],
            reset: self.reset,
            poll: rows.poll[place],
            koff: has_bit(self.koff, self.voice),
            kon: has_bit(rows.kon[place], self.voice),
        }
    }
}

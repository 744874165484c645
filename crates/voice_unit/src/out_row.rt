//! A voice over a batch of samples, with what each step gives.

ghost use Rattle.std.specs.Prelude.{◌≡◌, ◌<◌, ◌≤◌, ℕ, replicate, slice_index};
ghost use Rattle.num_fix.specs.SignedWords.{number_at};
ghost use Rattle.rate_clock.specs.Counter.{counter_at};
ghost use Rattle.voice_unit.specs.Batch.{lane_of};
ghost use Rattle.voice_unit.specs.RunOfVoice.{silent_answer, outs_of, IsRun};

use crate::batch::VoiceReads;
use crate::interface::{UNHEARD, VoiceOut};
use crate::voice::Voice;
use num_fix::BATCH_SIZE;

/// What the steps of a voice give in the samples of a batch.
#[derive(Clone, Copy)]
pub struct OutRow {
    /// Those of samples that were not made are left as they were.
    pub items: [VoiceOut; BATCH_SIZE],
}

impl OutRow {
    /// A row of a voice that isn't heard.
    pub fn silent() -> OutRow
        ensures { result ≡ record { items = replicate BATCH_SIZE silent_answer } }
    {
        OutRow {
            items: [UNHEARD; BATCH_SIZE],
        }
    }

    /// The output in sample `j`.
    fn out(&self, j: u8) -> i16
        requires { j < BATCH_SIZE }
        ensures { result ≡ number_at (outs_of self.now) j }
    {
        self.items[usize::from(j)].out
    }
}

impl Voice {
    /// Makes n steps over the row of what the voice before it gave, and puts what each of them gives into a row.
    pub fn run(&mut self, n: u8, reads: &VoiceReads, previous: &OutRow, out: &mut OutRow)
        requires few { n ≤ BATCH_SIZE }
        requires voice { reads.now.seen.voice < 8 }
        requires pitch { reads.now.regs.pitch < 0x4000 }
        requires noise { (j : ℕ) → j < n → slice_index reads.now.rows.now.noise j < 0x8000 }
        ensures { (k : ℕ) → reads.now.clock ≡ counter_at k
            → IsRun (lane_of reads.now (outs_of previous.now) self.old k) n out.old out.new self.new }
    {
        let mut clock = reads.clock;
        for j in 0..n {
            let input = reads.seen.input(reads.rows, previous.out(j), j);
            let answer = self.step(&reads.regs, &input, reads.memory, reads.table, &clock);
            out.items[usize::from(j)] = answer;
            clock.step();
        }
    }
}

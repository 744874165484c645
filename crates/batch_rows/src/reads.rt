//! What the voices of a batch read.

ghost use Rattle.std.specs.Prelude.{◌≡◌, ◌<◌};
ghost use Rattle.rate_clock.specs.Counter.{counter_at, counter_after};
ghost use Rattle.dsp_state.specs.Registers.{voice_regs};
ghost use Rattle.batch_rows.specs.Reads.{voice_view};

use crate::keys::next_clock;
use aram_core::Aram;
use dsp_state::registers::{DIR, FLG, KOFF, NON, PMON, Registers, is_soft_reset, voice_regs};
use gauss_table::GaussTable;
use rate_clock::RateClock;
use voice_unit::{BatchRows, VoiceReads, VoiceView};

/// The samples of a batch.
#[derive(Clone, Copy)]
pub struct BatchSamples {
    /// The number of the first of them.
    pub number: u32,
    /// How many they are, at most 64.
    pub n: u8,
    /// The clock of the first of them.
    pub clock: RateClock,
}

impl BatchSamples {
    /// The n samples that follow a clock, from a number on.
    pub fn after(clock: &RateClock, number: u32, n: u8) -> BatchSamples
        ensures number { result.number ≡ number }
        ensures count { result.n ≡ n }
        ensures clock { clock.now ≡ counter_after number → result.clock ≡ counter_at number }
    {
        BatchSamples {
            number,
            n,
            clock: next_clock(clock),
        }
    }
}

/// What all voices of a batch read.
#[derive(Clone, Copy)]
pub struct BatchReads<'a> {
    /// The registers, which stay as they are throughout the batch.
    pub registers: &'a Registers,
    /// The keys and the noise of each sample.
    pub rows: &'a BatchRows,
    /// The memory from before the batch.
    pub memory: &'a Aram,
    /// The table of weights.
    pub table: &'a GaussTable,
    /// The clock of the first sample.
    pub clock: RateClock,
}

/// What voice `v` sees of the registers that all voices share.
fn voice_view(registers: &Registers, v: u8) -> VoiceView
    requires { v < 8 }
    ensures { result ≡ voice_view registers.now v }
{
    VoiceView {
        voice: v,
        dir: registers[DIR],
        pmon: registers[PMON],
        non: registers[NON],
        koff: registers[KOFF],
        reset: is_soft_reset(registers[FLG]),
    }
}

impl<'a> BatchReads<'a> {
    /// What voice `v` reads.
    pub(crate) fn of_voice(&self, v: u8) -> VoiceReads<'a>
        requires { v < 8 }
        ensures reads { result ≡ record {
          regs = voice_regs self.now.registers.now v;
          seen = voice_view self.now.registers.now v;
          rows = self.now.rows;
          memory = self.now.memory;
          table = self.now.table;
          clock = self.now.clock;
        } }
        ensures pitch { result.regs.pitch < 0x4000 }
    {
        VoiceReads {
            regs: voice_regs(self.registers, v),
            seen: voice_view(self.registers, v),
            rows: self.rows,
            memory: self.memory,
            table: self.table,
            clock: self.clock,
        }
    }
}

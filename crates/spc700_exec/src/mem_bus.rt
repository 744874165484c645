//! The bus over plain memory.

ghost use Rattle.std.specs.Prelude.{◌≡◌};
ghost use Rattle.std.proofs.Common.{refl};
ghost use Rattle.spc700_exec.specs.MemBus.{plain_memory};

use crate::bus::{Bus, CYCLES_PER_SAMPLE};
use aram_core::Aram;
use std::marker::Model;

/// Memory and a clock: it has no ports and makes no sound.
#[derive(Drop)]
pub struct MemBus {
    memory: Aram,
    clock: u64,
    calls: u8,
}

impl Model for MemBus {
    ghost use Rattle.spc700_exec.specs.MemBus.{MemMachine};

    ghost Value = { MemMachine };

    ghost view = { λ b. record { memory = b.memory; clock = b.clock; calls = b.calls } };
}

impl MemBus {
    /// A bus over this memory, at clock 0 and without calls so far.
    pub fn open(memory: Aram) -> MemBus
        ensures { result ≡ record { memory = memory; clock = 0; calls = 0 } }
    {
        MemBus {
            memory,
            clock: 0,
            calls: 0,
        }
    }

    /// Forgets the calls so far.
    pub fn restart(&mut self)
        ensures { self.new ≡ record self.old { calls = 0 } }
    {
        self.calls = 0;
    }

    /// The memory.
    pub fn memory(&self) -> &Aram
        ensures { result.now ≡ self.now.memory }
    {
        &self.memory
    }

    /// The cycles passed so far.
    pub fn clock(&self) -> u64
        ensures { result ≡ self.now.clock }
    {
        self.clock
    }
}

impl Bus for MemBus {
    ghost means = { plain_memory };

    fn read(&mut self, addr: u16) -> u8 {
        self.calls += 1;
        self.memory.get(addr)
    }

    fn write(&mut self, addr: u16, value: u8) {
        self.calls += 1;
        self.memory.put(addr, value);
    }

    fn pass(&mut self, cycles: u8) {
        self.calls += 1;
        self.clock += cycles as u64;
    }

    fn to_sample(&self) -> u8 {
        (CYCLES_PER_SAMPLE - self.clock % CYCLES_PER_SAMPLE) as u8
    }

    ghost lawful = { record {
      read_calls = λ _ _. refl;
      read_clock = λ _ _. refl;
      write_calls = λ _ _ _. refl;
      write_clock = λ _ _ _. refl;
      pass_calls = λ _ _. refl;
      pass_clock = λ _ _. refl;
      samples = λ _. refl;
    } };
}

// Trials of steps: what they do over a read-only bus.
ghost use Rattle.std.specs.Prelude.{◌≡◌, ◌≤◌, ◌*◌, ℕ, Option, Some, IfSome};
ghost use Rattle.std.proofs.Common.{refl};
ghost use Rattle.spc700_exec.specs.Instruction.{script};
ghost use Rattle.idle_loops.specs.ReadOnly.{peek_of_script, peek_of_steps, peek_meaning};

use spc700_exec::{Bus, CYCLES_PER_SAMPLE, Cpu, step};
use std::marker::Model;

/// Something that can be read without a change of it: of some addresses a byte is seen, which a read there would answer.
pub trait ReadOnlyBus {
    /// The byte that is seen at an address, if one is.
    ghost sees: { Self → ℕ → Option ℕ };

    /// The byte that is seen at an address.
    fn peek(&self, addr: u16) -> Option<u8>
        ensures { result ≡ sees self.now addr };
}

/// A read-only bus: `idle` says whether each access so far was a read of an address at which a byte is seen.
#[derive(Drop)]
struct Trial<'a, L: ReadOnlyBus> {
    peeks: &'a L,
    idle: bool,
    clock: u64,
    calls: u8,
}

impl<'a, L: ReadOnlyBus> Model for Trial<'a, L> {
    ghost use Rattle.std.specs.Prelude.{◌+◌, ◌*◌, ◌≤◌, ◌<◌, ◌^◌};
    ghost use Rattle.std.specs.Coded.{codes};
    ghost use Rattle.spc700_exec.specs.declared.bus.TheConstants.{CYCLES_PER_SAMPLE};
    ghost use Rattle.spc700_exec.specs.Bus.{max_calls, max_samples_of_bus};
    ghost use Rattle.idle_loops.specs.ReadOnly.{Peek};

    ghost Value = { Peek L };

    ghost coded = { Prim.hlevel codes };

    ghost view = { λ t. record { from = t.peeks.now; idle = t.idle; clock = t.clock; calls = t.calls } };

    ghost invariant = { λ t. (t.calls ≤ max_calls) × (t.clock < CYCLES_PER_SAMPLE * (max_samples_of_bus + 1)) };
}

impl<'a, L: ReadOnlyBus> Bus for Trial<'a, L> {
    ghost means = { peek_meaning L.sees };

    fn read(&mut self, addr: u16) -> u8 {
        self.calls += 1;
        let seen = self.peeks.peek(addr);
        self.idle = self.idle && seen.is_some();
        seen.unwrap_or(0)
    }

    fn write(&mut self, _addr: u16, _value: u8) {
        self.calls += 1;
        self.idle = false;
    }

    fn pass(&mut self, cycles: u8) {
        self.calls += 1;
        self.clock += u64::from(cycles);
    }

    fn to_sample(&self) -> u8 {
        (CYCLES_PER_SAMPLE - self.clock % CYCLES_PER_SAMPLE) as u8
    }

    ghost lawful = { record {
      read_calls = λ _ _. refl;
      read_clock = λ _ _. refl;
      write_calls = λ _ _ _. refl;
      write_clock = λ _ _ _. refl;
      pass_calls = λ _ _. refl;
      pass_clock = λ _ _. refl;
      samples = λ _. refl;
    } };
}

/// Tries a step, and returns its cycles if it only reads.
fn try_step<L: ReadOnlyBus>(peeks: &L, cpu: &mut Cpu) -> Option<u8>
    ensures step { IfSome result (λ cycles. peek_of_script (L.sees peeks.now) 0 (script cpu.old) ≡ Some (cpu.new, cycles)) }
    ensures few { IfSome result (λ cycles. (1 ≤ cycles) × (cycles ≤ CYCLES_PER_SAMPLE)) }
{
    let mut trial = Trial {
        peeks,
        idle: true,
        clock: 0,
        calls: 0,
    };
    step(cpu, &mut trial);
    if trial.idle && !cpu.halted {
        Some(trial.clock as u8)
    } else {
        None
    }
}

/// Tries the steps from some registers on, and returns the cycles of an iteration of them that only reads and brings the registers
/// back: 1 to 256. Iterations of at most eight steps are tried. `None` may come at any time: no clause says when,
/// and the steps of the iteration are then taken one by one.
pub fn try_iteration<L: ReadOnlyBus>(peeks: &L, cpu: &Cpu) -> Option<u16>
    ensures iteration { IfSome result (λ cycles. (steps : ℕ) × (peek_of_steps (L.sees peeks.now) steps cpu.now ≡ Some (cpu.now, cycles))) }
    ensures few { IfSome result (λ cycles. (1 ≤ cycles) × (cycles ≤ 256)) }
{
    let mut now = *cpu;
    let mut cycles = 0u16;
    'steps: for _ in 0u16..8 {
        match try_step(peeks, &mut now) {
            Some(more) => cycles += u16::from(more),
            None => return None,
        }
        if now == *cpu {
            return Some(cycles);
        }
    }
    None
}

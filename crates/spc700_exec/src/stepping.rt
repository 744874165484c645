//! The step of the processor.
//!
//! Its parts are inlined, so that a step goes to the arm of its opcode at once.

ghost use Rattle.std.specs.Prelude.{◌≡◌, false, ◌+◌, ◌-◌, ◌<◌, ◌≤◌};
ghost use Rattle.spc700_table.specs.Opcodes.{row_of};
ghost use Rattle.spc700_exec.specs.Bus.{byte_read, max_calls_before_step, max_calls_of_step, max_samples_of_bus};
ghost use Rattle.spc700_exec.specs.Instruction.{step_outcome};
ghost use Rattle.spc700_exec.specs.Pieces.{HasAccessesLeft, halts};

use crate::bus::{Bus, CYCLES_PER_SAMPLE};
use crate::cpu::Cpu;
use crate::instruct::instruct;
use crate::operand::fetch;

/// The opcodes that halt the processor.
const SLEEP: u8 = 0xEF;

const STOP: u8 = 0xFF;

/// Whether an opcode's instruction halts the processor.
#[inline(always)]
fn halts(op: u8) -> bool
    ensures { result ≡ halts (row_of op).kind }
{
    op == SLEEP || op == STOP
}

/// A step of a processor that isn't halted, by its outcome alone. The answer is whether its instruction halts it.
// In line in the step. The answer is told by the opcode, which is a constant in the arm of each.
#[inline(always)]
fn advance_awake<B: Bus>(cpu: &mut Cpu, bus: &mut B) -> bool
    requires room { HasAccessesLeft max_calls_of_step B.means bus.old }
    requires awake { cpu.old.halted ≡ false }
    ensures does { (cpu.new, bus.new) ≡ step_outcome B.means cpu.old bus.old }
    ensures byte { byte_read B.means cpu.old.pc bus.old < 256 }
    ensures answer { result ≡ halts (row_of (byte_read B.means cpu.old.pc bus.old)).kind }
{
    let op = fetch(cpu, bus);
    instruct(cpu, bus, op);
    halts(op)
}

/// A step of a processor, halted or not, by its outcome alone: of a halted one the cycles to the next sample pass.
// In line in the step.
#[inline(always)]
fn advance<B: Bus>(cpu: &mut Cpu, bus: &mut B)
    requires { HasAccessesLeft max_calls_of_step B.means bus.old }
    ensures { (cpu.new, bus.new) ≡ step_outcome B.means cpu.old bus.old }
{
    if cpu.halted {
        let cycles = bus.to_sample();
        bus.pass(cycles);
        return;
    }
    let _ = advance_awake(cpu, bus);
}

/// One step of the processor: each access of the instruction at PC passes a cycle and then acts, and the rest of its
/// cycles passes at its end. SLEEP and STOP pass the cycles to the next sample, and so does each step
/// of a halted processor.
// In line in the loop that takes steps, before the opcodes are put in line in it: else it is too large to be, and that loop can't keep the
// registers and the bus's clock at hand from step to step.
#[inline(always)]
pub fn step<B: Bus>(cpu: &mut Cpu, bus: &mut B)
    requires room { B.means.calls bus.old ≤ max_calls_before_step }
    requires time { B.means.due bus.old < max_samples_of_bus - 1 }
    ensures does { (cpu.new, bus.new) ≡ step_outcome B.means cpu.old bus.old }
    ensures calls { B.means.calls bus.new ≤ B.means.calls bus.old + max_calls_of_step }
    ensures some { B.means.clock bus.old + 1 ≤ B.means.clock bus.new }
    ensures short { B.means.clock bus.new ≤ B.means.clock bus.old + CYCLES_PER_SAMPLE }
    ensures sample { B.means.due bus.new ≤ B.means.due bus.old + 1 }
{
    advance(cpu, bus);
}

/// One step of a processor of which the caller knows that it isn't halted: the step doesn't ask.
/// The answer is whether it is halted now.
#[inline(always)]
pub fn step_awake<B: Bus>(cpu: &mut Cpu, bus: &mut B) -> bool
    requires room { B.means.calls bus.old ≤ max_calls_before_step }
    requires time { B.means.due bus.old < max_samples_of_bus - 1 }
    requires awake { cpu.old.halted ≡ false }
    ensures does { (cpu.new, bus.new) ≡ step_outcome B.means cpu.old bus.old }
    ensures answer { result ≡ cpu.new.halted }
    ensures calls { B.means.calls bus.new ≤ B.means.calls bus.old + max_calls_of_step }
    ensures some { B.means.clock bus.old + 1 ≤ B.means.clock bus.new }
    ensures short { B.means.clock bus.new ≤ B.means.clock bus.old + CYCLES_PER_SAMPLE }
    ensures sample { B.means.due bus.new ≤ B.means.due bus.old + 1 }
{
    advance_awake(cpu, bus)
}

//! The stack's instructions, jumps, calls, returns and halts.

ghost use Rattle.std.specs.Prelude.{◌≡◌, ◌+◌, ◌-◌, ◌%◌, ℕ};
ghost use Rattle.spc700_table.specs.Opcodes.{row_of};
ghost use Rattle.spc700_exec.specs.Operations as operations;
ghost use Rattle.spc700_exec.specs.Operations.{operation_of};
ghost use Rattle.spc700_exec.specs.Pieces.{HasAccessesLeft, IsWholeInstruction};

use crate::access_counts::end_instruction;
use crate::bus::{Bus, CYCLES_PER_SAMPLE};
use crate::cpu::Cpu;
use crate::execute::Execute;
use crate::operand::{Operand, address, address_in_memory, load, load_word, store};
use crate::stack::{pop, pop_word, push, push_word};
use spc700_alu::flags::{BREAK, INTERRUPT, put};
use spc700_table::OpRow;

/// PUSH.
#[derive(Clone, Copy)]
pub struct Push;

impl Execute for Push {
    ghost operation = { λ _. operations.Push };

    #[inline(always)]
    fn execute<B: Bus>(self, cpu: &mut Cpu, bus: &mut B, row: OpRow) -> u8 {
        let operand = address(cpu, bus, row.first);
        let byte = load(cpu, bus, operand);
        push(cpu, bus, byte);
        row.cycles
    }
}

/// POP.
#[derive(Clone, Copy)]
pub struct Pop;

impl Execute for Pop {
    ghost operation = { λ _. operations.Pop };

    #[inline(always)]
    fn execute<B: Bus>(self, cpu: &mut Cpu, bus: &mut B, row: OpRow) -> u8 {
        let operand = address(cpu, bus, row.first);
        let byte = pop(cpu, bus);
        store(cpu, bus, operand, byte);
        row.cycles
    }
}

/// JMP.
#[derive(Clone, Copy)]
pub struct Jump;

impl Execute for Jump {
    ghost operation = { λ _. operations.Jump };

    #[inline(always)]
    fn execute<B: Bus>(self, cpu: &mut Cpu, bus: &mut B, row: OpRow) -> u8 {
        let operand = address(cpu, bus, row.first);
        cpu.pc = address_in_memory(operand);
        row.cycles
    }
}

/// CALL and PCALL.
#[derive(Clone, Copy)]
pub struct Call;

impl Execute for Call {
    ghost operation = { λ _. operations.Call };

    #[inline(always)]
    fn execute<B: Bus>(self, cpu: &mut Cpu, bus: &mut B, row: OpRow) -> u8 {
        let operand = address(cpu, bus, row.first);
        let after = cpu.pc;
        push_word(cpu, bus, after);
        cpu.pc = address_in_memory(operand);
        row.cycles
    }
}

/// TCALL.
#[derive(Clone, Copy)]
pub struct TableCall;

impl Execute for TableCall {
    ghost operation = { λ _. operations.TableCall };

    #[inline(always)]
    fn execute<B: Bus>(self, cpu: &mut Cpu, bus: &mut B, row: OpRow) -> u8 {
        let entry = address(cpu, bus, row.first);
        push_word(cpu, bus, cpu.pc);
        cpu.pc = load_word(bus, entry);
        row.cycles
    }
}

/// BRK.
#[derive(Clone, Copy)]
pub struct Break;

impl Execute for Break {
    ghost operation = { λ _. operations.Break };

    #[inline(always)]
    fn execute<B: Bus>(self, cpu: &mut Cpu, bus: &mut B, row: OpRow) -> u8 {
        push_word(cpu, bus, cpu.pc);
        push(cpu, bus, cpu.psw);
        cpu.pc = load_word(bus, Operand::At(0xffde));
        cpu.psw = put(put(cpu.psw, BREAK, true), INTERRUPT, false);
        row.cycles
    }
}

/// RET.
#[derive(Clone, Copy)]
pub struct Return;

impl Execute for Return {
    ghost operation = { λ _. operations.Return };

    #[inline(always)]
    fn execute<B: Bus>(self, cpu: &mut Cpu, bus: &mut B, row: OpRow) -> u8 {
        cpu.pc = pop_word(cpu, bus);
        row.cycles
    }
}

/// RETI.
#[derive(Clone, Copy)]
pub struct InterruptReturn;

impl Execute for InterruptReturn {
    ghost operation = { λ _. operations.InterruptReturn };

    #[inline(always)]
    fn execute<B: Bus>(self, cpu: &mut Cpu, bus: &mut B, row: OpRow) -> u8 {
        let psw = pop(cpu, bus);
        cpu.pc = pop_word(cpu, bus);
        cpu.psw = psw;
        row.cycles
    }
}

/// The cycles of a halt: from its opcode, which was read, to the next sample.
#[inline(always)]
fn halt_cycles<B: Bus>(bus: &B) -> u8
    ensures { result ≡ (CYCLES_PER_SAMPLE - B.means.clock bus.now % CYCLES_PER_SAMPLE) % CYCLES_PER_SAMPLE + 1 }
{
    bus.to_sample() % CYCLES_PER_SAMPLE as u8 + 1
}

/// SLEEP and STOP, whole: the processor halts for good.
#[inline(always)]
pub fn halt<B: Bus>(cpu: &mut Cpu, bus: &mut B, op: u8)
    requires room { HasAccessesLeft 12 B.means bus.old }
    requires halts { operation_of (row_of op).kind (row_of op).first (row_of op).second ≡ operations.Halt }
    ensures { (opcode : ℕ) → opcode ≡ op → IsWholeInstruction B.means (row_of opcode) cpu.old bus.old cpu.new bus.new }
{
    let cycles = halt_cycles(bus);
    cpu.halted = true;
    end_instruction(bus, op, cycles);
}

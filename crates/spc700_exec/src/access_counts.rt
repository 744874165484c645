//! How many accesses each instruction makes, as data: the rest of its cycles follows from it, and no clock is asked.

ghost use Rattle.std.specs.Prelude.{◌≡◌, ◌≤◌, false};
ghost use Rattle.spc700_table.specs.Opcodes.{row_of};
ghost use Rattle.spc700_exec.specs.declared.cpu.Cpu.{Cpu};
ghost use Rattle.spc700_exec.specs.Script.{after_rest};
ghost use Rattle.spc700_exec.specs.Instruction.{instruction};
ghost use Rattle.spc700_exec.specs.Pieces.{HasAccessesLeft, IsInstruction, IsWholeInstruction, access_count, halts};

use crate::bus::{Bus, CYCLES_PER_SAMPLE};

/// The accesses of the instruction of each opcode, the read of the opcode among them.
pub static ACCESS_COUNTS: [u8; 256] = [
    1, 5, 4, 4, 3, 4, 2, 5, 2, 6, 4, 4, 5, 2, 5, 6, 2, 5, 4, 4, 3, 4, 4, 5, 5, 4, 6, 4, 1, 1, 4, 5,
    1, 5, 4, 4, 3, 4, 2, 5, 2, 6, 4, 4, 5, 2, 4, 2, 2, 5, 4, 4, 3, 4, 4, 5, 5, 4, 6, 4, 1, 1, 3, 5,
    1, 5, 4, 4, 3, 4, 2, 5, 2, 6, 4, 4, 5, 2, 5, 4, 2, 5, 4, 4, 3, 4, 4, 5, 5, 4, 4, 4, 1, 1, 4, 3,
    1, 5, 4, 4, 3, 4, 2, 5, 2, 5, 4, 4, 5, 2, 5, 3, 2, 5, 4, 4, 3, 4, 4, 5, 4, 3, 4, 4, 1, 1, 3, 4,
    1, 5, 4, 4, 3, 4, 2, 5, 2, 6, 4, 4, 5, 2, 2, 4, 2, 5, 4, 4, 3, 4, 4, 5, 5, 4, 4, 4, 1, 1, 1, 1,
    1, 5, 4, 4, 3, 4, 2, 5, 2, 6, 4, 4, 5, 2, 2, 2, 2, 5, 4, 4, 3, 4, 4, 5, 5, 4, 4, 4, 1, 1, 1, 2,
    1, 5, 4, 4, 3, 4, 2, 5, 2, 4, 5, 3, 4, 2, 2, 1, 2, 5, 4, 4, 3, 4, 4, 5, 3, 3, 4, 3, 1, 1, 4, 1,
    1, 5, 4, 4, 3, 4, 2, 5, 2, 4, 5, 3, 4, 1, 2, 1, 2, 5, 4, 4, 3, 4, 4, 5, 3, 3, 5, 3, 1, 1, 2, 1,
];

/// The accesses of the instruction of an opcode, the read of the opcode among them.
// In line in the arm of its opcode, where it is a constant.
#[inline(always)]
fn access_count(op: u8) -> u8
    ensures { result ≡ access_count (row_of op) }
{
    ACCESS_COUNTS[op as usize]
}

/// Passes the rest of some cycles, if there is any.
// In line as its caller is.
#[inline(always)]
fn pass_rest<B: Bus>(bus: &mut B, cycles: u8, passed: u8)
    requires room { HasAccessesLeft 1 B.means bus.old }
    requires few { cycles ≤ CYCLES_PER_SAMPLE }
    ensures { bus.new ≡ after_rest B.means cycles passed bus.old }
{
    if passed < cycles {
        bus.pass(cycles - passed);
    }
}

/// Passes the rest of the cycles of an opcode's instruction, and so makes it whole, from wherever it began.
// In line in the arm of the opcode, where the rest is a constant.
#[inline(always)]
pub fn end_instruction<B: Bus>(bus: &mut B, op: u8, cycles: u8)
    requires room { HasAccessesLeft 1 B.means bus.old }
    requires few { cycles ≤ CYCLES_PER_SAMPLE }
    ensures rest { bus.new ≡ after_rest B.means cycles (access_count (row_of op)) bus.old }
    ensures whole { (before after : Cpu) (old : B) → halts (row_of op).kind ≡ false
        → IsInstruction B.means (instruction (row_of op) before) old after cycles bus.old
        → IsWholeInstruction B.means (row_of op) before old after bus.new }
{
    pass_rest(bus, cycles, access_count(op));
}

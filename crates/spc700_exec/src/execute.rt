//! What the instructions do once their opcode was read. Each operation is a type of its own, and says which one it is.

ghost use Rattle.std.specs.Prelude.{◌≡◌, ℕ, false};
ghost use Rattle.spc700_table.specs.Opcodes.{row_of};
ghost use Rattle.spc700_exec.specs.Operations.{Operation, operation_of};
ghost use Rattle.spc700_exec.specs.Instruction.{line_of};
ghost use Rattle.spc700_exec.specs.Pieces.{HasAccessesLeft, IsRow, IsInstruction, IsWholeInstruction, halts};

use crate::access_counts::end_instruction;
use crate::bus::Bus;
use crate::cpu::Cpu;
use spc700_table::{OpRow, row};

/// An operation: what an instruction does once its opcode was read. What is inlined into the arm of an opcode finds the row a constant
/// there, so that no form is distinguished while a program runs.
pub trait Execute: Copy {
    /// The operation of the instruction list.
    ghost operation: { Self → Operation };

    /// Makes the accesses of the instruction, and gives its cycles.
    fn execute<B: Bus>(self, cpu: &mut Cpu, bus: &mut B, row: OpRow) -> u8
        requires room { HasAccessesLeft 12 B.means bus.old }
        requires row { IsRow row }
        ensures { IsInstruction B.means (line_of (operation self) row cpu.old) bus.old cpu.new result bus.new };
}

/// The row of an opcode, with what every row keeps.
#[inline(always)]
fn fitting_row(op: u8) -> OpRow
    ensures row { result ≡ row_of op }
    ensures fits { halts result.kind ≡ false → IsRow result }
{
    row(op)
}

/// Makes the whole instruction of an opcode, whose operation this is: its accesses, and the rest of its cycles.
// In line in the arm of the opcode, where the row and the rest of the cycles are constants.
#[inline(always)]
pub fn execute_whole<B: Bus, E: Execute>(cpu: &mut Cpu, bus: &mut B, op: u8, operation: E)
    requires room { HasAccessesLeft 12 B.means bus.old }
    requires runs { halts (row_of op).kind ≡ false }
    requires is { operation_of (row_of op).kind (row_of op).first (row_of op).second ≡ E.operation operation }
    ensures { (opcode : ℕ) → opcode ≡ op → IsWholeInstruction B.means (row_of opcode) cpu.old bus.old cpu.new bus.new }
{
    let row = fitting_row(op);
    let cycles = operation.execute(cpu, bus, row);
    end_instruction(bus, op, cycles);
}

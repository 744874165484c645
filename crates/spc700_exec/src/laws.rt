//! Laws of the definitions.

ghost use Rattle.std.specs.Prelude.{◌≡◌, ◌+◌, ◌<◌, ◌≤◌, ℕ, [], true, false, length, Some};
ghost use Rattle.spc700_table.specs.Opcodes.{row_of};
ghost use Rattle.spc700_exec.specs.declared.cpu.Cpu.{Cpu};
ghost use Rattle.spc700_exec.specs.Instruction.{instruction, script, step_outcome};
ghost use Rattle.spc700_exec.specs.Next.{next_action, driven_outcome};
ghost use Rattle.spc700_exec.specs.Accesses.{Makes, begun, row_accesses};
ghost use Rattle.spc700_exec.specs.Forms.{row_suits};
ghost use Rattle.spc700_exec.specs.Length.{IsShort};
ghost use Rattle.spc700_exec.specs.Pieces.{halts};

use crate::bus::Bus;

/// A machine that asks what comes next after each access makes the step.
pub fn asking_makes_the_step<B: Bus>(_bus: &B)
    ensures { (cpu : Cpu) (s : B)
        → (n : ℕ) × (driven_outcome n B.means (B.means.clock s) 0 (next_action cpu) [] 0 s ≡ Some (step_outcome B.means cpu s)) }
{}

/// After its opcode an instruction makes the reads and writes of the table of accesses, in order, whatever the bytes: with
/// the opcode at most 6, and at most as many as the least count of its cycles. Its cycles are one of the two counts.
pub fn accesses_are_those_of_the_table()
    ensures order { (op : ℕ) (cpu : Cpu) → Makes (row_of op) cpu (begun cpu) (row_accesses (row_of op)) (instruction (row_of op) cpu) }
    ensures few { (op : ℕ) → op < 256 → length (row_accesses (row_of op)) + 1 ≤ 6 }
    ensures below { (op : ℕ) → op < 256 → halts (row_of op).kind ≡ false → length (row_accesses (row_of op)) + 1 ≤ (row_of op).cycles }
{}

/// Each instruction has forms that its operation reads and writes: no default of a definition is ever met.
pub fn forms_suit_their_operations()
    ensures { (op : ℕ) → op < 256 → row_suits (row_of op) ≡ true }
{}

/// A step makes at most 6 accesses, and its cycles are at most those of a sample.
pub fn steps_are_short()
    ensures { (cpu : Cpu) → IsShort 6 (script cpu) }
{}

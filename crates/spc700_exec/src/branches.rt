//! The branches.

ghost use Rattle.std.specs.Prelude.{◌≡◌, true};
ghost use Rattle.spc700_exec.specs.Script.{End, Cycles};
ghost use Rattle.spc700_exec.specs.Operations as operations;
ghost use Rattle.spc700_exec.specs.Operations.{flag_is};
ghost use Rattle.spc700_exec.specs.Lines.{branch_end};
ghost use Rattle.spc700_exec.specs.Pieces.{IsRow, IsTime};

use crate::bus::Bus;
use crate::cpu::Cpu;
use crate::execute::Execute;
use crate::operand::{address_both, bit_number, fetch, load, store};
use spc700_alu::flags::is_set;
use spc700_table::{OpRow, branch_target};

/// Takes a branch or not, and gives its cycles.
#[inline(always)]
fn branch_if(cpu: &mut Cpu, row: OpRow, taken: bool, r: u8) -> u8
    requires row { IsRow row }
    ensures does { branch_end taken r row cpu.old ≡ End cpu.new (Cycles result) }
    ensures time { IsTime row result }
{
    if taken {
        cpu.pc = branch_target(cpu.pc, r);
        row.taken
    } else {
        row.cycles
    }
}

/// A branch where a flag is set, or where it is clear.
#[derive(Clone, Copy)]
pub struct BranchOnFlag {
    /// The bit of the flag.
    pub mask: u8,
    /// Whether it is to be set.
    pub on: bool,
}

impl Execute for BranchOnFlag {
    ghost operation = { λ branch. operations.Branch (flag_is branch.mask branch.on) };

    #[inline(always)]
    fn execute<B: Bus>(self, cpu: &mut Cpu, bus: &mut B, row: OpRow) -> u8 {
        let r = fetch(cpu, bus);
        let taken = is_set(cpu.psw, self.mask) == self.on;
        branch_if(cpu, row, taken, r)
    }
}

/// BRA.
#[derive(Clone, Copy)]
pub struct BranchAlways;

impl Execute for BranchAlways {
    ghost operation = { λ _. operations.Branch (λ _. true) };

    #[inline(always)]
    fn execute<B: Bus>(self, cpu: &mut Cpu, bus: &mut B, row: OpRow) -> u8 {
        let r = fetch(cpu, bus);
        branch_if(cpu, row, true, r)
    }
}

/// BBS, or BBC where it is false.
#[derive(Clone, Copy)]
pub struct BranchOnBit(pub bool);

impl Execute for BranchOnBit {
    ghost operation = { λ branch. operations.BitBranch branch.0 };

    #[inline(always)]
    fn execute<B: Bus>(self, cpu: &mut Cpu, bus: &mut B, row: OpRow) -> u8 {
        let both = address_both(cpu, bus, row);
        let byte = load(cpu, bus, both.first);
        let r = load(cpu, bus, both.second);
        let taken = is_set(byte, 1 << bit_number(both.first)) == self.0;
        branch_if(cpu, row, taken, r)
    }
}

/// CBNE.
#[derive(Clone, Copy)]
pub struct BranchIfDifferent;

impl Execute for BranchIfDifferent {
    ghost operation = { λ _. operations.CompareBranch };

    #[inline(always)]
    fn execute<B: Bus>(self, cpu: &mut Cpu, bus: &mut B, row: OpRow) -> u8 {
        let both = address_both(cpu, bus, row);
        let byte = load(cpu, bus, both.first);
        let r = load(cpu, bus, both.second);
        branch_if(cpu, row, cpu.a != byte, r)
    }
}

/// DBNZ.
#[derive(Clone, Copy)]
pub struct Dbnz;

impl Execute for Dbnz {
    ghost operation = { λ _. operations.CountBranch };

    #[inline(always)]
    fn execute<B: Bus>(self, cpu: &mut Cpu, bus: &mut B, row: OpRow) -> u8 {
        let both = address_both(cpu, bus, row);
        let byte = load(cpu, bus, both.first);
        let r = load(cpu, bus, both.second);
        let less = byte.wrapping_sub(1);
        store(cpu, bus, both.first, less);
        branch_if(cpu, row, less != 0, r)
    }
}

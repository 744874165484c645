//! The instructions on words.

ghost use Rattle.std.specs.Prelude.{◌≡◌, ℕ, ◌+◌, ◌-◌, ◌%◌};
ghost use Rattle.spc700_exec.specs.Operations as operations;
ghost use Rattle.spc700_exec.specs.Calculations.{word_calculation};

use crate::bus::Bus;
use crate::cpu::Cpu;
use crate::execute::Execute;
use crate::operand::{address, load_word, store_word};
use crate::registers::{set_ya, word};
use spc700_alu::flags::put_nz16;
use spc700_alu::{Out16, addw, cmpw, subw};
use spc700_table::OpRow;

/// What is calculated of YA and a word.
#[derive(Clone, Copy)]
pub enum WordCalculation {
    /// MOVW: the word itself.
    Load,
    /// ADDW.
    Add,
    /// SUBW.
    Subtract,
    /// CMPW.
    Compare,
}

/// The result of YA and the word, and the status.
#[inline(always)]
fn word_result(kind: WordCalculation, ya: u16, w: u16, psw: u8) -> Out16
    ensures { result ≡ word_calculation kind ya w psw }
{
    match kind {
        WordCalculation::Load => Out16 {
            value: w,
            psw: put_nz16(psw, w),
        },
        WordCalculation::Add => addw(ya, w, psw),
        WordCalculation::Subtract => subw(ya, w, psw),
        WordCalculation::Compare => Out16 {
            value: ya,
            psw: cmpw(ya, w, psw),
        },
    }
}

impl Execute for WordCalculation {
    ghost operation = { λ kind. operations.WordOnYa (word_calculation kind) };

    #[inline(always)]
    fn execute<B: Bus>(self, cpu: &mut Cpu, bus: &mut B, row: OpRow) -> u8 {
        let operand = address(cpu, bus, row.second);
        let w = load_word(bus, operand);
        let out = word_result(self, word(cpu), w, cpu.psw);
        set_ya(cpu, out);
        row.cycles
    }
}

/// MOVW d,YA.
#[derive(Clone, Copy)]
pub struct MoveWord;

impl Execute for MoveWord {
    ghost operation = { λ _. operations.WordStore };

    #[inline(always)]
    fn execute<B: Bus>(self, cpu: &mut Cpu, bus: &mut B, row: OpRow) -> u8 {
        let operand = address(cpu, bus, row.first);
        store_word(bus, operand, word(cpu));
        row.cycles
    }
}

/// INCW.
#[derive(Clone, Copy)]
pub struct WordUp;

impl Execute for WordUp {
    ghost operation = { λ _. operations.WordModify (λ w. (w + 1) % 0x10000) };

    #[inline(always)]
    fn execute<B: Bus>(self, cpu: &mut Cpu, bus: &mut B, row: OpRow) -> u8 {
        let operand = address(cpu, bus, row.first);
        let w = load_word(bus, operand).wrapping_add(1);
        store_word(bus, operand, w);
        cpu.psw = put_nz16(cpu.psw, w);
        row.cycles
    }
}

/// DECW.
#[derive(Clone, Copy)]
pub struct WordDown;

impl Execute for WordDown {
    ghost operation = { λ _. operations.WordModify (λ w. (w + 0x10000 - 1) % 0x10000) };

    #[inline(always)]
    fn execute<B: Bus>(self, cpu: &mut Cpu, bus: &mut B, row: OpRow) -> u8 {
        let operand = address(cpu, bus, row.first);
        let w = load_word(bus, operand).wrapping_sub(1);
        store_word(bus, operand, w);
        cpu.psw = put_nz16(cpu.psw, w);
        row.cycles
    }
}

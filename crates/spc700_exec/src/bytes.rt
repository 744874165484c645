//! The instructions on bytes.

ghost use Rattle.std.specs.Prelude.{◌≡◌, ℕ};
ghost use Rattle.spc700_exec.specs.Operations as operations;
ghost use Rattle.spc700_exec.specs.Lines.{with_nz_of_move};
ghost use Rattle.spc700_alu.specs.declared.Out8.{Out8};
ghost use Rattle.spc700_alu.specs.Bytes.{adc_of, sbc_of, logic_of};
ghost use Rattle.spc700_exec.specs.Calculations.{modification};

use crate::bus::Bus;
use crate::cpu::Cpu;
use crate::execute::Execute;
use crate::operand::{Operand, address, address_both, load, store};
use spc700_alu::flags::put_nz;
use spc700_alu::{LogicKind, Out8, ShiftKind, adc, bump, cmp, logic, sbc, shift};
use spc700_table::OpRow;

/// What is calculated of two bytes. Each calculation is a type, so that an arm has the code of its own alone.
pub trait Calculation: Copy {
    /// The result of two bytes and the status.
    ghost result_of: { Self → ℕ → ℕ → ℕ → Out8 };

    /// The result of two bytes, and the status.
    fn calculate(self, a: u8, b: u8, psw: u8) -> Out8
        ensures { result ≡ result_of self a b psw };
}

/// OR, AND and EOR.
impl Calculation for LogicKind {
    ghost result_of = { logic_of };

    #[inline(always)]
    fn calculate(self, a: u8, b: u8, psw: u8) -> Out8 {
        logic(self, a, b, psw)
    }
}

/// ADC.
#[derive(Clone, Copy)]
pub struct Adc;

impl Calculation for Adc {
    ghost result_of = { λ _. adc_of };

    #[inline(always)]
    fn calculate(self, a: u8, b: u8, psw: u8) -> Out8 {
        adc(a, b, psw)
    }
}

/// SBC.
#[derive(Clone, Copy)]
pub struct Sbc;

impl Calculation for Sbc {
    ghost result_of = { λ _. sbc_of };

    #[inline(always)]
    fn calculate(self, a: u8, b: u8, psw: u8) -> Out8 {
        sbc(a, b, psw)
    }
}

/// What a byte is changed by.
#[derive(Clone, Copy)]
pub enum Modification {
    /// ASL, ROL, LSR or ROR.
    Shift(ShiftKind),
    /// INC.
    Up,
    /// DEC.
    Down,
}

/// The changed byte, and the status.
#[inline(always)]
fn modification_result(kind: Modification, byte: u8, psw: u8) -> Out8
    ensures { result ≡ modification kind byte psw }
{
    match kind {
        Modification::Shift(kind) => shift(kind, byte, psw),
        Modification::Up => bump(byte, true, psw),
        Modification::Down => bump(byte, false, psw),
    }
}

/// A byte that was moved to A, X or Y shows in N and Z.
#[inline(always)]
fn show_move(cpu: &mut Cpu, target: Operand, value: u8)
    ensures { cpu.new ≡ with_nz_of_move target value cpu.old }
{
    match target {
        Operand::A | Operand::X | Operand::Y => cpu.psw = put_nz(cpu.psw, value),
        _ => {}
    }
}

/// MOV.
#[derive(Clone, Copy)]
pub struct Move;

impl Execute for Move {
    ghost operation = { λ _. operations.Move };

    #[inline(always)]
    fn execute<B: Bus>(self, cpu: &mut Cpu, bus: &mut B, row: OpRow) -> u8 {
        let both = address_both(cpu, bus, row);
        let value = load(cpu, bus, both.second);
        store(cpu, bus, both.first, value);
        show_move(cpu, both.first, value);
        row.cycles
    }
}

/// OR, AND, EOR, ADC and SBC.
#[derive(Clone, Copy)]
pub struct Calculate<K>(pub K);

impl<K: Calculation> Execute for Calculate<K> {
    ghost operation = { λ calculate. operations.Calculate (K.result_of calculate.0) };

    #[inline(always)]
    fn execute<B: Bus>(self, cpu: &mut Cpu, bus: &mut B, row: OpRow) -> u8 {
        let both = address_both(cpu, bus, row);
        let b = load(cpu, bus, both.second);
        let a = load(cpu, bus, both.first);
        let out = self.0.calculate(a, b, cpu.psw);
        cpu.psw = out.psw;
        store(cpu, bus, both.first, out.value);
        row.cycles
    }
}

/// CMP.
#[derive(Clone, Copy)]
pub struct Compare;

impl Execute for Compare {
    ghost operation = { λ _. operations.Compare };

    #[inline(always)]
    fn execute<B: Bus>(self, cpu: &mut Cpu, bus: &mut B, row: OpRow) -> u8 {
        let both = address_both(cpu, bus, row);
        let b = load(cpu, bus, both.second);
        let a = load(cpu, bus, both.first);
        cpu.psw = cmp(a, b, cpu.psw);
        row.cycles
    }
}

impl Execute for Modification {
    ghost operation = { λ kind. operations.Modify (modification kind) };

    #[inline(always)]
    fn execute<B: Bus>(self, cpu: &mut Cpu, bus: &mut B, row: OpRow) -> u8 {
        let operand = address(cpu, bus, row.first);
        let byte = load(cpu, bus, operand);
        let out = modification_result(self, byte, cpu.psw);
        cpu.psw = out.psw;
        store(cpu, bus, operand, out.value);
        row.cycles
    }
}

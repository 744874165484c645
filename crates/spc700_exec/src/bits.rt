//! The instructions on bits.

ghost use Rattle.std.specs.Prelude.{◌≡◌, ℕ, ◌-◌, bit_and, bit_or};
ghost use Rattle.spc700_exec.specs.Operations as operations;

use crate::bus::Bus;
use crate::cpu::Cpu;
use crate::execute::Execute;
use crate::operand::{address, bit_number, load, store};
use spc700_alu::flags::put_nz;
use spc700_alu::{BitKind, bitop};
use spc700_table::OpRow;

/// OR1, AND1, EOR1 and MOV1 C,m.b.
#[derive(Clone, Copy)]
pub struct BitToCarry(pub BitKind);

impl Execute for BitToCarry {
    ghost operation = { λ bit. operations.BitToCarry bit.0 };

    #[inline(always)]
    fn execute<B: Bus>(self, cpu: &mut Cpu, bus: &mut B, row: OpRow) -> u8 {
        let operand = address(cpu, bus, row.second);
        let byte = load(cpu, bus, operand);
        cpu.psw = bitop(self.0, byte, bit_number(operand), cpu.psw).psw;
        row.cycles
    }
}

/// SET1, CLR1, NOT1 and MOV1 m.b,C.
#[derive(Clone, Copy)]
pub struct BitInPlace(pub BitKind);

impl Execute for BitInPlace {
    ghost operation = { λ bit. operations.BitInPlace bit.0 };

    #[inline(always)]
    fn execute<B: Bus>(self, cpu: &mut Cpu, bus: &mut B, row: OpRow) -> u8 {
        let operand = address(cpu, bus, row.first);
        let byte = load(cpu, bus, operand);
        let changed = bitop(self.0, byte, bit_number(operand), cpu.psw).value;
        store(cpu, bus, operand, changed);
        row.cycles
    }
}

/// TSET1.
#[derive(Clone, Copy)]
pub struct TestAndSet;

impl Execute for TestAndSet {
    ghost operation = { λ _. operations.BitTest (λ byte a. bit_or byte a) };

    #[inline(always)]
    fn execute<B: Bus>(self, cpu: &mut Cpu, bus: &mut B, row: OpRow) -> u8 {
        let operand = address(cpu, bus, row.first);
        let byte = load(cpu, bus, operand);
        cpu.psw = put_nz(cpu.psw, cpu.a.wrapping_sub(byte));
        store(cpu, bus, operand, byte | cpu.a);
        row.cycles
    }
}

/// TCLR1.
#[derive(Clone, Copy)]
pub struct TestAndClear;

impl Execute for TestAndClear {
    ghost operation = { λ _. operations.BitTest (λ byte a. bit_and byte (0xff - a)) };

    #[inline(always)]
    fn execute<B: Bus>(self, cpu: &mut Cpu, bus: &mut B, row: OpRow) -> u8 {
        let operand = address(cpu, bus, row.first);
        let byte = load(cpu, bus, operand);
        cpu.psw = put_nz(cpu.psw, cpu.a.wrapping_sub(byte));
        store(cpu, bus, operand, byte & !cpu.a);
        row.cycles
    }
}

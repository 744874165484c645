//! The instructions on registers alone.

ghost use Rattle.std.specs.Prelude.{◌≡◌, not, true, false};
ghost use Rattle.spc700_alu.specs.Flags.{V, H, C, flag, with_flag};
ghost use Rattle.spc700_alu.specs.Decimal.{daa_of, das_of};
ghost use Rattle.spc700_alu.specs.WordArithmetic.{mul_of, div_of};
ghost use Rattle.spc700_exec.specs.Operations as operations;
ghost use Rattle.spc700_exec.specs.Operations.{xcn_of, ya};
ghost use Rattle.spc700_exec.specs.Lines.{with_ya};

use crate::bus::Bus;
use crate::cpu::Cpu;
use crate::execute::Execute;
use spc700_alu::flags::{CARRY, HALF, OVERFLOW, is_set, put, put_nz};
use spc700_alu::{Out8, Out16, daa, das, div, mul};
use spc700_table::OpRow;

/// NOP.
#[derive(Clone, Copy)]
pub struct Nop;

impl Execute for Nop {
    ghost operation = { λ _. operations.OnStatus (λ psw. psw) };

    #[inline(always)]
    fn execute<B: Bus>(self, cpu: &mut Cpu, bus: &mut B, row: OpRow) -> u8 {
        row.cycles
    }
}

/// CLRP, SETP, CLRC, SETC, EI and DI.
#[derive(Clone, Copy)]
pub struct PutFlag {
    /// The bit of the flag.
    pub mask: u8,
    /// Whether it is set, or cleared.
    pub on: bool,
}

impl Execute for PutFlag {
    ghost operation = { λ flag. operations.OnStatus (with_flag flag.mask flag.on) };

    #[inline(always)]
    fn execute<B: Bus>(self, cpu: &mut Cpu, bus: &mut B, row: OpRow) -> u8 {
        cpu.psw = put(cpu.psw, self.mask, self.on);
        row.cycles
    }
}

/// NOTC.
#[derive(Clone, Copy)]
pub struct Notc;

impl Execute for Notc {
    ghost operation = { λ _. operations.OnStatus (λ psw. with_flag C (not (flag C psw)) psw) };

    #[inline(always)]
    fn execute<B: Bus>(self, cpu: &mut Cpu, bus: &mut B, row: OpRow) -> u8 {
        cpu.psw = put(cpu.psw, CARRY, !is_set(cpu.psw, CARRY));
        row.cycles
    }
}

/// CLRV.
#[derive(Clone, Copy)]
pub struct ClearOverflow;

impl Execute for ClearOverflow {
    ghost operation = { λ _. operations.OnStatus (λ psw. with_flag H false (with_flag V false psw)) };

    #[inline(always)]
    fn execute<B: Bus>(self, cpu: &mut Cpu, bus: &mut B, row: OpRow) -> u8 {
        cpu.psw = put(put(cpu.psw, OVERFLOW, false), HALF, false);
        row.cycles
    }
}

/// A new A and status.
#[inline(always)]
fn put_a(cpu: &mut Cpu, out: Out8)
    ensures { cpu.new ≡ record cpu.old { a = out.value; psw = out.psw } }
{
    cpu.a = out.value;
    cpu.psw = out.psw;
}

/// The digits of A change places.
#[inline(always)]
fn with_digits_exchanged(a: u8, psw: u8) -> Out8
    ensures { result ≡ xcn_of a psw }
{
    let value = a % 0x10 * 0x10 + a / 0x10;
    Out8 {
        value,
        psw: put_nz(psw, value),
    }
}

/// XCN.
#[derive(Clone, Copy)]
pub struct Exchange;

impl Execute for Exchange {
    ghost operation = { λ _. operations.OnA xcn_of };

    #[inline(always)]
    fn execute<B: Bus>(self, cpu: &mut Cpu, bus: &mut B, row: OpRow) -> u8 {
        put_a(cpu, with_digits_exchanged(cpu.a, cpu.psw));
        row.cycles
    }
}

/// DAA.
#[derive(Clone, Copy)]
pub struct Daa;

impl Execute for Daa {
    ghost operation = { λ _. operations.OnA daa_of };

    #[inline(always)]
    fn execute<B: Bus>(self, cpu: &mut Cpu, bus: &mut B, row: OpRow) -> u8 {
        put_a(cpu, daa(cpu.a, cpu.psw));
        row.cycles
    }
}

/// DAS.
#[derive(Clone, Copy)]
pub struct Das;

impl Execute for Das {
    ghost operation = { λ _. operations.OnA das_of };

    #[inline(always)]
    fn execute<B: Bus>(self, cpu: &mut Cpu, bus: &mut B, row: OpRow) -> u8 {
        put_a(cpu, das(cpu.a, cpu.psw));
        row.cycles
    }
}

/// Y and A as one word.
#[inline(always)]
pub fn word(cpu: &Cpu) -> u16
    ensures { result ≡ ya cpu.now }
{
    0x100 * cpu.y as u16 + cpu.a as u16
}

/// Y and A are the bytes of a word, the high one first, and the status is its own.
#[inline(always)]
pub fn set_ya(cpu: &mut Cpu, out: Out16)
    ensures { cpu.new ≡ with_ya out cpu.old }
{
    cpu.y = (out.value / 0x100) as u8;
    cpu.a = (out.value % 0x100) as u8;
    cpu.psw = out.psw;
}

/// MUL.
#[derive(Clone, Copy)]
pub struct Multiply;

impl Execute for Multiply {
    ghost operation = { λ _. operations.OnYa (λ cpu. mul_of cpu.y cpu.a cpu.psw) };

    #[inline(always)]
    fn execute<B: Bus>(self, cpu: &mut Cpu, bus: &mut B, row: OpRow) -> u8 {
        set_ya(cpu, mul(cpu.y, cpu.a, cpu.psw));
        row.cycles
    }
}

/// DIV.
#[derive(Clone, Copy)]
pub struct Divide;

impl Execute for Divide {
    ghost operation = { λ _. operations.OnYa (λ cpu. div_of (ya cpu) cpu.x cpu.psw) };

    #[inline(always)]
    fn execute<B: Bus>(self, cpu: &mut Cpu, bus: &mut B, row: OpRow) -> u8 {
        set_ya(cpu, div(word(cpu), cpu.x, cpu.psw));
        row.cycles
    }
}

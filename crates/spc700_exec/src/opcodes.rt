//! The instruction of each opcode. Each has an arm of its own with everything in it inlined: its row is a constant there, so
//! that no form is distinguished while a program runs, and the rest of its cycles is a constant too. The functions of sixteen
//! opcodes are inlined into `instruct`, and that into the step, so that a step goes to its arm at once.
#![tactic(auto, unfolding(spc700_table::specs::Opcodes::row_of, spc700_table::specs::Opcodes::columns, spc700_table::specs::Cycles::printed_cycles, spc700_table::specs::Cycles::cycle_map))]

ghost use Rattle.std.specs.Prelude.{◌≡◌, ℕ, ◌+◌, ◌<◌};
ghost use Rattle.spc700_table.specs.Opcodes.{row_of};
ghost use Rattle.spc700_exec.specs.Pieces.{HasAccessesLeft, IsWholeInstruction};

use crate::bits::{BitInPlace, BitToCarry, TestAndClear, TestAndSet};
use crate::branches::{BranchAlways, BranchIfDifferent, BranchOnBit, BranchOnFlag, Dbnz};
use crate::bus::Bus;
use crate::bytes::Modification::{Down, Shift, Up};
use crate::bytes::{Adc, Calculate, Compare, Move, Sbc};
use crate::cpu::Cpu;
use crate::execute::execute_whole;
use crate::jumps::{Break, Call, InterruptReturn, Jump, Pop, Push, Return, TableCall, halt};
use crate::registers::{ClearOverflow, Daa, Das, Divide, Exchange, Multiply, Nop, Notc, PutFlag};
use crate::word_instructions::{MoveWord, WordCalculation, WordDown, WordUp};
use spc700_alu::flags::{CARRY, DIRECT_PAGE, INTERRUPT, NEGATIVE, OVERFLOW, ZERO};
use spc700_alu::{BitKind, LogicKind, ShiftKind};

/// The instruction of an opcode by its low digit: a line for the digits of each operation. The last arm is that of the digit F: as no
/// other digit is left, none is tested for.
macro_rules! instruction_of {
    ($cpu:ident, $bus:ident, $high:literal, $low:ident, $($($digit:literal)|+ => $operation:expr,)* _ => $last:expr) => {
        match $low {
            $($($digit => execute_whole($cpu, $bus, $high + $digit, $operation),)+)*
            _ => $last,
        }
    };
}

/// The opcodes 0x00 to 0x0F.
#[inline]
pub fn from_00<B: Bus, const LOW: usize>(cpu: &mut Cpu, bus: &mut B)
    requires room { HasAccessesLeft 12 B.means bus.old }
    requires digit { LOW < 16 }
    ensures { (opcode : ℕ) → opcode ≡ 0x00 + LOW → IsWholeInstruction B.means (row_of opcode) cpu.old bus.old cpu.new bus.new }
{
    instruction_of!(cpu, bus, 0x00, LOW,
        0x0 => Nop,
        0x1 => TableCall,
        0x2 => BitInPlace(BitKind::Set),
        0x3 => BranchOnBit(true),
        0x4 | 0x5 | 0x6 | 0x7 | 0x8 | 0x9 => Calculate(LogicKind::Or),
        0xA => BitToCarry(BitKind::Or),
        0xB | 0xC => Shift(ShiftKind::Asl),
        0xD => Push,
        0xE => TestAndSet,
        _ => execute_whole(cpu, bus, 0x0F, Break)
    )
}

/// The opcodes 0x10 to 0x1F.
#[inline]
pub fn from_10<B: Bus, const LOW: usize>(cpu: &mut Cpu, bus: &mut B)
    requires room { HasAccessesLeft 12 B.means bus.old }
    requires digit { LOW < 16 }
    ensures { (opcode : ℕ) → opcode ≡ 0x10 + LOW → IsWholeInstruction B.means (row_of opcode) cpu.old bus.old cpu.new bus.new }
{
    instruction_of!(cpu, bus, 0x10, LOW,
        0x0 => BranchOnFlag { mask: NEGATIVE, on: false },
        0x1 => TableCall,
        0x2 => BitInPlace(BitKind::Clear),
        0x3 => BranchOnBit(false),
        0x4 | 0x5 | 0x6 | 0x7 | 0x8 | 0x9 => Calculate(LogicKind::Or),
        0xA => WordDown,
        0xB | 0xC => Shift(ShiftKind::Asl),
        0xD => Down,
        0xE => Compare,
        _ => execute_whole(cpu, bus, 0x1F, Jump)
    )
}

/// The opcodes 0x20 to 0x2F.
#[inline]
pub fn from_20<B: Bus, const LOW: usize>(cpu: &mut Cpu, bus: &mut B)
    requires room { HasAccessesLeft 12 B.means bus.old }
    requires digit { LOW < 16 }
    ensures { (opcode : ℕ) → opcode ≡ 0x20 + LOW → IsWholeInstruction B.means (row_of opcode) cpu.old bus.old cpu.new bus.new }
{
    instruction_of!(cpu, bus, 0x20, LOW,
        0x0 => PutFlag { mask: DIRECT_PAGE, on: false },
        0x1 => TableCall,
        0x2 => BitInPlace(BitKind::Set),
        0x3 => BranchOnBit(true),
        0x4 | 0x5 | 0x6 | 0x7 | 0x8 | 0x9 => Calculate(LogicKind::And),
        0xA => BitToCarry(BitKind::OrNot),
        0xB | 0xC => Shift(ShiftKind::Rol),
        0xD => Push,
        0xE => BranchIfDifferent,
        _ => execute_whole(cpu, bus, 0x2F, BranchAlways)
    )
}

/// The opcodes 0x30 to 0x3F.
#[inline]
pub fn from_30<B: Bus, const LOW: usize>(cpu: &mut Cpu, bus: &mut B)
    requires room { HasAccessesLeft 12 B.means bus.old }
    requires digit { LOW < 16 }
    ensures { (opcode : ℕ) → opcode ≡ 0x30 + LOW → IsWholeInstruction B.means (row_of opcode) cpu.old bus.old cpu.new bus.new }
{
    instruction_of!(cpu, bus, 0x30, LOW,
        0x0 => BranchOnFlag { mask: NEGATIVE, on: true },
        0x1 => TableCall,
        0x2 => BitInPlace(BitKind::Clear),
        0x3 => BranchOnBit(false),
        0x4 | 0x5 | 0x6 | 0x7 | 0x8 | 0x9 => Calculate(LogicKind::And),
        0xA => WordUp,
        0xB | 0xC => Shift(ShiftKind::Rol),
        0xD => Up,
        0xE => Compare,
        _ => execute_whole(cpu, bus, 0x3F, Call)
    )
}

/// The opcodes 0x40 to 0x4F.
#[inline]
pub fn from_40<B: Bus, const LOW: usize>(cpu: &mut Cpu, bus: &mut B)
    requires room { HasAccessesLeft 12 B.means bus.old }
    requires digit { LOW < 16 }
    ensures { (opcode : ℕ) → opcode ≡ 0x40 + LOW → IsWholeInstruction B.means (row_of opcode) cpu.old bus.old cpu.new bus.new }
{
    instruction_of!(cpu, bus, 0x40, LOW,
        0x0 => PutFlag { mask: DIRECT_PAGE, on: true },
        0x1 => TableCall,
        0x2 => BitInPlace(BitKind::Set),
        0x3 => BranchOnBit(true),
        0x4 | 0x5 | 0x6 | 0x7 | 0x8 | 0x9 => Calculate(LogicKind::Eor),
        0xA => BitToCarry(BitKind::And),
        0xB | 0xC => Shift(ShiftKind::Lsr),
        0xD => Push,
        0xE => TestAndClear,
        _ => execute_whole(cpu, bus, 0x4F, Call)
    )
}

/// The opcodes 0x50 to 0x5F.
#[inline]
pub fn from_50<B: Bus, const LOW: usize>(cpu: &mut Cpu, bus: &mut B)
    requires room { HasAccessesLeft 12 B.means bus.old }
    requires digit { LOW < 16 }
    ensures { (opcode : ℕ) → opcode ≡ 0x50 + LOW → IsWholeInstruction B.means (row_of opcode) cpu.old bus.old cpu.new bus.new }
{
    instruction_of!(cpu, bus, 0x50, LOW,
        0x0 => BranchOnFlag { mask: OVERFLOW, on: false },
        0x1 => TableCall,
        0x2 => BitInPlace(BitKind::Clear),
        0x3 => BranchOnBit(false),
        0x4 | 0x5 | 0x6 | 0x7 | 0x8 | 0x9 => Calculate(LogicKind::Eor),
        0xA => WordCalculation::Compare,
        0xB | 0xC => Shift(ShiftKind::Lsr),
        0xD => Move,
        0xE => Compare,
        _ => execute_whole(cpu, bus, 0x5F, Jump)
    )
}

/// The opcodes 0x60 to 0x6F.
#[inline]
pub fn from_60<B: Bus, const LOW: usize>(cpu: &mut Cpu, bus: &mut B)
    requires room { HasAccessesLeft 12 B.means bus.old }
    requires digit { LOW < 16 }
    ensures { (opcode : ℕ) → opcode ≡ 0x60 + LOW → IsWholeInstruction B.means (row_of opcode) cpu.old bus.old cpu.new bus.new }
{
    instruction_of!(cpu, bus, 0x60, LOW,
        0x0 => PutFlag { mask: CARRY, on: false },
        0x1 => TableCall,
        0x2 => BitInPlace(BitKind::Set),
        0x3 => BranchOnBit(true),
        0x4 | 0x5 | 0x6 | 0x7 | 0x8 | 0x9 => Compare,
        0xA => BitToCarry(BitKind::AndNot),
        0xB | 0xC => Shift(ShiftKind::Ror),
        0xD => Push,
        0xE => Dbnz,
        _ => execute_whole(cpu, bus, 0x6F, Return)
    )
}

/// The opcodes 0x70 to 0x7F.
#[inline]
pub fn from_70<B: Bus, const LOW: usize>(cpu: &mut Cpu, bus: &mut B)
    requires room { HasAccessesLeft 12 B.means bus.old }
    requires digit { LOW < 16 }
    ensures { (opcode : ℕ) → opcode ≡ 0x70 + LOW → IsWholeInstruction B.means (row_of opcode) cpu.old bus.old cpu.new bus.new }
{
    instruction_of!(cpu, bus, 0x70, LOW,
        0x0 => BranchOnFlag { mask: OVERFLOW, on: true },
        0x1 => TableCall,
        0x2 => BitInPlace(BitKind::Clear),
        0x3 => BranchOnBit(false),
        0x4 | 0x5 | 0x6 | 0x7 | 0x8 | 0x9 | 0xE => Compare,
        0xA => WordCalculation::Add,
        0xB | 0xC => Shift(ShiftKind::Ror),
        0xD => Move,
        _ => execute_whole(cpu, bus, 0x7F, InterruptReturn)
    )
}

/// The opcodes 0x80 to 0x8F.
#[inline]
pub fn from_80<B: Bus, const LOW: usize>(cpu: &mut Cpu, bus: &mut B)
    requires room { HasAccessesLeft 12 B.means bus.old }
    requires digit { LOW < 16 }
    ensures { (opcode : ℕ) → opcode ≡ 0x80 + LOW → IsWholeInstruction B.means (row_of opcode) cpu.old bus.old cpu.new bus.new }
{
    instruction_of!(cpu, bus, 0x80, LOW,
        0x0 => PutFlag { mask: CARRY, on: true },
        0x1 => TableCall,
        0x2 => BitInPlace(BitKind::Set),
        0x3 => BranchOnBit(true),
        0x4 | 0x5 | 0x6 | 0x7 | 0x8 | 0x9 => Calculate(Adc),
        0xA => BitToCarry(BitKind::Eor),
        0xB | 0xC => Down,
        0xD => Move,
        0xE => Pop,
        _ => execute_whole(cpu, bus, 0x8F, Move)
    )
}

/// The opcodes 0x90 to 0x9F.
#[inline]
pub fn from_90<B: Bus, const LOW: usize>(cpu: &mut Cpu, bus: &mut B)
    requires room { HasAccessesLeft 12 B.means bus.old }
    requires digit { LOW < 16 }
    ensures { (opcode : ℕ) → opcode ≡ 0x90 + LOW → IsWholeInstruction B.means (row_of opcode) cpu.old bus.old cpu.new bus.new }
{
    instruction_of!(cpu, bus, 0x90, LOW,
        0x0 => BranchOnFlag { mask: CARRY, on: false },
        0x1 => TableCall,
        0x2 => BitInPlace(BitKind::Clear),
        0x3 => BranchOnBit(false),
        0x4 | 0x5 | 0x6 | 0x7 | 0x8 | 0x9 => Calculate(Adc),
        0xA => WordCalculation::Subtract,
        0xB | 0xC => Down,
        0xD => Move,
        0xE => Divide,
        _ => execute_whole(cpu, bus, 0x9F, Exchange)
    )
}

/// The opcodes 0xA0 to 0xAF.
#[inline]
pub fn from_a0<B: Bus, const LOW: usize>(cpu: &mut Cpu, bus: &mut B)
    requires room { HasAccessesLeft 12 B.means bus.old }
    requires digit { LOW < 16 }
    ensures { (opcode : ℕ) → opcode ≡ 0xA0 + LOW → IsWholeInstruction B.means (row_of opcode) cpu.old bus.old cpu.new bus.new }
{
    instruction_of!(cpu, bus, 0xA0, LOW,
        0x0 => PutFlag { mask: INTERRUPT, on: true },
        0x1 => TableCall,
        0x2 => BitInPlace(BitKind::Set),
        0x3 => BranchOnBit(true),
        0x4 | 0x5 | 0x6 | 0x7 | 0x8 | 0x9 => Calculate(Sbc),
        0xA => BitToCarry(BitKind::Load),
        0xB | 0xC => Up,
        0xD => Compare,
        0xE => Pop,
        _ => execute_whole(cpu, bus, 0xAF, Move)
    )
}

/// The opcodes 0xB0 to 0xBF.
#[inline]
pub fn from_b0<B: Bus, const LOW: usize>(cpu: &mut Cpu, bus: &mut B)
    requires room { HasAccessesLeft 12 B.means bus.old }
    requires digit { LOW < 16 }
    ensures { (opcode : ℕ) → opcode ≡ 0xB0 + LOW → IsWholeInstruction B.means (row_of opcode) cpu.old bus.old cpu.new bus.new }
{
    instruction_of!(cpu, bus, 0xB0, LOW,
        0x0 => BranchOnFlag { mask: CARRY, on: true },
        0x1 => TableCall,
        0x2 => BitInPlace(BitKind::Clear),
        0x3 => BranchOnBit(false),
        0x4 | 0x5 | 0x6 | 0x7 | 0x8 | 0x9 => Calculate(Sbc),
        0xA => WordCalculation::Load,
        0xB | 0xC => Up,
        0xD => Move,
        0xE => Das,
        _ => execute_whole(cpu, bus, 0xBF, Move)
    )
}

/// The opcodes 0xC0 to 0xCF.
#[inline]
pub fn from_c0<B: Bus, const LOW: usize>(cpu: &mut Cpu, bus: &mut B)
    requires room { HasAccessesLeft 12 B.means bus.old }
    requires digit { LOW < 16 }
    ensures { (opcode : ℕ) → opcode ≡ 0xC0 + LOW → IsWholeInstruction B.means (row_of opcode) cpu.old bus.old cpu.new bus.new }
{
    instruction_of!(cpu, bus, 0xC0, LOW,
        0x0 => PutFlag { mask: INTERRUPT, on: false },
        0x1 => TableCall,
        0x2 => BitInPlace(BitKind::Set),
        0x3 => BranchOnBit(true),
        0x4 | 0x5 | 0x6 | 0x7 | 0x9 | 0xB | 0xC | 0xD => Move,
        0x8 => Compare,
        0xA => BitInPlace(BitKind::Store),
        0xE => Pop,
        _ => execute_whole(cpu, bus, 0xCF, Multiply)
    )
}

/// The opcodes 0xD0 to 0xDF.
#[inline]
pub fn from_d0<B: Bus, const LOW: usize>(cpu: &mut Cpu, bus: &mut B)
    requires room { HasAccessesLeft 12 B.means bus.old }
    requires digit { LOW < 16 }
    ensures { (opcode : ℕ) → opcode ≡ 0xD0 + LOW → IsWholeInstruction B.means (row_of opcode) cpu.old bus.old cpu.new bus.new }
{
    instruction_of!(cpu, bus, 0xD0, LOW,
        0x0 => BranchOnFlag { mask: ZERO, on: false },
        0x1 => TableCall,
        0x2 => BitInPlace(BitKind::Clear),
        0x3 => BranchOnBit(false),
        0x4 | 0x5 | 0x6 | 0x7 | 0x8 | 0x9 | 0xB | 0xD => Move,
        0xA => MoveWord,
        0xC => Down,
        0xE => BranchIfDifferent,
        _ => execute_whole(cpu, bus, 0xDF, Daa)
    )
}

/// The opcodes 0xE0 to 0xEF.
#[inline]
pub fn from_e0<B: Bus, const LOW: usize>(cpu: &mut Cpu, bus: &mut B)
    requires room { HasAccessesLeft 12 B.means bus.old }
    requires digit { LOW < 16 }
    ensures { (opcode : ℕ) → opcode ≡ 0xE0 + LOW → IsWholeInstruction B.means (row_of opcode) cpu.old bus.old cpu.new bus.new }
{
    instruction_of!(cpu, bus, 0xE0, LOW,
        0x0 => ClearOverflow,
        0x1 => TableCall,
        0x2 => BitInPlace(BitKind::Set),
        0x3 => BranchOnBit(true),
        0x4 | 0x5 | 0x6 | 0x7 | 0x8 | 0x9 | 0xB | 0xC => Move,
        0xA => BitInPlace(BitKind::Not),
        0xD => Notc,
        0xE => Pop,
        _ => halt(cpu, bus, 0xEF)
    )
}

/// The opcodes 0xF0 to 0xFF.
#[inline]
pub fn from_f0<B: Bus, const LOW: usize>(cpu: &mut Cpu, bus: &mut B)
    requires room { HasAccessesLeft 12 B.means bus.old }
    requires digit { LOW < 16 }
    ensures { (opcode : ℕ) → opcode ≡ 0xF0 + LOW → IsWholeInstruction B.means (row_of opcode) cpu.old bus.old cpu.new bus.new }
{
    instruction_of!(cpu, bus, 0xF0, LOW,
        0x0 => BranchOnFlag { mask: ZERO, on: true },
        0x1 => TableCall,
        0x2 => BitInPlace(BitKind::Clear),
        0x3 => BranchOnBit(false),
        0x4 | 0x5 | 0x6 | 0x7 | 0x8 | 0x9 | 0xA | 0xB | 0xD => Move,
        0xC => Up,
        0xE => Dbnz,
        _ => halt(cpu, bus, 0xFF)
    )
}

//! The stack: page 1, downwards.
//!
//! Everything here is inlined into the arm of its opcode, where the row is a constant: no form is distinguished there at run time.

ghost use Rattle.std.specs.Prelude.{◌≡◌, ◌+◌, ◌-◌, ◌/◌, ◌%◌};
ghost use Rattle.spc700_exec.specs.Bus.{byte_read, after_read, after_write};
ghost use Rattle.spc700_exec.specs.Operands.{sp_after_push, sp_after_pop};
ghost use Rattle.spc700_exec.specs.Pieces.{HasAccessesLeft, IsWithin, word_read, after_word, after_word_push};

use crate::access::{read, write};
use crate::bus::Bus;
use crate::cpu::Cpu;

/// Pushes a byte.
#[inline(always)]
pub fn push<B: Bus>(cpu: &mut Cpu, bus: &mut B, value: u8)
    requires { HasAccessesLeft 1 B.means bus.old }
    ensures bus { bus.new ≡ after_write B.means (0x100 + cpu.old.sp) value bus.old }
    ensures cpu { cpu.new ≡ record cpu.old { sp = sp_after_push cpu.old.sp } }
    ensures within { IsWithin 1 B.means bus.old bus.new }
{
    write(bus, 0x100 + cpu.sp as u16, value);
    cpu.sp = cpu.sp.wrapping_sub(1);
}

/// Pushes a word, high then low.
#[inline(always)]
pub fn push_word<B: Bus>(cpu: &mut Cpu, bus: &mut B, value: u16)
    requires { HasAccessesLeft 2 B.means bus.old }
    ensures bus { bus.new ≡ after_word_push B.means cpu.old.sp value bus.old }
    ensures cpu { cpu.new ≡ record cpu.old { sp = sp_after_push (sp_after_push cpu.old.sp) } }
    ensures within { IsWithin 2 B.means bus.old bus.new }
{
    push(cpu, bus, (value / 0x100) as u8);
    push(cpu, bus, (value % 0x100) as u8);
}

/// Pops a byte.
#[inline(always)]
pub fn pop<B: Bus>(cpu: &mut Cpu, bus: &mut B) -> u8
    requires { HasAccessesLeft 1 B.means bus.old }
    ensures byte { result ≡ byte_read B.means (0x100 + sp_after_pop cpu.old.sp) bus.old }
    ensures bus { bus.new ≡ after_read B.means (0x100 + sp_after_pop cpu.old.sp) bus.old }
    ensures cpu { cpu.new ≡ record cpu.old { sp = sp_after_pop cpu.old.sp } }
    ensures within { IsWithin 1 B.means bus.old bus.new }
{
    cpu.sp = cpu.sp.wrapping_add(1);
    read(bus, 0x100 + cpu.sp as u16)
}

/// Pops a word, low then high.
#[inline(always)]
pub fn pop_word<B: Bus>(cpu: &mut Cpu, bus: &mut B) -> u16
    requires { HasAccessesLeft 2 B.means bus.old }
    ensures word { let sp = sp_after_pop cpu.old.sp in result ≡ word_read B.means (0x100 + sp) (0x100 + sp_after_pop sp) bus.old }
    ensures bus { let sp = sp_after_pop cpu.old.sp in bus.new ≡ after_word B.means (0x100 + sp) (0x100 + sp_after_pop sp) bus.old }
    ensures cpu { cpu.new ≡ record cpu.old { sp = sp_after_pop (sp_after_pop cpu.old.sp) } }
    ensures within { IsWithin 2 B.means bus.old bus.new }
{
    let low = pop(cpu, bus);
    let high = pop(cpu, bus);
    low as u16 + 0x100 * high as u16
}

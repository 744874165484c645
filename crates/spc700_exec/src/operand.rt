//! Operands: the bytes that a form reads, the operand that it names, and the byte or word there.
//!
//! Everything here is inlined into the arm of its opcode, where the row is a constant: no form is distinguished there at run time.

ghost use Rattle.std.specs.Prelude.{◌≡◌, ◌+◌, ◌/◌, ◌%◌, ◌^◌, ◌<◌, ◌≤◌, if◌then◌else◌};
ghost use Rattle.spc700_table.specs.Opcodes.{operand_bytes};
ghost use Rattle.spc700_exec.specs.Bus.{byte_read, after_read};
ghost use Rattle.spc700_exec.specs.Operands.{with_next_pc, direct, next_in_page, fetched_bytes, named, addressed, both_addressed, loaded, stored, address_of, bit_of};
ghost use Rattle.spc700_exec.specs.Pieces.{HasAccessesLeft, IsWithin, Gives, GivesValue, GivesCpu, word_read, after_word, after_word_write, in_page, pointer_of, word_followed, after_pointer, FormFits, OperandFits};

use crate::access::{read, write};
use crate::bus::Bus;
use crate::cpu::Cpu;
use spc700_alu::flags::{DIRECT_PAGE, is_set};
use spc700_table::{Form, OpRow, byte_count, is_in_text_order};

/// An operand, once the bytes that name it were read.
#[derive(Clone, Copy)]
pub enum Operand {
    /// The register A.
    A,
    /// The register X.
    X,
    /// The register Y.
    Y,
    /// The stack pointer.
    Sp,
    /// The status.
    Psw,
    /// A byte that came with the instruction.
    Value(u8),
    /// The byte or the word at an address.
    At(u16),
    /// A bit, 0 to 7, of the byte at an address.
    BitAt(u16, u8),
    /// What the instruction alone says: none, YA or C.
    Implied,
}

/// The two operands of an instruction.
#[derive(Clone, Copy)]
pub struct Both {
    pub first: Operand,
    pub second: Operand,
}

/// The byte at PC, and PC goes on.
#[inline(always)]
pub fn fetch<B: Bus>(cpu: &mut Cpu, bus: &mut B) -> u8
    requires { HasAccessesLeft 1 B.means bus.old }
    ensures byte { result ≡ byte_read B.means cpu.old.pc bus.old }
    ensures bus { bus.new ≡ after_read B.means cpu.old.pc bus.old }
    ensures cpu { cpu.new ≡ with_next_pc cpu.old }
    ensures within { IsWithin 1 B.means bus.old bus.new }
{
    let byte = read(bus, cpu.pc);
    cpu.pc = cpu.pc.wrapping_add(1);
    byte
}

/// So many bytes at PC as a number, low byte first, and PC goes on.
#[inline(always)]
fn fetch_bytes<B: Bus>(cpu: &mut Cpu, bus: &mut B, count: u8) -> u16
    requires room { HasAccessesLeft 2 B.means bus.old }
    requires few { count ≤ 2 }
    ensures gives { Gives B.means (fetched_bytes count cpu.old) bus.old result cpu.new bus.new }
    ensures fits { result < 0x100 ^ count }
    ensures within { IsWithin 2 B.means bus.old bus.new }
{
    if count == 0 {
        return 0;
    }
    let low = u16::from(fetch(cpu, bus));
    if count == 1 {
        return low;
    }
    low + 0x100 * u16::from(fetch(cpu, bus))
}

/// The word at two addresses, low then high.
#[inline(always)]
fn read_word<B: Bus>(bus: &mut B, at_low: u16, at_high: u16) -> u16
    requires { HasAccessesLeft 2 B.means bus.old }
    ensures word { result ≡ word_read B.means at_low at_high bus.old }
    ensures bus { bus.new ≡ after_word B.means at_low at_high bus.old }
    ensures within { IsWithin 2 B.means bus.old bus.new }
{
    let low = read(bus, at_low);
    let high = read(bus, at_high);
    low as u16 + 0x100 * high as u16
}

/// The address of a byte of the direct page.
#[inline(always)]
fn direct_address(cpu: &Cpu, d: u8) -> u16
    ensures { result ≡ direct cpu.now d }
{
    if is_set(cpu.psw, DIRECT_PAGE) {
        0x100 + d as u16
    } else {
        d as u16
    }
}

/// The next address, which wraps in its page.
#[inline(always)]
fn next_in_its_page(at: u16) -> u16
    ensures { result ≡ next_in_page at }
{
    at / 0x100 * 0x100 + at.wrapping_add(1) % 0x100
}

/// Where the word of a pointer stands: the addresses of its low and of its high byte.
#[derive(Clone, Copy)]
pub struct Pointer {
    pub low: u16,
    pub high: u16,
}

/// The pointer at an address, whose high byte is at the next one of its page.
#[inline(always)]
fn pointer_in_page(at: u16) -> Pointer
    ensures { result ≡ in_page at }
{
    Pointer {
        low: at,
        high: next_in_its_page(at),
    }
}

/// The pointer of a form that has one, by the bytes after the opcode.
#[inline(always)]
fn pointer_of(cpu: &Cpu, form: Form, bytes: u16) -> Option<Pointer>
    ensures { result ≡ pointer_of form bytes cpu.now }
{
    let byte = (bytes % 0x100) as u8;
    match form {
        Form::IndX => Some(pointer_in_page(direct_address(cpu, byte.wrapping_add(cpu.x)))),
        Form::IndY => Some(pointer_in_page(direct_address(cpu, byte))),
        Form::AbsPtrX => {
            let low = bytes.wrapping_add(u16::from(cpu.x));
            Some(Pointer {
                low,
                high: low.wrapping_add(1),
            })
        }
        _ => None,
    }
}

/// The word of a form's pointer, or the bytes after the opcode of a form that has none.
// Every pointer is read in one place, whatever the form: so what addresses an operand is small enough to be inlined.
#[inline(always)]
fn follow<B: Bus>(bus: &mut B, pointer: Option<Pointer>, bytes: u16) -> u16
    requires { HasAccessesLeft 2 B.means bus.old }
    ensures word { result ≡ word_followed B.means pointer bytes bus.old }
    ensures bus { bus.new ≡ after_pointer B.means pointer bus.old }
    ensures within { IsWithin 2 B.means bus.old bus.new }
{
    match pointer {
        Some(at) => read_word(bus, at.low, at.high),
        None => bytes,
    }
}

/// The word whose low byte is at an address and whose high byte is at the next one of its page.
#[inline(always)]
fn read_word_in_page<B: Bus>(bus: &mut B, at: u16) -> u16
    requires { HasAccessesLeft 2 B.means bus.old }
    ensures word { result ≡ word_read B.means at (next_in_page at) bus.old }
    ensures bus { bus.new ≡ after_word B.means at (next_in_page at) bus.old }
    ensures within { IsWithin 2 B.means bus.old bus.new }
{
    read_word(bus, at, next_in_its_page(at))
}

/// The operand that a form names by the bytes after the opcode. Those of a pointer are read here.
#[inline(always)]
fn name<B: Bus>(cpu: &mut Cpu, bus: &mut B, form: Form, bytes: u16) -> Operand
    requires room { HasAccessesLeft 2 B.means bus.old }
    requires form { FormFits form }
    requires bytes { bytes < 0x100 ^ operand_bytes form }
    ensures gives { Gives B.means (named form bytes cpu.old) bus.old result cpu.new bus.new }
    ensures fits { OperandFits result }
    ensures within { IsWithin 2 B.means bus.old bus.new }
{
    let word = follow(bus, pointer_of(cpu, form, bytes), bytes);
    let (x, y) = (cpu.x, cpu.y);
    let byte = (bytes % 0x100) as u8;
    match form {
        Form::A => Operand::A,
        Form::X => Operand::X,
        Form::Y => Operand::Y,
        Form::Sp => Operand::Sp,
        Form::Psw => Operand::Psw,
        Form::Ya | Form::Carry | Form::None => Operand::Implied,
        Form::Imm | Form::Rel => Operand::Value(byte),
        Form::Direct => Operand::At(direct_address(cpu, byte)),
        Form::DirectX => Operand::At(direct_address(cpu, byte.wrapping_add(x))),
        Form::DirectY => Operand::At(direct_address(cpu, byte.wrapping_add(y))),
        Form::DirectBit(bit) => Operand::BitAt(direct_address(cpu, byte), bit),
        Form::Upper => Operand::At(0xff00 + u16::from(byte)),
        Form::Abs | Form::IndX | Form::AbsPtrX => Operand::At(word),
        Form::AbsX => Operand::At(word.wrapping_add(u16::from(x))),
        Form::AbsY | Form::IndY => Operand::At(word.wrapping_add(u16::from(y))),
        Form::Bit | Form::NotBit => Operand::BitAt(bytes % 0x2000, (bytes / 0x2000) as u8),
        Form::PtrX => Operand::At(direct_address(cpu, x)),
        Form::PtrY => Operand::At(direct_address(cpu, y)),
        Form::PtrXInc => {
            cpu.x = x.wrapping_add(1);
            Operand::At(direct_address(cpu, x))
        }
        Form::Table(n) => Operand::At(0xffde - 2 * u16::from(n)),
    }
}

/// Reads the operand bytes of a form, then its pointer bytes, and gives the operand.
// The bytes are read in one place, whatever the form: so it is small enough to be inlined.
#[inline(always)]
pub fn address<B: Bus>(cpu: &mut Cpu, bus: &mut B, form: Form) -> Operand
    requires room { HasAccessesLeft 4 B.means bus.old }
    requires form { FormFits form }
    ensures gives { Gives B.means (addressed form cpu.old) bus.old result cpu.new bus.new }
    ensures fits { OperandFits result }
    ensures within { IsWithin 4 B.means bus.old bus.new }
{
    let bytes = fetch_bytes(cpu, bus, byte_count(form));
    name(cpu, bus, form, bytes)
}

/// One of two things, by a test.
#[inline(always)]
fn chosen<T: Copy>(test: bool, one: T, other: T) -> T
    ensures { result ≡ (if test then one else other) }
{
    if test { one } else { other }
}

/// Reads the bytes of both operands in the order in which they stand, and gives the operands.
// Each operand is addressed in one place, whichever comes first.
#[inline(always)]
pub fn address_both<B: Bus>(cpu: &mut Cpu, bus: &mut B, row: OpRow) -> Both
    requires room { HasAccessesLeft 8 B.means bus.old }
    requires first { FormFits row.first }
    requires second { FormFits row.second }
    ensures gives { Gives B.means (both_addressed row cpu.old) bus.old result cpu.new bus.new }
    ensures fits { OperandFits result.first }
    ensures within { IsWithin 8 B.means bus.old bus.new }
{
    let in_text_order = is_in_text_order(&row);
    let earlier = address(cpu, bus, chosen(in_text_order, row.first, row.second));
    let later = address(cpu, bus, chosen(in_text_order, row.second, row.first));
    Both {
        first: chosen(in_text_order, earlier, later),
        second: chosen(in_text_order, later, earlier),
    }
}

/// The byte of an operand.
#[inline(always)]
pub fn load<B: Bus>(cpu: &Cpu, bus: &mut B, operand: Operand) -> u8
    requires { HasAccessesLeft 1 B.means bus.old }
    ensures gives { GivesValue B.means (loaded operand cpu.now) bus.old result bus.new }
    ensures within { IsWithin 1 B.means bus.old bus.new }
{
    match operand {
        Operand::A => cpu.a,
        Operand::X => cpu.x,
        Operand::Y => cpu.y,
        Operand::Sp => cpu.sp,
        Operand::Psw => cpu.psw,
        Operand::Value(byte) => byte,
        Operand::At(at) | Operand::BitAt(at, _) => read(bus, at),
        Operand::Implied => 0,
    }
}

/// Puts a byte into an operand.
#[inline(always)]
pub fn store<B: Bus>(cpu: &mut Cpu, bus: &mut B, operand: Operand, value: u8)
    requires { HasAccessesLeft 1 B.means bus.old }
    ensures gives { GivesCpu B.means (stored operand value cpu.old) bus.old cpu.new bus.new }
    ensures within { IsWithin 1 B.means bus.old bus.new }
{
    match operand {
        Operand::A => cpu.a = value,
        Operand::X => cpu.x = value,
        Operand::Y => cpu.y = value,
        Operand::Sp => cpu.sp = value,
        Operand::Psw => cpu.psw = value,
        Operand::At(at) | Operand::BitAt(at, _) => write(bus, at, value),
        Operand::Value(_) | Operand::Implied => {}
    }
}

/// The address of an operand in memory; 0 for one elsewhere.
#[inline(always)]
pub fn address_in_memory(operand: Operand) -> u16
    ensures { result ≡ address_of operand }
{
    match operand {
        Operand::At(at) | Operand::BitAt(at, _) => at,
        _ => 0,
    }
}

/// The bit of an operand; 0 for one without a bit.
#[inline(always)]
pub fn bit_number(operand: Operand) -> u8
    requires { OperandFits operand }
    ensures bit { result ≡ bit_of operand }
    ensures below { result < 8 }
{
    match operand {
        Operand::BitAt(_, bit) => bit,
        _ => 0,
    }
}

/// The word of an operand, low then high.
#[inline(always)]
pub fn load_word<B: Bus>(bus: &mut B, operand: Operand) -> u16
    requires { HasAccessesLeft 2 B.means bus.old }
    ensures word { result ≡ word_read B.means (address_of operand) (next_in_page (address_of operand)) bus.old }
    ensures bus { bus.new ≡ after_word B.means (address_of operand) (next_in_page (address_of operand)) bus.old }
    ensures within { IsWithin 2 B.means bus.old bus.new }
{
    read_word_in_page(bus, address_in_memory(operand))
}

/// Puts a word into an operand, low then high.
#[inline(always)]
pub fn store_word<B: Bus>(bus: &mut B, operand: Operand, value: u16)
    requires { HasAccessesLeft 2 B.means bus.old }
    ensures bus { bus.new ≡ after_word_write B.means (address_of operand) (next_in_page (address_of operand)) value bus.old }
    ensures within { IsWithin 2 B.means bus.old bus.new }
{
    let at = address_in_memory(operand);
    write(bus, at, (value % 0x100) as u8);
    write(bus, next_in_its_page(at), (value / 0x100) as u8);
}

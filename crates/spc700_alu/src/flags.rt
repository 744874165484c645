//! The status byte PSW (Anomie's SPC700 Doc, the processor's flags).
//!
//! Each operation is inlined into the arm of its opcode, where its kind is a constant.

ghost use Rattle.std.specs.Prelude.{◌≡◌};
ghost use Rattle.spc700_alu.specs.Flags.{flag, carry_in, with_flag, with_nz, with_nz16};

/// N: the result is negative.
pub const NEGATIVE: u8 = 0x80;

/// V: signed overflow.
pub const OVERFLOW: u8 = 0x40;

/// P: the direct page is page 1.
pub const DIRECT_PAGE: u8 = 0x20;

/// B: BRK was the cause.
pub const BREAK: u8 = 0x10;

/// H: carry out of bit 3, of a word out of bit 11.
pub const HALF: u8 = 0x08;

/// I: interrupts are on.
pub const INTERRUPT: u8 = 0x04;

/// Z: the result is 0.
pub const ZERO: u8 = 0x02;

/// C: carry.
pub const CARRY: u8 = 0x01;

/// Whether the bit of a mask is set in a byte.
#[inline]
pub fn is_set(byte: u8, mask: u8) -> bool
    ensures { result ≡ flag mask byte }
{
    byte & mask != 0
}

/// The byte with the bit of a mask set or cleared.
#[inline]
pub fn put(byte: u8, mask: u8, on: bool) -> u8
    ensures { result ≡ with_flag mask on byte }
{
    if on { byte | mask } else { byte & !mask }
}

/// 1 where C is set, else 0.
#[inline]
pub fn carry(psw: u8) -> u8
    ensures { result ≡ carry_in psw }
{
    if is_set(psw, CARRY) { 1 } else { 0 }
}

/// N and Z of each byte.
static NZ_OF_BYTE: [u8; 256] = [
    2, 0, 0, 0, 0, 0, 0, 0, 0, 0, 0, 0, 0, 0, 0, 0, 0, 0, 0, 0, 0, 0, 0, 0, 0, 0, 0, 0, 0, 0, 0, 0,
    0, 0, 0, 0, 0, 0, 0, 0, 0, 0, 0, 0, 0, 0, 0, 0, 0, 0, 0, 0, 0, 0, 0, 0, 0, 0, 0, 0, 0, 0, 0, 0,
    0, 0, 0, 0, 0, 0, 0, 0, 0, 0, 0, 0, 0, 0, 0, 0, 0, 0, 0, 0, 0, 0, 0, 0, 0, 0, 0, 0, 0, 0, 0, 0,
    0, 0, 0, 0, 0, 0, 0, 0, 0, 0, 0, 0, 0, 0, 0, 0, 0, 0, 0, 0, 0, 0, 0, 0, 0, 0, 0, 0, 0, 0, 0, 0,
    128, 128, 128, 128, 128, 128, 128, 128, 128, 128, 128, 128, 128, 128, 128, 128, 128, 128, 128,
    128, 128, 128, 128, 128, 128, 128, 128, 128, 128, 128, 128, 128, 128, 128, 128, 128, 128, 128,
    128, 128, 128, 128, 128, 128, 128, 128, 128, 128, 128, 128, 128, 128, 128, 128, 128, 128, 128,
    128, 128, 128, 128, 128, 128, 128, 128, 128, 128, 128, 128, 128, 128, 128, 128, 128, 128, 128,
    128, 128, 128, 128, 128, 128, 128, 128, 128, 128, 128, 128, 128, 128, 128, 128, 128, 128, 128,
    128, 128, 128, 128, 128, 128, 128, 128, 128, 128, 128, 128, 128, 128, 128, 128, 128, 128, 128,
    128, 128, 128, 128, 128, 128, 128, 128, 128, 128, 128, 128, 128, 128,
];

/// The status with N and Z of a byte.
#[inline]
pub fn put_nz(psw: u8, value: u8) -> u8
    ensures { result ≡ with_nz value psw }
{
    psw & !(NEGATIVE | ZERO) | NZ_OF_BYTE[value as usize]
}

/// The status with N and Z of a word.
#[inline]
pub fn put_nz16(psw: u8, value: u16) -> u8
    ensures { result ≡ with_nz16 value psw }
{
    put(put(psw, ZERO, value == 0), NEGATIVE, value >= 0x8000)
}

//! Sound in numbers: the arithmetic of 16-bit hardware, a stereo frame, and how many samples a sound and a batch have at most.
#![tactic(auto)]

ghost use Rattle.std.specs.Prelude.{◌≡◌, ◌<◌, ◌≤◌, ◌^◌, ◌-◌, ◌+ℤ◌, unsigned_abs};
ghost use Rattle.num_fix.specs.Arithmetic.{clamp16, wrap16, floor_shift, scaled, clear_bit0, sign4, sign8, has_bit};

/// One stereo sample: a signed 16-bit number for each side, 32,000 a second.
#[derive(Clone, Copy, Debug, PartialEq, Eq, Default)]
pub struct Frame {
    pub left: i16,
    pub right: i16,
}

/// The frames of a second.
pub const SAMPLE_RATE: u32 = 32000;

/// The most samples of a batch, in which the S-DSP makes its samples: a row has a place for each of them.
pub const BATCH_SIZE: usize = 64;

/// Limits a number to -32,768 and 32,767.
#[tactic(auto, unfolding(crate::specs::Arithmetic::clamp16))]
pub fn clamp16(v: i32) -> i16
    ensures { result ≡ clamp16 v }
{
    v.clamp(-32768, 32767) as i16
}

/// The low 16 bits, read as a signed number.
#[tactic(auto, unfolding(crate::specs::Arithmetic::wrap16))]
pub fn wrap16(v: i32) -> i16
    ensures { result ≡ wrap16 v }
{
    (v.rem_euclid(65536) as u16).cast_signed()
}

/// Divides by 2 to the n and rounds down; n is at most 31.
#[tactic(auto, unfolding(crate::specs::Arithmetic::floor_shift))]
pub fn sar(v: i32, n: u32) -> i32
    requires { n < 32 }
    ensures { result ≡ floor_shift v n }
{
    v >> n
}

/// The low four bits of a byte, read as a signed digit: -8 to 7.
#[tactic(auto, unfolding(crate::specs::Arithmetic::sign4))]
pub fn sign4(b: u8) -> i32
    ensures value { result ≡ sign4 b }
    ensures bound { unsigned_abs result ≤ 8 }
{
    i32::from((b << 4).cast_signed() >> 4)
}

/// A byte, read as a signed number: -128 to 127.
#[tactic(auto, unfolding(crate::specs::Arithmetic::sign8))]
pub fn sign8(b: u8) -> i32
    ensures value { result ≡ sign8 b }
    ensures bound { unsigned_abs result ≤ 128 }
{
    i32::from(b.cast_signed())
}

/// Clears bit 0: the next even number at or below.
#[tactic(auto, unfolding(crate::specs::Arithmetic::clear_bit0, crate::specs::Arithmetic::floor_shift))]
pub fn clear_bit0(v: i16) -> i16
    ensures { result ≡ clear_bit0 v }
{
    (v >> 1) * 2
}

/// The product of two 16-bit numbers divided by 2 to the n and rounded down; n is at most 30.
#[tactic(auto, unfolding(crate::specs::Arithmetic::scaled))]
pub fn scaled(a: i16, b: i16, n: u32) -> i32
    requires { n < 31 }
    ensures value { result ≡ scaled a b n }
    ensures bound { unsigned_abs result ≤ 2 ^ (30 - n) }
{
    sar(i32::from(a) * i32::from(b), n)
}

/// Half of a number, rounded down.
#[tactic(auto, unfolding(crate::specs::Arithmetic::floor_shift))]
pub fn half(v: i16) -> i16
    ensures { result ≡ floor_shift v 1 }
{
    v >> 1
}

/// The sum of two numbers, limited to 16 bits.
pub fn add_clamped(a: i16, b: i16) -> i16
    ensures { result ≡ clamp16 (a +ℤ b) }
{
    clamp16(i32::from(a) + i32::from(b))
}

/// Whether bit `bit` of a byte is set; bit 0 is the lowest.
pub fn has_bit(byte: u8, bit: u8) -> bool
    requires { bit < 8 }
    ensures { result ≡ has_bit byte bit }
{
    byte >> bit & 1 == 1
}

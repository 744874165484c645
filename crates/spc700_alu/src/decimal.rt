//! The decimal adjustments of A.

ghost use Rattle.std.specs.Prelude.{◌≡◌};
ghost use Rattle.spc700_alu.specs.Decimal.{daa_of, das_of};

use crate::Out8;
use crate::flags::{CARRY, HALF, is_set, put, put_nz};

/// DAA: makes the sum of two decimal numbers decimal.
#[tactic(auto, unfolding(crate::specs::Decimal::daa_of))]
pub fn daa(a: u8, psw: u8) -> Out8
    ensures { result ≡ daa_of a psw }
{
    let tens = is_set(psw, CARRY) || a > 0x99;
    let adjusted = if tens { a.wrapping_add(0x60) } else { a };
    let ones = is_set(psw, HALF) || adjusted % 0x10 > 9;
    let value = if ones {
        adjusted.wrapping_add(6)
    } else {
        adjusted
    };
    Out8 {
        value,
        psw: put_nz(put(psw, CARRY, tens), value),
    }
}

/// DAS: makes the difference of two decimal numbers decimal.
#[tactic(auto, unfolding(crate::specs::Decimal::das_of))]
pub fn das(a: u8, psw: u8) -> Out8
    ensures { result ≡ das_of a psw }
{
    let tens = !is_set(psw, CARRY) || a > 0x99;
    let adjusted = if tens { a.wrapping_sub(0x60) } else { a };
    let ones = !is_set(psw, HALF) || adjusted % 0x10 > 9;
    let value = if ones {
        adjusted.wrapping_sub(6)
    } else {
        adjusted
    };
    Out8 {
        value,
        psw: put_nz(put(psw, CARRY, !tens), value),
    }
}

//! The arithmetic of the SPC700: the result and the flags of each operation.
#![tactic(auto)]

pub mod bits;
pub mod bytes;
pub mod decimal;
pub mod flags;
mod laws;
pub mod word_arithmetic;

pub use bits::{BitKind, bitop};
pub use bytes::{LogicKind, ShiftKind, adc, bump, cmp, logic, sbc, shift};
pub use decimal::{daa, das};
pub use laws::{
    carry_is_out_of_range, decimal_sums_are_decimal, division_is_exact, flags_change_alone,
    other_flags_stay, overflow_is_out_of_range,
};
pub use word_arithmetic::{addw, cmpw, div, mul, subw};

/// A byte and the status after it was made.
#[derive(Clone, Copy, PartialEq, Eq)]
pub struct Out8 {
    /// The byte.
    pub value: u8,
    /// The status PSW.
    pub psw: u8,
}

/// A word and the status after it was made.
#[derive(Clone, Copy, PartialEq, Eq)]
pub struct Out16 {
    /// The word; of YA, Y is its high byte.
    pub value: u16,
    /// The status PSW.
    pub psw: u8,
}

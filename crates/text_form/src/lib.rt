//! Text and the numbers in it: bytes and words as hexadecimal digits, the number that decimal digits write, and the parts of a
//! text that is split at a character.
#![tactic(auto)]

mod decimals;
mod digits;
mod parts;

pub use decimals::{decimal_value, is_number};
pub use digits::{four_digits, two_digits};
pub use parts::{first_part, place_of};

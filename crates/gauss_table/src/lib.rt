//! The table of weights by which a voice interpolates its samples, and the interpolation.
#![tactic(auto)]

mod factors;
mod quad;
mod refusal;
mod short_taps;
mod table;
mod taps;

pub use factors::{
    Factors, factor_of, product_by_factor, product_by_high_factor, product_by_low_factor,
};
pub use quad::Quad;
pub use refusal::TableRefusal;
pub use short_taps::{Products, ShortTaps};
pub use std::alloc::AllocError as OutOfMemory;
pub use table::GaussTable;
pub use taps::Taps;

//! The interface of a sound chip: the trait of its calls, what they mean, the samples of any chip and the laws that each chip
//! keeps. No chip is named here.
#![tactic(auto)]

mod chip;
mod pages;

pub use chip::Chip;
pub use pages::ReachPages;

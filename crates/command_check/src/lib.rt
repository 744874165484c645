//! The command `check`: it renders a demo file for ten seconds and reports sums over its frames.
#![tactic(auto)]

mod command;
mod sums;

pub use command::check;
pub use sums::Sums;

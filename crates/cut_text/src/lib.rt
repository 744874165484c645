//! Texts that are read line by line: lists of cuts, and scripts.
#![tactic(auto)]

mod cuts;
pub mod lines;
mod lists;
mod refusal;
mod script;
mod script_reading;

pub use cuts::{CutList, read_cuts};
use lists::add;
pub use refusal::TextRefusal;
pub use script::ScriptLines;
pub use script_reading::read_script;

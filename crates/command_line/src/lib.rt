//! The words of the command line, and the command that they say.
#![tactic(auto)]

mod cut_words;
mod encode_words;
mod options;
mod session_words;
mod words;

pub use words::{Command, read_words};

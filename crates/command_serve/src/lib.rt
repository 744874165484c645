//! The command `serve`: it runs a script of seeks, plays and marks over a tune, writes what it plays to a sound file, and
//! replies to each line.
#![tactic(auto)]

mod command;
mod options;
mod script;

pub use command::serve;
pub use options::SessionOptions;

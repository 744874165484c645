//! The command `render`: it renders an SPC file over a table of weights to a sound file, and to a trace where it is wanted.
#![tactic(auto)]

mod command;
mod options;

pub use command::render;
pub use options::RenderOptions;

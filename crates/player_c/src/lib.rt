//! The player for C: exported functions, each with its contract.
#![tactic(auto)]

mod exports;
mod handle;
mod info;
mod keeping;
mod lending;
mod options;
mod owned_player;
mod parts;
mod pointer;
mod queries;
mod status;
mod tags;
mod threads;

pub use exports::{
    spcwave_close, spcwave_mark, spcwave_mute, spcwave_open, spcwave_play, spcwave_play_faded,
    spcwave_seek, spcwave_seek_some, spcwave_set_end,
};
pub use handle::SpcwavePlayer;
pub use info::{SpcwaveInfo, spcwave_inspect};
pub use options::SpcwaveOptions;
pub use owned_player::OwnedPlayer;
pub use pointer::SpcwavePointer;
pub use queries::{
    spcwave_free_pages, spcwave_length, spcwave_position, spcwave_registers, spcwave_tag,
    spcwave_tagged, spcwave_version, spcwave_voice,
};
pub use threads::a_handle_may_go_to_another_thread;

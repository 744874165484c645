//! The one trait of the outside, its hosts in memory, and the two loops over it; a list of calls that only contracts see.
#![tactic(auto)]

mod calls;
mod drip;
mod files;
mod host;
mod laws;
mod log;
mod memory;
mod noting;
mod outputs;
mod reading;

pub use calls::{MAX_READ_AT_ONCE, ReadRefusal, read_whole, write_all};
pub use drip::DripHost;
pub use host::{Failed, Host, InFile, OutFile};
pub use laws::{
    a_cut_reading_is_counted_once, a_reading_counts_nothing,
    a_reading_leaves_a_steady_host_as_it_was, an_input_gives_the_front_of_what_its_name_holds,
    an_input_read_to_its_end_gives_all, cut_writes_add_a_prefix, writes_add_their_bytes,
};
pub use log::{Log, Noted};
pub use memory::MemHost;
pub use noting::{note_create, note_finish, note_open, note_read, note_write};
pub use std::alloc::AllocError as OutOfMemory;

//! What turns cuts of a tune and sessions over it into the bytes of their sound files and into their reports. It is made over
//! any chip, and can make none.
#![tactic(auto)]

mod cut_pieces;
mod cut_report;
mod marking;
mod played;
mod replies;
mod session_pieces;
mod session_run;

pub use cut_pieces::CutFiles;
pub use session_pieces::SessionFiles;
pub use std::alloc::AllocError as OutOfMemory;

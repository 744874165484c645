//! The host of real files: it shows no contents, and asks a disk that shows its calls.
#![tactic(auto)]

mod asked;
mod host;
mod real;

pub use asked::Disk;
pub use host::DiskHost;
pub use real::{RealDisk, RealFile};

// Why a text isn't read.

/// Why a text isn't read.
#[derive(Clone, Copy, Debug, PartialEq, Eq)]
pub enum TextRefusal {
    /// The line of this number, counted from 1, is the first wrong one.
    Wrong(u32),
    /// There is no memory.
    OutOfMemory,
}

// Parts of the memory.

/// A part of memory: `len` bytes from `start` on, which go on at 0000h after FFFFh.
#[derive(Clone, Copy, PartialEq, Eq)]
pub struct Window {
    pub start: u16,
    pub len: u32,
}

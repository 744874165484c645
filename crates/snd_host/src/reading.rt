// The reading of an input in memory.

/// A file that was opened, by its place, and how far it was read.
#[derive(Clone, Copy)]
pub(crate) struct Reading {
    pub(crate) index: usize,
    pub(crate) at: usize,
}

// What may come of taking a checkpoint.

/// A checkpoint needs more slots than are free.
#[derive(Clone, Copy, Debug, PartialEq, Eq)]
pub struct NoPages {
    pub need: u32,
    pub free: u32,
}

/// What came of a mark. `gave` is the number of checkpoints that were given up for it.
#[derive(Clone, Copy, Debug, PartialEq, Eq)]
pub enum Marked {
    /// A checkpoint stands there already.
    Kept,
    /// One was taken.
    Taken { gave: u32 },
    /// Only the checkpoint of sample 0 is left, and there are too few free slots beside it.
    NoPages { gave: u32, need: u32, free: u32 },
}

// What is found of a sample.

/// How a sample ends.
#[derive(Clone, Copy, Debug, PartialEq, Eq)]
pub enum RipEnd {
    /// The last block's loop bit is clear.
    NoLoop,
    /// It loops to the block that begins with this sample, counted from the sample's start.
    Loop(u32),
    /// It loops to an address at which none of its blocks stands.
    Outside,
    /// None of its 7,280 blocks has an end bit.
    Open,
}

/// A sample of the directory.
#[derive(Clone, Copy, Debug, PartialEq, Eq)]
pub struct RipFound {
    /// The address of the first block.
    pub start: u16,
    /// The number of blocks, 1 to 7,280.
    pub blocks: u32,
    pub end: RipEnd,
}

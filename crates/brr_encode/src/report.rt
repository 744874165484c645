// What is said of a block.

/// The header of a block, and how far its decoded samples lie from their targets.
#[derive(Clone, Copy, Debug, PartialEq, Eq)]
pub struct BlockReport {
    pub header: u8,
    /// The greatest difference without sign, 0 to 65,535.
    pub worst: u32,
    /// The sum of the squared differences.
    pub squares: u64,
}

// The options of a session, as the words of a command line say them.

/// The options of a session.
#[derive(Clone, Copy)]
pub struct SessionOptions {
    /// How many pages its checkpoints have.
    pub pages: u32,
    /// The muted voices: bit v is voice v.
    pub muted: u8,
}

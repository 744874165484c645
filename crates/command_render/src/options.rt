// The options of a render, as the words of a command line say them.

/// The options of a render, each with its value where it is given.
#[derive(Clone, Copy)]
pub struct RenderOptions<'a> {
    /// The number of samples. Without it the tags of the file say the length, and a fade.
    pub samples: Option<u32>,
    /// The name of the trace. Without it there is none.
    pub trace: Option<&'a str>,
    /// The voices of the trace: bit v is voice v. Without it there are none.
    pub voices: Option<u8>,
    /// The muted voices, likewise.
    pub muted: Option<u8>,
}

// A piece of a render.
use num_fix::Frame;
use trace_form::Record;

/// What was emitted next: frames, records, or both.
#[derive(Clone, Copy)]
pub struct Piece<'a> {
    /// The frames, in the order of their samples.
    pub frames: &'a [Frame],
    /// The records, in the order of the events.
    pub records: &'a [Record],
    /// Whether this is the last piece: everything has been given with it.
    pub done: bool,
}

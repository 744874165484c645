// Why the bytes of an input are refused.

/// What is wrong with a line of an assembler's source.
#[derive(Clone, Copy, Debug, PartialEq, Eq)]
pub enum LineFault {
    /// It has none of the forms of a line.
    Form,
    /// A number is above the greatest of its place.
    Number,
    /// Its name was defined before.
    Twice,
    /// The code goes past the end of the memory.
    Long,
    /// A name is not defined.
    Name,
    /// A branch does not reach its target.
    Far,
}

/// Why the bytes of an input are refused, with the numbers of the complaint.
#[derive(Clone, Copy, Debug, PartialEq, Eq)]
pub enum Cause {
    /// So many bytes are no SPC file.
    SpcLength(usize),
    /// The bytes differ from the signature of an SPC file first at this place.
    SpcSignature(usize),
    /// So many bytes are no table of weights.
    TableLength(usize),
    /// So many bytes are no blocks.
    BrrLength(usize),
    /// The bytes are no sound file of one channel with samples of 16 bits.
    WavForm,
    /// So many samples cannot be encoded.
    EncodeSize(usize),
    /// The input has more bytes than are read.
    InputTooLong,
    /// The line of this number, counted from 1, of an assembler's source is wrong.
    AsmLine { line: usize, fault: LineFault },
    /// So many bytes of code do not fit between this address and the end of the memory.
    CodeLength { length: usize, origin: u16 },
    /// The line of this number, counted from 1, of a cut list is wrong.
    CutList(usize),
    /// The line of this number, counted from 1, of a script is wrong.
    Script(usize),
}

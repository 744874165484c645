// The statuses and their numbers.
ghost use Rattle.std.specs.Prelude.{◌≡◌};
ghost use Rattle.exit_status.specs.Statuses.{code_of, cause_status, status_of};

use crate::Cause;
use command_runner::Refusal;

/// How a run ended.
#[derive(Clone, Copy, Debug, PartialEq, Eq)]
pub enum Status {
    /// All was done.
    Ok,
    /// The words say no command.
    Usage,
    /// An input could not be read.
    ReadFault,
    /// An output or the report could not be written.
    WriteFault,
    /// An input has not the length of an SPC file.
    SpcLength,
    /// An input has not the signature of an SPC file.
    SpcSignature,
    /// An input has not the length of a table of weights.
    TableLength,
    /// There was no memory.
    OutOfMemory,
    /// An input has not the length of blocks.
    BrrLength,
    /// An input is no sound file of one channel with samples of 16 bits.
    WavForm,
    /// An input has too many samples for the encoder, or none.
    EncodeSize,
    /// An input has more bytes than are read.
    InputTooLong,
    /// A line of an assembler's source is wrong.
    AsmLine,
    /// Code does not fit into the memory.
    CodeLength,
    /// A line of a cut list is wrong.
    CutList,
    /// A line of a script is wrong.
    Script,
}

impl Status {
    /// The number that the process exits with.
    pub fn code(self) -> u8
        ensures { result ≡ code_of self }
    {
        match self {
            Status::Ok => 0,
            Status::Usage => 1,
            Status::ReadFault => 2,
            Status::WriteFault => 3,
            Status::SpcLength => 4,
            Status::SpcSignature => 5,
            Status::TableLength => 6,
            Status::OutOfMemory => 7,
            Status::BrrLength => 8,
            Status::WavForm => 9,
            Status::EncodeSize => 10,
            Status::InputTooLong => 11,
            Status::AsmLine => 12,
            Status::CodeLength => 13,
            Status::CutList => 14,
            Status::Script => 15,
        }
    }
}

/// The status of a cause.
fn status_of_cause(cause: Cause) -> Status
    ensures { result ≡ cause_status cause }
{
    match cause {
        Cause::SpcLength(_) => Status::SpcLength,
        Cause::SpcSignature(_) => Status::SpcSignature,
        Cause::TableLength(_) => Status::TableLength,
        Cause::BrrLength(_) => Status::BrrLength,
        Cause::WavForm => Status::WavForm,
        Cause::EncodeSize(_) => Status::EncodeSize,
        Cause::InputTooLong => Status::InputTooLong,
        Cause::AsmLine { .. } => Status::AsmLine,
        Cause::CodeLength { .. } => Status::CodeLength,
        Cause::CutList(_) => Status::CutList,
        Cause::Script(_) => Status::Script,
    }
}

/// The status of an end: with this refusal, or with none.
pub fn status_for(refusal: Option<Refusal<Cause>>) -> Status
    ensures { result ≡ status_of refusal }
{
    match refusal {
        None => Status::Ok,
        Some(Refusal::Usage) => Status::Usage,
        Some(Refusal::ReadFault) => Status::ReadFault,
        Some(Refusal::WriteFault) => Status::WriteFault,
        Some(Refusal::OutOfMemory) => Status::OutOfMemory,
        Some(Refusal::Input(cause)) => status_of_cause(cause),
    }
}

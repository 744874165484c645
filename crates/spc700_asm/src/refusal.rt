//! Why a source isn't assembled.
ghost use Rattle.std.specs.Prelude.{◌≡◌};
ghost use Rattle.spc700_asm.specs.Refusals.{refusal_at};
ghost use Rattle.spc700_asm.specs.declared.refusal.LineError.TheVariants as error;

use crate::OutOfMemory;
use thiserror::Error;

/// What is wrong with a line.
#[derive(Clone, Copy, Debug, PartialEq, Eq, Error)]
pub enum LineFault {
    /// It has no form.
    #[error("no form")]
    Form,
    /// A number is above the greatest of its place.
    #[error("a number above the greatest of its place")]
    Number,
    /// An earlier line defines the name too.
    #[error("a name that an earlier line defines")]
    Twice,
    /// Its bytes end above 65,536.
    #[error("bytes that end above 65536")]
    Long,
    /// A name isn't defined.
    #[error("a name that isn't defined")]
    Name,
    /// No distance of a branch leads to the target.
    #[error("a target too far for a branch")]
    Far,
}

/// Why a source isn't assembled.
#[derive(Clone, Copy, Debug, PartialEq, Eq, Error)]
pub enum AsmRefusal {
    /// A line, counted from 1, has a fault.
    #[error("line {number}: {fault}")]
    Line { number: u32, fault: LineFault },
    /// There is no memory.
    #[error("out of memory")]
    OutOfMemory,
}

/// Why a line isn't assembled.
#[derive(Clone, Copy, Debug, PartialEq, Eq)]
pub enum LineError {
    /// It has a fault.
    Fault(LineFault),
    /// There is no memory.
    OutOfMemory,
}

impl From<OutOfMemory> for LineError {
    ghost from_gives = { λ _ refusal. refusal ≡ error.OutOfMemory };

    fn from(_: OutOfMemory) -> LineError {
        LineError::OutOfMemory
    }
}

impl LineError {
    /// The refusal of the line of this number.
    pub fn at(self, number: u32) -> AsmRefusal
        ensures { result ≡ refusal_at number self }
    {
        match self {
            LineError::Fault(fault) => AsmRefusal::Line { number, fault },
            LineError::OutOfMemory => AsmRefusal::OutOfMemory,
        }
    }
}

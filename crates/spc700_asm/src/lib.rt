//! Assembly text of the SPC700, both ways: the bytes of a source, and the listing of bytes.
//!
//! A source is lines, each ended by a line feed. A `;` begins a comment, and blanks at both ends of a line are ignored.
//! A line is then empty, or a name for its address (`loop:`), or bytes (`.byte 1,$ff`), or words, the low byte first
//! (`.word $1234,loop`), or an instruction as the listing writes it (`MOV A,!$1234+X`). In an instruction letters may have
//! either case, blanks may surround the comma, and a number is `$` and 1 to 4 hexadecimal digits or 1 to 5 decimal ones.
//! A name may stand for an address and for the target of a branch.
#![tactic(auto)]

mod assembly;
mod characters;
mod emission;
mod faults;
mod instruction;
mod laws;
mod listing;
mod names;
mod operand;
mod parts;
mod pattern;
mod refusal;
mod statement;
mod survey;

pub use assembly::assemble;
pub use laws::{
    a_listing_is_assembled_to_its_bytes, a_listing_is_short,
    a_source_is_listed_as_its_instructions, listings_of_other_bytes_differ,
};
pub use listing::disassemble;
pub use refusal::{AsmRefusal, LineFault};
pub use std::alloc::AllocError as OutOfMemory;

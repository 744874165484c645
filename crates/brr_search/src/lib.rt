//! Encodes samples as BRR blocks along the cheapest of several candidates.
#![tactic(auto)]

mod beam;
mod candidate;
mod errors;
mod found;
mod header_candidates;
mod keeping;
mod laws;
mod links;
mod options;
#[cfg(test)]
mod tests;

pub use found::find_encoding;
pub use laws::{
    blocks_that_are_found_have_allowed_headers, each_candidate_has_an_allowed_header,
    one_candidate_is_the_plain_encoding, what_is_found_is_never_dearer,
};
pub use options::{EncodeOptions, MAX_CANDIDATES};
pub use std::alloc::AllocError as OutOfMemory;

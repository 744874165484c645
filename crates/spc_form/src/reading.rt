// Reading and writing.
ghost use Rattle.std.specs.Prelude.{◌≡◌, ◌≤◌, ◌⊎◌, length, vec_len, None, Ok, Err, IfOk, IfErr, IfSome};
ghost use Rattle.spc_form.specs.Accepted.{min_length, signature, first_difference, padded_to, padded_bytes, kept_length, spc_file};
ghost use Rattle.spc_form.specs.declared.reading.SpcRefusal.TheVariants.{OutOfMemory as MemoryRefusal};

use crate::parts::KEPT_LENGTH;
use crate::{OutOfMemory, SpcFile};
use std::alloc::Global;
use thiserror::Error;

/// The greatest length of a file in bytes: 1 MB.
pub const MAX_LENGTH: usize = 1048576;

/// The least length: that of a file whose last 128 bytes are missing.
const MIN_LENGTH: usize = 65920;

/// What a file begins with.
const SIGNATURE: [u8; 27] = *b"SNES-SPC700 Sound File Data";

/// Why bytes were not read as an SPC file.
#[derive(Clone, Copy, Debug, PartialEq, Eq, Error)]
pub enum SpcRefusal {
    /// The length, where it is below 65,920 or above 1,048,576.
    #[error("{0} bytes are no SPC file")]
    Length(usize),
    /// The first place at which the bytes differ from the signature.
    #[error("the signature differs at {0}")]
    Signature(usize),
    /// There is no memory.
    #[error("out of memory")]
    OutOfMemory,
}

impl From<OutOfMemory> for SpcRefusal {
    ghost from_gives = { λ _ e. e ≡ MemoryRefusal };

    fn from(_e: OutOfMemory) -> SpcRefusal {
        SpcRefusal::OutOfMemory
    }
}

/// The first place at which bytes differ from the signature.
fn first_difference(bytes: &[u8]) -> Option<usize>
    requires { 27 ≤ length bytes.now }
    ensures { result ≡ first_difference signature bytes.now }
{
    for i in 0..27 {
        if bytes[i] != SIGNATURE[i] {
            return Some(i);
        }
    }
    None
}

/// A copy of the first `size` bytes, with zeros for those that are missing.
fn padded_to(alloc: Global, bytes: &[u8], size: usize) -> Result<Vec<u8>, OutOfMemory>
    ensures bytes { IfOk result (λ copy. copy.items ≡ padded_to size bytes.now) }
    ensures len { IfOk result (λ copy. vec_len copy ≡ size) }
{
    let mut copy = Vec::with_capacity(alloc, size)?;
    copy.extend_from_slice(&bytes[..bytes.len().min(size)])?;
    copy.resize(size, 0)?;
    Ok(copy)
}

/// Why bytes are no file; none where they are one.
#[tactic(auto, unfolding(crate::specs::Accepted::spc_file))]
pub(crate) fn refusal_of(bytes: &[u8]) -> Option<SpcRefusal>
    ensures refused { IfSome result (λ refusal. spc_file bytes.now ≡ Err refusal) }
    ensures accepted { result ≡ None → spc_file bytes.now ≡ Ok (padded_bytes bytes.now) }
    ensures long { result ≡ None → min_length ≤ length bytes.now }
    ensures signed { result ≡ None → first_difference signature bytes.now ≡ None }
{
    if bytes.len() < MIN_LENGTH || bytes.len() > MAX_LENGTH {
        return Some(SpcRefusal::Length(bytes.len()));
    }
    match first_difference(bytes) {
        Some(at) => Some(SpcRefusal::Signature(at)),
        None => None,
    }
}

/// Reads a file (SPC file format text v0.30). Nothing but its length and its signature is looked at: the version may be any.
/// Bytes missing before 66,048 count as 0, and bytes from there on are dropped. No memory is taken for bytes that are refused.
#[tactic(auto, unfolding(crate::specs::Accepted::padded_bytes))]
pub fn read_spc(alloc: Global, bytes: &[u8]) -> Result<SpcFile, SpcRefusal>
    ensures file { IfOk result (λ file. spc_file bytes.now ≡ Ok file) }
    ensures refused { IfErr (spc_file bytes.now) (λ refusal. result ≡ Err refusal) }
    ensures causes { IfErr result (λ refusal. (spc_file bytes.now ≡ Err refusal) ⊎ (refusal ≡ SpcRefusal.OutOfMemory)) }
{
    if let Some(refusal) = refusal_of(bytes) {
        return Err(refusal);
    }
    let bytes = padded_to(alloc, bytes, KEPT_LENGTH)?;
    Ok(SpcFile { bytes })
}

/// The bytes of a file, as they are written: 66,048. What was written is read again as the same file.
pub fn write_spc(alloc: Global, file: &SpcFile) -> Result<Vec<u8>, OutOfMemory>
    ensures bytes { IfOk result (λ bytes. bytes.items ≡ file.now) }
    ensures len { IfOk result (λ bytes. vec_len bytes ≡ kept_length) }
    ensures read_again { IfOk result (λ bytes. spc_file bytes.items ≡ Ok file.now) }
{
    Vec::from_slice(alloc, file.as_slice())
}

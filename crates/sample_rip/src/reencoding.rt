// What a sample comes to when it is encoded again.
ghost use Rattle.std.specs.Prelude.{◌≡◌, ◌<◌, ◌≤◌, All, length, IfOk};
ghost use Rattle.brr_encode.specs.Encoding.{max_blocks};
ghost use Rattle.brr_encode.specs.Report.{IsWithin};
ghost use Rattle.sample_rip.specs.Rip.{rip_samples};
ghost use Rattle.sample_rip.specs.Reencoded.{is_looped, errors_of, errors_of_samples, rip_report};

use crate::{OutOfMemory, RipEnd, RipFound, RipWalk};
use aram_core::Aram;
use brr_encode::{BlockReport, EncodeRefusal, encode};
use std::alloc::Global;

/// The errors of a sample that is encoded again.
#[derive(Clone, Copy, Debug, PartialEq, Eq)]
pub struct RipReport {
    /// The greatest difference of a sample, without sign.
    pub worst: u32,
    /// The sum of the squared differences.
    pub squares: u64,
}

/// Whether a sample with this end is encoded with a loop.
fn is_looped(end: RipEnd) -> bool
    ensures { result ≡ is_looped end }
{
    match end {
        RipEnd::Loop(_) | RipEnd::Outside => true,
        RipEnd::NoLoop | RipEnd::Open => false,
    }
}

/// All samples of a rip.
fn samples_of(alloc: Global, memory: &Aram, found: &RipFound) -> Result<Vec<i16>, OutOfMemory>
    ensures { IfOk result (λ samples. samples.items ≡ rip_samples memory.now found.now) }
{
    let mut samples = Vec::with_capacity(alloc, 16 * found.blocks as usize)?;
    let mut walk = RipWalk::new(found);
    'blocks: while let Some(block) = walk.next(memory) {
        samples.extend_from_slice(&block)?;
    }
    Ok(samples)
}

/// The errors of all blocks.
fn errors_of(blocks: &[BlockReport]) -> RipReport
    requires within { All IsWithin blocks.now }
    requires few { length blocks.now ≤ max_blocks }
    ensures { result ≡ errors_of blocks.now }
{
    let mut errors = RipReport {
        worst: 0,
        squares: 0,
    };
    for block in blocks {
        errors = RipReport {
            worst: errors.worst.max(block.worst),
            squares: errors.squares + block.squares,
        };
    }
    errors
}

/// The greatest and the summed errors of the blocks of a rip that is encoded again, with a loop where it loops, as a
/// decoder gives them. It is refused only for want of memory.
#[tactic(auto, unfolding(crate::specs::Reencoded::rip_report))]
pub fn reencode(alloc: Global, memory: &Aram, found: &RipFound) -> Result<RipReport, OutOfMemory>
    requires some { 0 < found.now.blocks }
    requires few { found.now.blocks ≤ max_blocks }
    ensures { IfOk result (λ report. report ≡ rip_report memory.now found.now) }
{
    let samples = samples_of(alloc, memory, found)?;
    match encode(alloc, &samples, is_looped(found.end)) {
        Ok(encoded) => Ok(errors_of(&encoded.reports)),
        Err(EncodeRefusal::OutOfMemory) => Err(OutOfMemory),
        Err(EncodeRefusal::Empty) => unreachable!(),
        Err(EncodeRefusal::TooLong) => unreachable!(),
    }
}

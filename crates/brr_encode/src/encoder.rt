// The blocks of a list of samples.
ghost use Rattle.std.specs.Prelude.{◌≡◌, ◌+◌, ◌%◌, ◌∷◌, ◌++◌, ◌≤◌, ◌⊎◌, [], All, length, IfOk, IfErr};
ghost use Rattle.brr_encode.specs.Encoding.{padded_samples, max_samples, max_blocks, encoded_from, encoded_samples, stands_alone, best_header, block_of, end_bits};
ghost use Rattle.brr_encode.specs.Report.{reports_of, IsWithin};
ghost use Rattle.brr_encode.specs.EncoderParts.{after_targets, coder_after, block_report};
ghost use Rattle.brr_encode.specs.declared.encoder.EncodeRefusal.TheVariants.{OutOfMemory as NoMemory};

use crate::block::{Coder, push_digits};
use crate::search::best_header;
use crate::{BlockReport, OutOfMemory};
use std::alloc::Global;

/// The most samples that are encoded.
pub const MAX_SAMPLES: usize = 116480;

/// Blocks of nine bytes, and a report of each.
#[derive(Drop)]
pub struct Encoded {
    pub bytes: Vec<u8>,
    pub reports: Vec<BlockReport>,
}

/// Why samples were not encoded.
#[derive(Clone, Copy, Debug, PartialEq, Eq)]
pub enum EncodeRefusal {
    /// There are no samples.
    Empty,
    /// There are more than 116,480 samples, or 7,280 blocks.
    TooLong,
    /// There is no memory.
    OutOfMemory,
}

impl From<OutOfMemory> for EncodeRefusal {
    ghost from_gives = { λ _ refusal. refusal ≡ NoMemory };

    fn from(_: OutOfMemory) -> EncodeRefusal {
        EncodeRefusal::OutOfMemory
    }
}

/// Which block one is: one that tries filter 0 alone, and the last one, differ from the others.
#[derive(Clone, Copy)]
struct Place {
    first: bool,
    last: bool,
    looped: bool,
}

/// The end bit of the last block, and with looping its loop bit.
pub fn end_bits(last: bool, looped: bool) -> u8
    ensures value { result ≡ end_bits last looped }
    ensures bound { result ≤ 3 }
{
    match (last, looped) {
        (true, true) => 3,
        (true, false) => 1,
        (false, _) => 0,
    }
}

/// Appends the block of sixteen targets and its report, and gives the encoder after it.
fn push_block(
    bytes: &mut Vec<u8>,
    reports: &mut Vec<BlockReport>,
    targets: &[i16; 16],
    place: Place,
    coder: Coder,
) -> Result<Coder, OutOfMemory>
    ensures bytes { let block = block_of place.first place.last place.looped coder.last coder.before targets.now in
        IfOk result (λ _. bytes.new.items ≡ bytes.old.items ++ block) }
    ensures reports { let report = block_report place.first place.last place.looped coder.last coder.before targets.now in
        IfOk result (λ _. reports.new.items ≡ reports.old.items ++ report ∷ []) }
    ensures coder { let header = best_header place.first coder.last coder.before targets.now in
        IfOk result (λ new. new ≡ after_targets header (coder_after coder.last coder.before) targets.now) }
    ensures within { IfOk result (λ _. All IsWithin reports.old.items → All IsWithin reports.new.items) }
{
    let header = best_header(place.first, targets, coder.last, coder.before);
    let flagged = header + end_bits(place.last, place.looped);
    bytes.push(flagged)?;
    let coder = push_digits(bytes, header, targets, coder.last, coder.before)?;
    reports.push(BlockReport {
        header: flagged,
        worst: coder.worst,
        squares: coder.squares,
    })?;
    Ok(coder)
}

/// The samples, and after them as many zeros as make whole blocks.
pub fn padded_samples(alloc: Global, samples: &[i16]) -> Result<Vec<i16>, OutOfMemory>
    requires { length samples.now ≤ max_samples }
    ensures targets { IfOk result (λ targets. targets.items ≡ padded_samples samples.now) }
    ensures whole { IfOk result (λ targets. length targets.items % 16 ≡ 0) }
    ensures few { IfOk result (λ targets. length targets.items ≤ max_samples) }
{
    let count = samples.len().next_multiple_of(16);
    let mut targets = Vec::with_capacity(alloc, count)?;
    targets.extend_from_slice(samples)?;
    targets.resize(count, 0)?;
    Ok(targets)
}

/// Whether a block tries filter 0 alone: the first one, as nothing stands before it, and the one from which a loop goes on.
pub fn stands_alone(index: usize, loop_block: usize) -> bool
    ensures { result ≡ stands_alone index loop_block }
{
    index == 0 || index == loop_block
}

/// Encodes samples as blocks; with `looped` the last block has its loop bit beside its end bit. The block of the index `loop_block`, from
/// which a loop goes on, has filter 0 as the first one has, so that the samples before it don't matter there.
/// Each report has the true error of its block, as a decoder gives it against the padded samples. No memory is taken for samples that are refused.
#[tactic(auto, unfolding(crate::specs::Encoding::encoded_from))]
pub fn encode_from(
    alloc: Global,
    loop_block: usize,
    samples: &[i16],
    looped: bool,
) -> Result<Encoded, EncodeRefusal>
    ensures bytes { IfOk result (λ encoded. encoded_from loop_block samples.now looped ≡ Ok encoded.bytes.items) }
    ensures reports { IfOk result (λ encoded. encoded.reports.items ≡ reports_of encoded.bytes.items (padded_samples samples.now)) }
    ensures within { IfOk result (λ encoded. All IsWithin encoded.reports.items) }
    ensures few { IfOk result (λ encoded. length encoded.reports.items ≤ max_blocks) }
    ensures accepted { IfOk result (λ _. length samples.now ≤ max_samples) }
    ensures refused { IfErr (encoded_from loop_block samples.now looped) (λ refusal. result ≡ Err refusal) }
    ensures causes { IfErr result (λ refusal. (encoded_from loop_block samples.now looped ≡ Err refusal) ⊎ (refusal ≡ EncodeRefusal.OutOfMemory)) }
{
    if samples.is_empty() {
        return Err(EncodeRefusal::Empty);
    }
    if samples.len() > MAX_SAMPLES {
        return Err(EncodeRefusal::TooLong);
    }
    let targets = padded_samples(alloc, samples)?;
    let mut bytes = Vec::with_capacity(alloc, targets.len() / 16 * 9)?;
    let mut reports = Vec::with_capacity(alloc, targets.len() / 16)?;
    let mut coder = Coder::start();
    let mut index = 0;
    let mut rest = targets.as_slice();
    'each: while let Some((block, tail)) = rest.split_first_chunk::<16>() {
        let place = Place {
            first: stands_alone(index, loop_block),
            last: tail.is_empty(),
            looped,
        };
        coder = push_block(&mut bytes, &mut reports, block, place, coder)?;
        index += 1;
        rest = tail;
    }
    Ok(Encoded { bytes, reports })
}

/// Encodes samples as blocks, where a loop goes on from the first one.
/// Each report has the true error of its block, as a decoder gives it against the padded samples. No memory is taken for samples that are refused.
#[tactic(auto, unfolding(crate::specs::Encoding::encoded_samples, crate::specs::Encoding::encoded_from))]
pub fn encode(alloc: Global, samples: &[i16], looped: bool) -> Result<Encoded, EncodeRefusal>
    ensures bytes { IfOk result (λ encoded. encoded_samples samples.now looped ≡ Ok encoded.bytes.items) }
    ensures reports { IfOk result (λ encoded. encoded.reports.items ≡ reports_of encoded.bytes.items (padded_samples samples.now)) }
    ensures within { IfOk result (λ encoded. All IsWithin encoded.reports.items) }
    ensures few { IfOk result (λ encoded. length encoded.reports.items ≤ max_blocks) }
    ensures refused { IfErr (encoded_samples samples.now looped) (λ refusal. result ≡ Err refusal) }
    ensures causes { IfErr result (λ refusal. (encoded_samples samples.now looped ≡ Err refusal) ⊎ (refusal ≡ EncodeRefusal.OutOfMemory)) }
{
    encode_from(alloc, 0, samples, looped)
}

// The encoding that is found.
ghost use Rattle.std.specs.Prelude.{◌≡◌, ◌%◌, ◌<◌, ◌≤◌, ◌-◌, ◌⊎◌, true, false, All, length, None, IfOk, IfErr};
ghost use Rattle.brr_encode.specs.Encoding.{padded_samples, encoding_from, max_blocks, max_samples};
ghost use Rattle.brr_encode.specs.Report.{reports_of, IsWithin};
ghost use Rattle.brr_search.specs.declared.options.TheConstants.{MAX_CANDIDATES};
ghost use Rattle.brr_search.specs.Found.{IfFound, searched, is_cheaper, found_encoding, found_samples, sum_of_squares, cost_of};

use crate::OutOfMemory;
use crate::beam::search_blocks;
use crate::errors::{reports_of, sum_of_squares};
use brr_encode::{EncodeRefusal, Encoded, encode_from, padded_samples};
use std::alloc::Global;

/// The blocks along the cheapest of so many candidates, with the report of each, if they cost less than this.
fn encode_below(
    alloc: Global,
    cost: u64,
    most: usize,
    loop_block: usize,
    targets: &[i16],
    looped: bool,
) -> Result<Option<Encoded>, OutOfMemory>
    requires most { most ≤ MAX_CANDIDATES }
    requires whole { length targets.now % 16 ≡ 0 }
    requires few { length targets.now ≤ max_samples }
    ensures none { IfOk result (λ found. found ≡ None → is_cheaper cost targets.now (searched most loop_block targets.now looped) ≡ false) }
    ensures cheaper { IfFound result (λ _. is_cheaper cost targets.now (searched most loop_block targets.now looped) ≡ true) }
    ensures bytes { IfFound result (λ encoded. encoded.bytes.items ≡ searched most loop_block targets.now looped) }
    ensures reports { IfFound result (λ encoded. encoded.reports.items ≡ reports_of encoded.bytes.items targets.now) }
    ensures within { IfFound result (λ encoded. All IsWithin encoded.reports.items) }
    ensures count { IfFound result (λ encoded. length encoded.reports.items ≤ max_blocks) }
{
    let bytes = search_blocks(alloc, most, loop_block, targets, looped)?;
    if bytes.len() != targets.len() / 16 * 9 {
        return Ok(None);
    }
    let reports = reports_of(alloc, &bytes, targets)?;
    if sum_of_squares(&reports) < cost {
        Ok(Some(Encoded { bytes, reports }))
    } else {
        Ok(None)
    }
}

/// Encodes samples as blocks by as many candidates as are kept open, of which the plain encoding, that of `encode_from`, is one: the cheapest is
/// taken. With `looped` the last block has its loop bit beside its end bit, and the loop goes on from the block of the index `loop_block`.
/// Each report has the true error of its block, as a decoder gives it against the padded samples. No memory is taken for samples that are refused.
#[tactic(auto, unfolding(crate::specs::Found::found_samples, crate::specs::Found::found_encoding))]
pub fn find_encoding(
    alloc: Global,
    candidates: u8,
    loop_block: usize,
    samples: &[i16],
    looped: bool,
) -> Result<Encoded, EncodeRefusal>
    requires { candidates ≤ MAX_CANDIDATES }
    ensures bytes { IfOk result (λ encoded. found_samples candidates loop_block samples.now looped ≡ Ok encoded.bytes.items) }
    ensures reports { IfOk result (λ encoded. encoded.reports.items ≡ reports_of encoded.bytes.items (padded_samples samples.now)) }
    ensures within { IfOk result (λ encoded. All IsWithin encoded.reports.items) }
    ensures few { IfOk result (λ encoded. length encoded.reports.items ≤ max_blocks) }
    ensures never_dearer { let plain = encoding_from loop_block samples.now looped in
        IfOk result (λ encoded. sum_of_squares encoded.reports.items ≤ cost_of plain (padded_samples samples.now)) }
    ensures plain { candidates ≤ 1 → IfOk result (λ encoded. encoded.bytes.items ≡ encoding_from loop_block samples.now looped) }
    ensures refused { IfErr (found_samples candidates loop_block samples.now looped) (λ refusal. result ≡ Err refusal) }
    ensures causes { IfErr result (λ refusal. (found_samples candidates loop_block samples.now looped ≡ Err refusal) ⊎ (refusal ≡ EncodeRefusal.OutOfMemory)) }
{
    let plain = encode_from(alloc, loop_block, samples, looped)?;
    if candidates <= 1 {
        return Ok(plain);
    }
    let targets = padded_samples(alloc, samples)?;
    let cost = sum_of_squares(&plain.reports);
    let most = usize::from(candidates) - 1;
    match encode_below(alloc, cost, most, loop_block, &targets, looped)? {
        Some(encoded) => Ok(encoded),
        None => Ok(plain),
    }
}

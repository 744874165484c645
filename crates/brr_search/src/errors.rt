// What blocks cost, read off their decoding.
ghost use Rattle.std.specs.Prelude.{◌≡◌, ◌*◌, ◌/◌, ◌<◌, ◌≤◌, ◌^◌, All, length, slice_index, IfOk};
ghost use Rattle.brr_encode.specs.Greedy.{squares};
ghost use Rattle.brr_encode.specs.Report.{worst, reports_of, max_squares, IsWithin};
ghost use Rattle.brr_encode.specs.Encoding.{max_blocks};
ghost use Rattle.brr_search.specs.Found.{sum_of_squares};

use crate::OutOfMemory;
use brr_decode::decode_stream;
use brr_encode::{BlockReport, distance, squared};
use std::alloc::Global;

/// The report of a block: its header, and the errors of its decoded samples against their targets.
fn report_of(header: u8, decoded: &[i16], targets: &[i16]) -> BlockReport
    requires as_long { length decoded.now ≡ length targets.now }
    requires few { length targets.now ≤ 16 }
    ensures report { result ≡ record { header = header; worst = worst decoded.now targets.now; squares = squares decoded.now targets.now } }
    ensures within { IsWithin result }
{
    let mut greatest: u32 = 0;
    let mut sum: u64 = 0;
    'samples: for (place, sample) in decoded.iter().enumerate() {
        let far = distance(*sample, targets[place]);
        greatest = greatest.max(far);
        sum += squared(far);
    }
    BlockReport {
        header,
        worst: greatest,
        squares: sum,
    }
}

/// The reports of blocks, read off their decoding.
pub fn reports_of(
    alloc: Global,
    blocks: &[u8],
    targets: &[i16],
) -> Result<Vec<BlockReport>, OutOfMemory>
    requires as_long { 16 * (length blocks.now / 9) ≤ length targets.now }
    ensures reports { IfOk result (λ reports. reports.items ≡ reports_of blocks.now targets.now) }
    ensures within { IfOk result (λ reports. All IsWithin reports.items) }
    ensures count { IfOk result (λ reports. length reports.items ≡ length blocks.now / 9) }
{
    let Ok(decoded) = decode_stream(alloc, blocks) else {
        return Err(OutOfMemory);
    };
    let count = blocks.len() / 9;
    let mut reports = Vec::with_capacity(alloc, count)?;
    'each: for index in 0..count {
        let samples = &decoded[16 * index..16 * index + 16];
        let wanted = &targets[16 * index..16 * index + 16];
        reports.push(report_of(blocks[9 * index], samples, wanted))?;
    }
    Ok(reports)
}

/// The sum of the squares of all blocks.
pub fn sum_of_squares(reports: &[BlockReport]) -> u64
    requires within { All IsWithin reports.now }
    requires few { length reports.now ≤ max_blocks }
    ensures { result ≡ sum_of_squares reports.now }
{
    let mut sum = 0;
    'reports: for report in reports {
        sum += report.squares;
    }
    sum
}

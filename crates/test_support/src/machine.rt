// Sets of pages, and records of writes of a port.

use aram_core::PageSet;
use std::alloc::Global;
use trace_form::{OutOfMemory, Record};

/// Whether a set has exactly the pages of these numbers.
pub fn has_exactly(pages: &PageSet, numbers: &[u8]) -> bool {
    (0..=255u8).all(|page| pages.has(page) == numbers.contains(&page))
}

/// The records of writes of a byte, to port 0 in these samples.
pub fn writes_of(alloc: Global, value: u8, samples: &[u32]) -> Result<Vec<Record>, OutOfMemory> {
    let mut records = Vec::new(alloc);
    for sample in samples {
        records.push(Record::Port {
            sample: *sample,
            port: 0,
            value,
        })?;
    }
    Ok(records)
}

//! What a voice works with over a batch.

use crate::row::ROW_SIZE;
use crate::span_phases::PHASES;
use brr_decode::{BrrCache, OutOfMemory};
use gauss_table::{GaussTable, ShortTaps, Taps};
use num_fix::BATCH_SIZE;
use std::alloc::Global;

/// The rows of a span: the taps of its samples, those of any table and those of tables whose weights are from 0 to 2,047, and their levels.
#[derive(Clone, Copy)]
pub(crate) struct SpanRows {
    pub taps: [Taps; BATCH_SIZE],
    pub short_taps: [ShortTaps; BATCH_SIZE],
    pub levels: [u16; BATCH_SIZE],
}

/// What a voice works with over a batch: places for its kept samples and for the taps and levels of its samples, and the blocks that were decoded before. Each
/// voice writes what it reads in the places, so that one workspace serves all voices of all batches.
#[derive(Drop)]
pub struct Workspace {
    /// Twelve samples, those of 64 groups, and the rest of the last one's block.
    pub(crate) row: [i16; ROW_SIZE],
    pub(crate) rows: SpanRows,
    /// The pitches of a voice in a batch, where they are modulated.
    pub(crate) pitches: [u16; BATCH_SIZE],
    /// How far the samples of such a voice stand in the row, and the one after them.
    pub(crate) phases: [u32; PHASES],
    pub(crate) blocks: BrrCache,
}

impl Workspace {
    /// A workspace for voices that play by a table. No clause is wanted: by its type it has a place for what a voice needs, what stands there at first is
    /// ignored, since each voice writes what it reads there, and contracts see nothing of a memory of blocks.
    pub fn new(alloc: Global, table: &GaussTable) -> Result<Workspace, OutOfMemory> {
        Ok(Workspace {
            row: [0; ROW_SIZE],
            rows: SpanRows {
                taps: [Taps::at(table.quads(), 0, 0, 0, 0, 0); BATCH_SIZE],
                short_taps: [ShortTaps::silent(); BATCH_SIZE],
                levels: [0; BATCH_SIZE],
            },
            pitches: [0; BATCH_SIZE],
            phases: [0; PHASES],
            blocks: BrrCache::new(alloc)?,
        })
    }
}

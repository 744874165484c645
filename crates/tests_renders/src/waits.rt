//! Renders of programs that wait.
ghost use Rattle.std.specs.Prelude.{◌≡◌, ◌≤◌};
ghost use Rattle.num_fix.specs.Limits.{max_frames};

use crate::openings::{SILENT, chip_of, file};
use chip_form::Chip;
use lock_step::Counts;
use render_core::Render;
use spc_form::SpcFile;
use std::alloc::Global;
use std::process::Abort;
use std::test::Fail;
use test_support::writes_of;
use trace_form::Record;

/// What comes of a render.
#[derive(Drop)]
struct Known {
    frames: u64,
    /// How many of them are not silent.
    audible: u64,
    records: Vec<Record>,
    counts: Counts,
}

/// Adds all that is to come of a render.
fn add_all<C: Chip>(render: &mut Render<C>, known: &mut Known) -> Result<(), Fail> {
    'pieces: loop {
        let piece = render.next_piece();
        let audible = piece.frames.iter().filter(|frame| **frame != SILENT);
        known.audible = known.audible.wrapping_add(audible.count() as u64);
        known.frames = known.frames.wrapping_add(piece.frames.len() as u64);
        known.records.extend_from_slice(piece.records)?;
        if piece.done {
            return Ok(());
        }
    }
}

/// Renders so many samples of a file over a chip, without records of voices.
fn report_over<C: Chip>(alloc: Global, file: &SpcFile, chip: C, samples: u32) -> Result<Known, Fail>
    requires few { samples ≤ max_frames }
    requires sample { C.sample chip ≡ 0 }
    requires batches { C.batches chip ≡ 0 }
{
    let mut render = Render::open(alloc, file, chip, samples, 0)?;
    let mut known = Known {
        frames: 0,
        audible: 0,
        records: Vec::new(alloc),
        counts: render.counts(),
    };
    add_all(&mut render, &mut known)?;
    known.counts = render.counts();
    Ok(known)
}

/// Renders so many samples of a silent program.
fn report(alloc: Global, program: &[u8], samples: u32) -> Result<Known, Fail>
    requires { samples ≤ max_frames }
{
    let file = file(alloc, &[], program)?;
    let chip = chip_of(alloc, &file)?;
    report_over(alloc, &file, chip, samples)
}

/// Counts of so many batches: for writes of memory, for 64 pending samples and at the end.
fn counts_of(batches: u64, memory: u64, full: u64, end: u64) -> Counts {
    Counts {
        batches,
        register: 0,
        memory,
        echo: 0,
        full,
        events: 0,
        end,
    }
}

/// Timer 2 has the target 10, so that its counter leaves 0 at each 160 cycles. An iteration of 7 cycles polls it, first at clock 13; what
/// it reads is written to port 0 after 29 cycles, and 37 after it the next poll comes. Each write has the samples before it made.
#[test]
fn a_driver_waits_for_its_timer(rt: HostRuntime) -> Result<(), Fail> {
    let samples = [
        5, 11, 16, 20, 26, 30, 36, 40, 46, 51, 55, 61, 65, 71, 75, 81, 86, 90, 96,
    ];
    let wanted = writes_of(rt.alloc(), 1, &samples)?;
    let program = [
        0x8F, 10, 0xFC, 0x8F, 0x04, 0xF1, 0xE4, 0xFF, 0xF0, 0xFC, 0, 0, 0, 0, 0, 0, 0, 0, 0, 0, 0,
        0, 0xC4, 0xF4, 0x2F, 0xEC,
    ];
    let known = report(rt.alloc(), &program, 100)?;
    look_at(&rt, &known, 100, wanted.as_slice(), counts_of(20, 19, 0, 1));
    Ok(())
}

/// Checks a render of so many silent frames, with such records and counts.
fn look_at(rt: &impl Abort, known: &Known, frames: u64, records: &[Record], counts: Counts) {
    assert!(rt; known.records.as_slice() == records);
    assert!(rt; (known.frames, known.audible) == (frames, 0));
    assert!(rt; known.counts == counts);
}

/// The longest render: an hour is 115,200,000 samples, in 1,800,000 batches of 64.
#[test]
fn a_stopped_processor_is_rendered_for_an_hour(rt: HostRuntime) -> Result<(), Fail> {
    let known = report(rt.alloc(), &[0xFF], 115200000)?;
    look_at(
        &rt,
        &known,
        115200000,
        &[],
        counts_of(1800000, 0, 1800000, 0),
    );
    Ok(())
}

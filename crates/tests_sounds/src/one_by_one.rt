//! One batch of 64 samples beside 64 batches of one, over the registers and the memory of demo file 7.

use crate::stage::{Stage, begin_in_silence, have_same_bytes, have_same_registers};
use demo_gen::demo;
use num_fix::Frame;
use spc_form::{OpenState, SpcFile, opening};
use std::alloc::Global;
use std::process::Abort;
use std::test::Fail;
use trace_form::Record;

/// A chip that opens as the file has it.
fn opened(alloc: Global, file: &SpcFile) -> Result<Stage, Fail> {
    let OpenState { memory, dsp, .. } = opening(alloc, file)?;
    Stage::open(alloc, &dsp, memory)
}

/// What 64 batches of one sample each give.
fn played_one_by_one(alloc: Global, stage: &mut Stage) -> Result<(Vec<Frame>, Vec<Record>), Fail> {
    let mut frames = Vec::new(alloc);
    let mut records = Vec::new(alloc);
    for _ in 0..64 {
        stage.play(1, 0xff);
        frames.extend_from_slice(stage.frames.as_slice())?;
        records.extend_from_slice(stage.records.as_slice())?;
    }
    Ok((frames, records))
}

/// Whether records begin with those of eight voices that are keyed in sample 0.
fn begin_with_key_ons(records: &[Record]) -> bool {
    for (k, record) in (0..8u8).zip(records) {
        let keyed = Record::Voice {
            sample: 0,
            voice: k,
            level: 0,
            out: 0,
            block: 0,
            keyed: true,
            ended: false,
        };
        if *record != keyed {
            return false;
        }
    }
    true
}

/// Two chips that open as demo file 7 has it.
fn two_of_demo_7(alloc: Global) -> Result<(Stage, Stage), Fail> {
    let file = demo(alloc, 7)?;
    Ok((opened(alloc, &file)?, opened(alloc, &file)?))
}

/// Checks a chip after a batch of 64, and at another one after 64 batches, which gave these frames and records. All eight voices are
/// keyed at the first poll, in sample 0, and silent for six samples.
fn look_at(rt: &impl Abort, whole: &Stage, split: &Stage, frames: &[Frame], records: &[Record]) {
    assert!(rt; (frames.len(), records.len()) == (64, 512));
    assert!(rt; begin_with_key_ons(records) && begin_in_silence(frames, 6));
    assert!(rt; whole.frames.as_slice() == frames && whole.records.as_slice() == records);
    assert!(rt; have_same_registers(&whole.dsp, &split.dsp));
    assert!(rt; have_same_bytes(&whole.memory, &split.memory));
    assert!(rt; (whole.dsp.batches(), split.dsp.batches()) == (1, 64));
}

#[test]
fn a_batch_of_64_has_the_frames_and_records_of_64_batches(rt: HostRuntime) -> Result<(), Fail> {
    let (mut whole, mut split) = two_of_demo_7(rt.alloc())?;
    whole.play(64, 0xff);
    let (frames, records) = played_one_by_one(rt.alloc(), &mut split)?;
    look_at(&rt, &whole, &split, frames.as_slice(), records.as_slice());
    Ok(())
}

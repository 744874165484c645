//! Worked examples of sums over voices, which are limited to 16 bits after each voice.
//!
//! Each voice plays 28672, which its envelope of 7F0h takes to 28448 and its volume of 7Fh to 28225. The volume 80h makes it -28448. A sum that is limited
//! to 32767 is 32511 at the main volume.

use crate::sources::put_all;
use crate::stage::{Stage, keyed_voice, write_all};
use num_fix::Frame;
use std::alloc::Global;
use std::test::Fail;

/// Volumes, pitch and GAIN of voices 1 and 2, as those of voice 0 but for the left volume of voice 2.
const OTHERS: [(u8, u8); 8] = [
    (0x10, 0x7f),
    (0x11, 0x7f),
    (0x13, 0x10),
    (0x17, 0x7f),
    (0x20, 0x80),
    (0x21, 0x7f),
    (0x23, 0x10),
    (0x27, 0x7f),
];

/// A chip whose first three voices are set to play the loud source, with such a KON.
fn loud_voices(alloc: Global, key_on: u8) -> Result<Stage, Fail> {
    let mut stage = keyed_voice(alloc, key_on)?;
    let block = [0xc3, 0x77, 0x77, 0x77, 0x77, 0x77, 0x77, 0x77, 0x77];
    put_all(&mut stage.memory, 0x0500, &block);
    put_all(&mut stage.memory, 0x0600, &block);
    write_all(&mut stage.dsp, &OTHERS);
    Ok(stage)
}

/// The last frame, once samples were made in batches.
fn last_frame(stage: &mut Stage, batches: &[u8]) -> Option<Frame> {
    for n in batches {
        if *n <= 64 {
            stage.play(*n, 0);
        }
    }
    stage.frames.as_slice().last().copied()
}

/// The sample 6, the first that is heard, as the last one of a batch and as a batch of its own.
#[test]
fn a_sum_is_limited_after_each_voice(rt: HostRuntime) -> Result<(), Fail> {
    for (key_on, left) in [(0x03, 32511), (0x07, 4285)] {
        let wanted = Some(Frame { left, right: 32511 });
        for batches in [[7u8].as_slice(), [6, 1].as_slice()] {
            let mut stage = loud_voices(rt.alloc(), key_on)?;
            let frame = last_frame(&mut stage, batches);
            assert!(rt; frame == wanted, "KON {key_on:02x}");
        }
    }
    Ok(())
}

/// What is sent to the echo is limited, too, and stands in its cell with bit 0 cleared.
#[test]
fn what_is_sent_is_limited(rt: HostRuntime) -> Result<(), Fail> {
    for batches in [[7u8].as_slice(), [6, 1].as_slice()] {
        let mut stage = loud_voices(rt.alloc(), 0x03)?;
        write_all(&mut stage.dsp, &[(0x4d, 0x03), (0x6c, 0x00)]);
        let _ = last_frame(&mut stage, batches);
        assert!(rt; stage.memory.word(0xe000) == 0x7ffe);
    }
    Ok(())
}

use aram_core::Aram;
use sample_rip::{RipEnd, RipFound, RipReport, RipWalk, reencode, rip, wanted};
use spc_form::{KEPT_LENGTH, SpcFile, read_spc};
use std::alloc::Global;
use std::test::Fail;

/// A memory of zeros but for these bytes.
fn memory(alloc: Global, bytes: &[(u16, u8)]) -> Result<Aram, Fail> {
    let image = vec![in alloc; 0u8; 65536]?;
    let mut memory = Aram::from_image(alloc, &image)?;
    for (at, byte) in bytes {
        memory.put(*at, *byte);
    }
    Ok(memory)
}

/// The directory at page 2 with one entry, a block of 4096 at 0500h with its end and loop bits, and this loop word.
fn one_block(alloc: Global, loop_word: u16) -> Result<Aram, Fail> {
    let [low, high] = loop_word.to_le_bytes();
    let mut memory = memory(
        alloc,
        &[
            (0x0201, 0x05),
            (0x0202, low),
            (0x0203, high),
            (0x0500, 0xC3),
        ],
    )?;
    for at in 0x0501..0x0509u16 {
        memory.put(at, 0x11);
    }
    Ok(memory)
}

/// How many blocks a walk over the first entry of the directory at page 1 gives.
fn walked_blocks(memory: &Aram) -> u32 {
    let mut walk = RipWalk::new(&rip(memory, 1, 0));
    for block in 0..7281 {
        if walk.next(memory).is_none() {
            return block;
        }
    }
    7281
}

#[test]
fn a_block_that_loops_outside_or_to_itself(rt: HostRuntime) -> Result<(), Fail> {
    let alloc = rt.alloc();
    for (loop_word, end) in [
        (0x0600, RipEnd::Outside),
        (0x0500, RipEnd::Loop(0)),
        (0x0504, RipEnd::Outside),
    ] {
        let memory = one_block(alloc, loop_word)?;
        let found = rip(&memory, 2, 0);
        let wanted = RipFound {
            start: 0x0500,
            blocks: 1,
            end,
        };
        assert!(rt; found == wanted);
        let mut walk = RipWalk::new(&found);
        assert!(rt; (walk.next(&memory), walk.next(&memory)) == (Some([4096; 16]), None));
        let exact = RipReport {
            worst: 0,
            squares: 0,
        };
        assert!(rt; reencode(alloc, &memory, &found)? == exact);
    }
    Ok(())
}

/// Two blocks that wrap at the end of memory, the second of which ends with a loop to the second; and one without its loop bit.
#[test]
fn blocks_wrap_at_the_end_of_memory(rt: HostRuntime) -> Result<(), Fail> {
    let alloc = rt.alloc();
    for (header, end) in [(0x03, RipEnd::Loop(16)), (0x01, RipEnd::NoLoop)] {
        let memory = memory(
            alloc,
            &[
                (0x0200, 0xFA),
                (0x0201, 0xFF),
                (0x0202, 0x03),
                (0xFFFA, 0xC0),
                (0xFFFF, 0x11),
                (0x0000, 0x11),
                (0x0003, header),
            ],
        )?;
        let found = rip(&memory, 2, 0);
        assert!(rt;
            found
                == RipFound {
                    start: 0xFFFA,
                    blocks: 2,
                    end
                }
        );
        let first = RipWalk::new(&found).next(&memory);
        assert!(rt; first == Some([0, 0, 0, 0, 0, 0, 0, 0, 4096, 4096, 4096, 4096, 0, 0, 0, 0]));
    }
    Ok(())
}

/// Without an end bit there are 7,280 blocks; an end bit in the last of them is an end.
#[test]
fn as_many_blocks_as_a_sample_can_have(rt: HostRuntime) -> Result<(), Fail> {
    for (last, end) in [(0x00, RipEnd::Open), (0x01, RipEnd::NoLoop)] {
        let memory = memory(rt.alloc(), &[(0xFFE7, last)])?;
        let found = rip(&memory, 1, 0);
        assert!(rt;
            found
                == RipFound {
                    start: 0,
                    blocks: 7280,
                    end
                }
        );
        assert!(rt; walked_blocks(&memory) == 7280);
    }
    Ok(())
}

/// An SPC file of zeros but for these registers of the S-DSP.
fn file(alloc: Global, registers: &[(usize, u8)]) -> Result<SpcFile, Fail> {
    let mut image = vec![in alloc; 0u8; KEPT_LENGTH]?;
    image[..27].copy_from_slice(b"SNES-SPC700 Sound File Data");
    for (register, value) in registers {
        if let Some(cell) = image.get_mut(0x10100 + (*register).min(127)) {
            *cell = *value;
        }
    }
    Ok(read_spc(alloc, &image)?)
}

#[test]
fn entries_of_the_voices_and_of_a_range(rt: HostRuntime) -> Result<(), Fail> {
    let file = file(rt.alloc(), &[(0x04, 9), (0x74, 255)])?;
    for (range, those) in [
        (None, [true, false, false, true, true]),
        (Some((1, 2)), [true, true, false, true, true]),
        (Some((0, 255)), [true, true, true, true, true]),
    ] {
        let entries = wanted(&file, range);
        assert!(rt; [entries[0], entries[1], entries[3], entries[9], entries[255]] == those);
    }
    Ok(())
}

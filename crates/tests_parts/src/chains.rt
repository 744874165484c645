//! Worked examples: the pages of a chain, of entries of the directory and of windows.

use aram_core::Aram;
use reach_map::{ChainStart, Window, bytes_have_page, chain_has_page, entry_has_page, reach};
use std::alloc::Global;
use std::test::Fail;
use test_support::has_exactly;

/// A memory of zeros in which one block, at 0601h, has its end bit.
fn memory(alloc: Global) -> Result<Aram, Fail> {
    let zeros = vec![in alloc; 0u8; 0x10000]?;
    let mut memory = Aram::from_image(alloc, &zeros)?;
    memory.put(0x0601, 0x01);
    Ok(memory)
}

/// Whether voices on a chain can read these pages and no others.
fn reads_exactly(memory: &Aram, start: ChainStart, pages: &[u8]) -> bool {
    (0..=255u8).all(|page| chain_has_page(memory, start, page) == pages.contains(&page))
}

/// A window over the end of a page.
const WINDOW: Window = Window {
    start: 0x03fe,
    len: 4,
};

#[test]
fn a_chain_goes_to_its_loop_after_an_end(rt: HostRuntime) -> Result<(), Fail> {
    let memory = memory(rt.alloc())?;
    // the blocks are 05F8h to 0600h, 0601h to 0609h, and 16 from 4071h on: the last one is 40F8h to 4100h
    let starts = [ChainStart {
        block: 0x05f8,
        loop_word: 0x4071,
    }];
    let found = reach(&memory, &starts, &[], WINDOW, false);
    assert!(rt; has_exactly(&found.read_pages, &[0x03, 0x04, 0x05, 0x06, 0x40, 0x41]));
    assert!(rt; has_exactly(&found.write_pages, &[]));
    assert!(rt; reads_exactly(&memory, starts[0], &[0x05, 0x06, 0x40, 0x41]));
    Ok(())
}

#[test]
fn a_loop_comes_again_and_again(rt: HostRuntime) -> Result<(), Fail> {
    let memory = memory(rt.alloc())?;
    // the blocks are 05F8h to 0600h, and 0601h to 0609h 17 times
    let starts = [ChainStart {
        block: 0x05f8,
        loop_word: 0x0601,
    }];
    let found = reach(&memory, &starts, &[], WINDOW, false);
    assert!(rt; has_exactly(&found.read_pages, &[0x03, 0x04, 0x05, 0x06]));
    assert!(rt; reads_exactly(&memory, starts[0], &[0x05, 0x06]));
    Ok(())
}

#[test]
fn entries_and_windows_go_over_ends_of_pages_and_of_memory(rt: HostRuntime) -> Result<(), Fail> {
    let memory = memory(rt.alloc())?;
    let window = Window {
        start: 0xff00,
        len: 0x101,
    };
    let found = reach(&memory, &[], &[0x02fe, 0x80fc], window, true);
    assert!(rt; has_exactly(&found.read_pages, &[0x00, 0x02, 0x03, 0x80, 0xff]));
    assert!(rt; has_exactly(&found.write_pages, &[0x00, 0xff]));
    assert!(rt; found.entangled == false);
    for page in 0..=255u8 {
        assert!(rt; entry_has_page(0x02fe, page) == [0x02, 0x03].contains(&page));
        assert!(rt;
            bytes_have_page(window.start, window.len, page) == [0x00, 0xff].contains(&page)
        );
    }
    Ok(())
}

#[test]
fn an_echo_that_writes_what_a_voice_reads_is_entangled(rt: HostRuntime) -> Result<(), Fail> {
    let memory = memory(rt.alloc())?;
    for (entry, writes_on, want) in [
        (0x0300, true, true),
        (0x0300, false, false),
        (0x0200, true, false),
    ] {
        let found = reach(&memory, &[], &[entry], WINDOW, writes_on);
        assert!(rt; found.entangled == want);
    }
    Ok(())
}

/// Without an end a chain has 18 blocks, 162 bytes.
#[test]
fn a_chain_without_an_end_has_18_blocks(rt: HostRuntime) -> Result<(), Fail> {
    let memory = memory(rt.alloc())?;
    for (block, pages) in [
        (0x405eu16, [0x40u8].as_slice()),
        (0x405f, [0x40, 0x41].as_slice()),
    ] {
        let start = ChainStart {
            block,
            loop_word: 0x6000,
        };
        assert!(rt; reads_exactly(&memory, start, pages));
    }
    Ok(())
}

#[test]
fn a_window_ends_with_its_last_page(rt: HostRuntime) {
    for page in 0..=255u8 {
        assert!(rt; bytes_have_page(0x2000, 0x0800, page) == (page >= 0x20 && page <= 0x27));
    }
}

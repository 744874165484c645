use crate::sources::put_all;
use aram_core::Aram;
use echo_unit::{Echo, EchoRegs, SumRows, Window};
use num_fix::Frame;
use std::alloc::Global;
use std::test::Fail;

fn both(value: i16) -> Frame {
    Frame {
        left: value,
        right: value,
    }
}

// All volumes 7Fh and C7 7Fh, over a buffer of one cell: 4032 is read as 2016, filtered to 4000, and 3968 after EVOL.
// While FLG mutes, the echo goes on; while it forbids writes, the cell stays.
#[test]
fn feedback_mute_and_writes_off(rt: HostRuntime) -> Result<(), Fail> {
    let zeros = vec![in rt.alloc(); 0u8; 65536]?;
    let mut memory = Aram::from_image(rt.alloc(), &zeros)?;
    let mut echo = Echo::new();
    let mut regs = EchoRegs {
        esa: 0xE0,
        edl: 0,
        flg: 0,
        efb: 0,
        mvol_l: 0x7F,
        mvol_r: 0x7F,
        evol_l: 0x7F,
        evol_r: 0x7F,
        fir: [0, 0, 0, 0, 0, 0, 0, 0x7F],
    };
    for (flg, frame, word) in [
        (0x00, 4000, 4032),
        (0x00, 7968, 4032),
        (0x40, 0, 4032),
        (0x20, 7968, 4032),
    ] {
        regs.flg = flg;
        assert!(rt; echo.step(&mut memory, &regs, both(4032), both(4032)) == both(frame));
        assert!(rt; memory.word(0xE000) == word);
        assert!(rt; memory.word(0xE002) == word);
    }
    regs.flg = 0x20;
    let _ = echo.step(&mut memory, &regs, both(0), both(0));
    assert!(rt; memory.word(0xE000) == 4032);
    Ok(())
}

// From FF00h on with EDL 1: 65 cells are written, which wrap at the end of memory. A new EDL counts from the buffer's first cell on.
#[test]
fn the_window_wraps_and_the_length_waits(rt: HostRuntime) -> Result<(), Fail> {
    let filled = vec![in rt.alloc(); 0x11u8; 65536]?;
    let mut memory = Aram::from_image(rt.alloc(), &filled)?;
    let mut echo = Echo::new();
    let mut regs = EchoRegs {
        esa: 0xFF,
        edl: 1,
        flg: 0,
        efb: 0,
        mvol_l: 0,
        mvol_r: 0,
        evol_l: 0,
        evol_r: 0,
        fir: [0; 8],
    };
    let window = |len: u32| Window { start: 0xFF00, len };
    assert!(rt; echo.window(0xFF, 0) == window(4));
    // the low four bits of EDL count units of 2,048 bytes
    assert!(rt; echo.window(0xFF, 0x1F) == window(30720));
    for _ in 0..65 {
        let _ = echo.step(&mut memory, &regs, both(0), both(0));
    }
    for (address, byte) in [
        (0xFEFF, 0x11),
        (0xFF00, 0),
        (0xFFFF, 0),
        (0x0000, 0),
        (0x0003, 0),
        (0x0004, 0x11),
    ] {
        assert!(rt; memory.get(address) == byte, "at {address:04x}");
    }
    regs.edl = 2;
    assert!(rt; echo.window(0xFF, 2) == window(4096));
    for _ in 65..512 {
        let _ = echo.step(&mut memory, &regs, both(0), both(0));
    }
    assert!(rt; echo.window(0xFF, 0) == window(2048));
    memory.put(0xFF00, 0x11);
    let _ = echo.step(&mut memory, &regs, both(0), both(0));
    assert!(rt; memory.get(0xFF00) == 0);
    assert!(rt; echo.window(0xFF, 0) == window(4096));
    Ok(())
}

// The words 128, 256, .. 1024 are read as 64, 128, .. 512 from the oldest on, so tap i gives i + 1 times its coefficient:
// 1785 in all, and 1784 with bit 0 cleared. On the right all are negative.
#[test]
fn each_of_eight_taps_meets_its_coefficient(rt: HostRuntime) -> Result<(), Fail> {
    let zeros = vec![in rt.alloc(); 0u8; 65536]?;
    let mut memory = Aram::from_image(rt.alloc(), &zeros)?;
    let mut echo = Echo::new();
    let regs = EchoRegs {
        esa: 0x20,
        edl: 0,
        flg: 0x20,
        efb: 0,
        mvol_l: 0,
        mvol_r: 0,
        evol_l: 0x7F,
        evol_r: 0x7F,
        fir: [0x01, 0x02, 0x04, 0x08, 0x10, 0x20, 0x40, 0x7F],
    };
    let mut frame = both(0);
    for (left_low, left_high, right_low, right_high) in [
        (0x80, 0x00, 0x80, 0xFF),
        (0x00, 0x01, 0x00, 0xFF),
        (0x80, 0x01, 0x80, 0xFE),
        (0x00, 0x02, 0x00, 0xFE),
        (0x80, 0x02, 0x80, 0xFD),
        (0x00, 0x03, 0x00, 0xFD),
        (0x80, 0x03, 0x80, 0xFC),
        (0x00, 0x04, 0x00, 0xFC),
    ] {
        memory.put(0x2000, left_low);
        memory.put(0x2001, left_high);
        memory.put(0x2002, right_low);
        memory.put(0x2003, right_high);
        frame = echo.step(&mut memory, &regs, both(0), both(0));
    }
    assert!(rt;
        frame
            == Frame {
                left: 1770,
                right: -1773
            }
    );
    Ok(())
}

/// What is heard at the echo's volumes 7Fh in the last of so many steps, of one cell with the same word on both sides, which nothing writes.
fn heard_of(alloc: Global, low: u8, high: u8, steps: u32, fir: [u8; 8]) -> Result<Frame, Fail> {
    let zeros = vec![in alloc; 0u8; 65536]?;
    let mut memory = Aram::from_image(alloc, &zeros)?;
    put_all(&mut memory, 0x2000, &[low, high, low, high]);
    let regs = EchoRegs {
        esa: 0x20,
        edl: 0,
        flg: 0x20,
        efb: 0,
        mvol_l: 0,
        mvol_r: 0,
        evol_l: 0x7F,
        evol_r: 0x7F,
        fir,
    };
    let mut echo = Echo::new();
    let mut frame = both(0);
    for _ in 0..steps {
        frame = echo.step(&mut memory, &regs, both(0), both(0));
    }
    Ok(frame)
}

// 4032 is read as 2016, 8000h as -16384 and 7FFEh as 16383. The coefficient 80h is -128: the newest tap of the first is -4032, and that of the second 32768,
// which wraps to -32768. A tap of the third at 7Fh is 32510: two among the first seven wrap to -516, and one of them with the newest is limited to 32767.
#[test]
fn taps_wrap_and_the_sum_with_the_newest_is_limited(rt: HostRuntime) -> Result<(), Fail> {
    for (low, high, steps, fir, side) in [
        (0xC0, 0x0F, 1, [0, 0, 0, 0, 0, 0, 0, 0x80], -4001),
        (0x00, 0x80, 1, [0, 0, 0, 0, 0, 0, 0, 0x80], -32512),
        (0xFE, 0x7F, 8, [0x7F, 0x7F, 0, 0, 0, 0, 0, 0], -512),
        (0xFE, 0x7F, 8, [0, 0, 0, 0, 0, 0, 0x7F, 0x7F], 32510),
    ] {
        let frame = heard_of(rt.alloc(), low, high, steps, fir)?;
        assert!(rt; frame == both(side), "{side}");
    }
    Ok(())
}

/// The frame of the first step over a cell at 2000h, and the words that it leaves there.
fn written_back(
    alloc: Global,
    cell: &[u8; 4],
    regs: EchoRegs,
    main: Frame,
    sent: Frame,
) -> Result<(Frame, u16, u16), Fail> {
    let zeros = vec![in alloc; 0u8; 65536]?;
    let mut memory = Aram::from_image(alloc, &zeros)?;
    put_all(&mut memory, 0x2000, cell);
    let mut echo = Echo::new();
    let frame = echo.step(&mut memory, &regs, main, sent);
    Ok((frame, memory.word(0x2000), memory.word(0x2002)))
}

/// A cell at 2000h that is written, C7 and EFB, and no volumes.
fn fed_back(c7: u8, efb: u8) -> EchoRegs {
    EchoRegs {
        esa: 0x20,
        edl: 0,
        flg: 0,
        efb,
        mvol_l: 0,
        mvol_r: 0,
        evol_l: 0,
        evol_r: 0,
        fir: [0, 0, 0, 0, 0, 0, 0, c7],
    }
}

// 4032 and -4032 are read as 2016 and -2016, and filtered to 4000 and -4002. At 41h, 65, they give 2031 and -2033, with what is sent 6063 and -6065, and
// with bit 0 cleared 6062 and -6066.
#[test]
fn a_word_goes_back_without_its_lowest_bit(rt: HostRuntime) -> Result<(), Fail> {
    let sent = Frame {
        left: 4032,
        right: -4032,
    };
    let cell = [0xC0, 0x0F, 0x40, 0xF0];
    let made = written_back(rt.alloc(), &cell, fed_back(0x7F, 0x41), both(0), sent)?;
    assert!(rt; made == (both(0), 6062, 0xE84E));
    Ok(())
}

// The word 8000h is filtered to -32768. That times the register 80h, -128, is 32768 over 128, which wraps to -32768: in what goes back, at the left side's
// volume of the echo, and, of a main sum, at the right side's main volume.
#[test]
fn a_product_with_a_volume_wraps(rt: HostRuntime) -> Result<(), Fail> {
    let regs = EchoRegs {
        mvol_r: 0x80,
        evol_l: 0x80,
        ..fed_back(0x80, 0x80)
    };
    let cell = [0x00, 0x80, 0x00, 0x80];
    let made = written_back(rt.alloc(), &cell, regs, both(-32768), both(0))?;
    assert!(rt; made == (both(-32768), 0x8000, 0x8000));
    Ok(())
}

// The word 7FFEh is read as 16383 and filtered to 32510, which is 32256 at 7Fh. With 4000 of the main sum it is limited to 32767; and so it is with
// 4032 that are sent, which leaves 7FFEh with bit 0 cleared.
#[test]
fn sums_with_the_echo_are_limited(rt: HostRuntime) -> Result<(), Fail> {
    let regs = EchoRegs {
        mvol_l: 0x7F,
        mvol_r: 0x7F,
        evol_l: 0x7F,
        evol_r: 0x7F,
        ..fed_back(0x7F, 0x7F)
    };
    let cell = [0xFE, 0x7F, 0xFE, 0x7F];
    let made = written_back(rt.alloc(), &cell, regs, both(4032), both(4032))?;
    assert!(rt; made == (both(32767), 0x7FFE, 0x7FFE));
    Ok(())
}

// The word 4032 is filtered to 4000, and heard as 3968. 64 is sent, and stands in the cell where bit 5 is clear: bit 6 mutes what is heard and not
// what is written, and neither bit 7 nor the rate of the noise does one or the other.
#[test]
fn bit_6_of_flg_mutes_and_bit_5_keeps_the_cell(rt: HostRuntime) -> Result<(), Fail> {
    for (flg, heard, word) in [
        (0x00, 3968, 64),
        (0x20, 3968, 4032),
        (0x40, 0, 64),
        (0x60, 0, 4032),
        (0x9F, 3968, 64),
    ] {
        let regs = EchoRegs {
            flg,
            evol_l: 0x7F,
            evol_r: 0x7F,
            ..fed_back(0x7F, 0)
        };
        let cell = [0xC0, 0x0F, 0xC0, 0x0F];
        let made = written_back(rt.alloc(), &cell, regs, both(0), both(64))?;
        assert!(rt; made == (both(heard), word, word), "FLG {flg:02x}");
    }
    Ok(())
}

/// A memory with the same words in eight cells that follow each other.
fn memory_of_cells(alloc: Global) -> Result<Aram, Fail> {
    let zeros = vec![in alloc; 0u8; 65536]?;
    let mut memory = Aram::from_image(alloc, &zeros)?;
    for (address, low, high) in [
        (0x2000u16, 0x80, 0x00),
        (0x2002, 0x80, 0xFF),
        (0x2004, 0x00, 0x01),
        (0x2006, 0x00, 0xFF),
        (0x2008, 0x80, 0x01),
        (0x200A, 0x80, 0xFE),
        (0x200C, 0x00, 0x02),
        (0x200E, 0x00, 0xFE),
        (0x2010, 0x80, 0x02),
        (0x2012, 0x80, 0xFD),
        (0x2014, 0x00, 0x03),
        (0x2016, 0x00, 0xFD),
        (0x2018, 0x80, 0x03),
        (0x201A, 0x80, 0xFC),
        (0x201C, 0x00, 0x04),
        (0x201E, 0x00, 0xFC),
    ] {
        memory.put(address, low);
        memory.put(address.wrapping_add(1), high);
    }
    Ok(memory)
}

// A batch over these cells: its eighth frame is the last of the steps above.
#[test]
fn a_batch_goes_from_cell_to_cell(rt: HostRuntime) -> Result<(), Fail> {
    let mut memory = memory_of_cells(rt.alloc())?;
    let mut echo = Echo::new();
    let regs = EchoRegs {
        esa: 0x20,
        edl: 1,
        flg: 0x20,
        efb: 0,
        mvol_l: 0,
        mvol_r: 0,
        evol_l: 0x7F,
        evol_r: 0x7F,
        fir: [0x01, 0x02, 0x04, 0x08, 0x10, 0x20, 0x40, 0x7F],
    };
    let none = SumRows {
        main_left: [0; 64],
        main_right: [0; 64],
        sent_left: [0; 64],
        sent_right: [0; 64],
    };
    let frames = echo.play(16, &regs, &none, &mut memory);
    assert!(rt;
        frames[7]
            == Frame {
                left: 1770,
                right: -1773
            }
    );
    Ok(())
}

use ports_timers::Io;

/// Lets the cycles from one moment to another pass, one by one.
fn tick_from(io: &mut Io, from: u32, to: u32) {
    for clock in from..to {
        io.ticks(u64::from(clock), 1);
    }
}

// From zeros with timer 0 enabled: the target 0 means 256 ticks of 128 cycles, and a read clears the output counter.
// Enabling an enabled timer changes nothing; off and on again clears both counters.
#[test]
fn target_0_means_256(rt: HostRuntime) {
    let mut io = Io::from_cells([0; 16], [0; 64]);
    io.write(0xF1, 0x01);
    tick_from(&mut io, 0, 32767);
    assert!(rt; io.read(0xFD) == Some(0));
    tick_from(&mut io, 32767, 32768);
    assert!(rt; (io.read(0xFD), io.read(0xFD)) == (Some(1), Some(0)));
    // 256 ticks more, and one
    tick_from(&mut io, 32768, 65664);
    let counted = io;
    io.write(0xF1, 0x01);
    assert!(rt; io == counted && (io.timer0.inner, io.timer0.output) == (1, 1));
    io.write(0xF1, 0x00);
    io.write(0xF1, 0x01);
    assert!(rt; (io.timer0.inner, io.timer0.output) == (0, 0));
}

// Cells FCh = 02h and F1h = 04h: the ticks at 16 and 32 reach the target of timer 2.
#[test]
fn timer_2_ticks_every_16_cycles(rt: HostRuntime) {
    let mut cells = [0; 16];
    cells[0xC] = 0x02;
    cells[0x1] = 0x04;
    let mut io = Io::from_cells(cells, [0; 64]);
    io.ticks(0, 16);
    io.ticks(16, 16);
    assert!(rt; io.read(0xFF) == Some(1));
}

// The targets 1, 2 and 3 over 2,560 cycles, in which timers 0 and 1 have 20 ticks and timer 2 has 160: 20, 10 and 53 times, of which a
// counter keeps four bits.
#[test]
fn each_timer_counts_to_its_own_target(rt: HostRuntime) {
    let mut io = Io::from_cells([0; 16], [0; 64]);
    for (address, value) in [(0xFA, 1), (0xFB, 2), (0xFC, 3), (0xF1, 0x07)] {
        io.write(address, value);
    }
    tick_from(&mut io, 0, 2560);
    assert!(rt; (io.read(0xFD), io.read(0xFE), io.read(0xFF)) == (Some(4), Some(10), Some(5)));
}

// Over cells of zeros: the ROM is behind memory until control bit 7 shows it.
#[test]
fn the_rom_shows_once_it_is_switched_on(rt: HostRuntime) {
    let mut io = Io::from_cells([0; 16], [0xAA; 64]);
    assert!(rt; io.read(0xFFC0) == None);
    io.write(0xF1, 0x80);
    assert!(rt; io.read(0xFFC0) == Some(0xAA));
}

/// Each address has F0h + its own number in its cell, so that a read shows whose value it gives. F1h has all bits but the one that shows the ROM.
fn numbered() -> Io {
    let cells = [
        0xF0, 0x7F, 0xF2, 0xF3, 0xF4, 0xF5, 0xF6, 0xF7, 0xF8, 0xF9, 0xFA, 0xFB, 0xFC, 0xFD, 0xFE,
        0xFF,
    ];
    Io::from_cells(cells, [0xAA; 64])
}

/// What is then read while the ROM is hidden, one after another.
const ANSWERS: [(u16, Option<u8>); 19] = [
    (0x00EF, None),
    (0x00F0, Some(0)),
    (0x00F1, Some(0)),
    (0x00F2, Some(0xF2)),
    (0x00F3, None),
    (0x00F4, Some(0xF4)),
    (0x00F7, Some(0xF7)),
    (0x00F8, None),
    (0x00F9, None),
    (0x00FA, Some(0)),
    (0x00FC, Some(0)),
    (0x00FD, Some(0x0D)),
    (0x00FE, Some(0x0E)),
    (0x00FF, Some(0x0F)),
    (0x00FF, Some(0)),
    (0x0100, None),
    (0xFFBF, None),
    (0xFFC0, None),
    (0xFFFF, None),
];

#[test]
fn reads_at_the_ends_of_each_range(rt: HostRuntime) {
    let mut io = numbered();
    assert!(rt; io.dsp_address() == 0xF2);
    for (address, answer) in ANSWERS {
        assert!(rt; io.read(address) == answer, "at {address:04x}");
    }
}

#[test]
fn the_rom_is_read_and_not_written(rt: HostRuntime) {
    let mut io = numbered();
    io.write(0xF1, 0x80);
    for (address, answer) in [(0xFFBF, None), (0xFFC0, Some(0xAA)), (0xFFFF, Some(0xAA))] {
        assert!(rt; io.read(address) == answer, "at {address:04x}");
    }
    let shown = io;
    io.write(0xFFC0, 0x55);
    assert!(rt; io == shown);
}

// Control bits 4 and 5 clear two input latches each; a write of F4h goes to an output latch.
#[test]
fn latches(rt: HostRuntime) {
    let io = Io::from_cells([1; 16], [0; 64]);
    for (control, input) in [
        (0x00, [1, 1, 1, 1]),
        (0x10, [0, 0, 1, 1]),
        (0x20, [1, 1, 0, 0]),
        (0x30, [0; 4]),
    ] {
        let mut io = io;
        io.write(0xF1, control);
        io.write(0xF4, 7);
        assert!(rt; (io.input, io.output) == (input, [7, 0, 0, 0]));
    }
}

/// Timers with the targets 1 and the output counters 5, 6 and 7.
fn with_counters(control: u8) -> Io {
    let cells = [
        0, control, 0, 0, 0, 0, 0, 0, 0, 0, 0x01, 0x01, 0x01, 0x05, 0x06, 0x07,
    ];
    Io::from_cells(cells, [0; 64])
}

/// The output counters of timers 0 to 2.
fn counters(io: &Io) -> [u8; 3] {
    [io.timer0.output, io.timer1.output, io.timer2.output]
}

// In 128 cycles timers 0 and 1 have a tick, and timer 2 has eight. A timer counts while its own bit is set, and starts anew where that comes on: where it
// goes off or stays, its counter stays.
#[test]
fn each_timer_has_its_own_bit_of_the_control(rt: HostRuntime) {
    for (before, after, left, counted) in [
        (0x00, 0x00, [5, 6, 7], [5, 6, 7]),
        (0x00, 0x01, [0, 6, 7], [1, 6, 7]),
        (0x00, 0x02, [5, 0, 7], [5, 1, 7]),
        (0x00, 0x04, [5, 6, 0], [5, 6, 8]),
        (0x07, 0x00, [5, 6, 7], [5, 6, 7]),
        (0x07, 0x07, [5, 6, 7], [6, 7, 15]),
    ] {
        let mut io = with_counters(before);
        io.write(0xF1, after);
        assert!(rt; counters(&io) == left, "from {before:02x} to {after:02x}");
        io.ticks(0, 128);
        assert!(rt;
            counters(&io) == counted,
            "after {before:02x} and {after:02x}"
        );
    }
}

// Timer 2 has four ticks under the target 5. Its inner counter is past the target 3 then, and comes to it once it has wrapped: 255 ticks later.
#[test]
fn a_target_below_the_inner_counter_waits_until_it_wraps(rt: HostRuntime) {
    let mut io = Io::from_cells([0; 16], [0; 64]);
    io.write(0xFC, 0x05);
    io.write(0xF1, 0x04);
    tick_from(&mut io, 0, 64);
    io.write(0xFC, 0x03);
    tick_from(&mut io, 64, 4128);
    assert!(rt; io.read(0xFF) == Some(0));
    tick_from(&mut io, 4128, 4144);
    assert!(rt; io.read(0xFF) == Some(1));
}

// A read clears an output counter, a write doesn't. Neither it nor one of F0h, F3h, F8h or F9h does anything but reach memory.
#[test]
fn writes_that_only_reach_memory(rt: HostRuntime) {
    for address in [
        0x00EF, 0x00F0, 0x00F3, 0x00F8, 0x00F9, 0x00FD, 0x00FE, 0x00FF, 0x0100,
    ] {
        let mut io = with_counters(0x07);
        io.write(address, 0xFF);
        assert!(rt; io == with_counters(0x07), "at {address:04x}");
    }
}

#[test]
fn each_port_has_its_own_output_latch(rt: HostRuntime) {
    let mut io = Io::from_cells([1; 16], [0; 64]);
    for (address, value) in [(0xF4, 7), (0xF5, 8), (0xF6, 9), (0xF7, 10)] {
        io.write(address, value);
    }
    assert!(rt; (io.input, io.output) == ([1; 4], [7, 8, 9, 10]));
}

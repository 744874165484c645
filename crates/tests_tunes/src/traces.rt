// Traces of renders over a host in memory.
use crate::rendering::{LINES, NO_BATCH, ONE_BATCH, Traced, is_rendered, render_tune, with_trace};
use std::alloc::Global;
use std::test::Fail;
use test_support::{DSP, FIVE, MEMORY, Outcome, Pieces};

const WRITE: Pieces = &[(MEMORY + 0x0400, b"\x8f\x6c\xf2\x8f\x20\xf3\x2f\xfe")];

/// ENDX keeps nothing of what is written.
const WRITES_ENDX: Pieces = &[(MEMORY + 0x0400, b"\x8f\x7c\xf2\x8f\xff\xf3\x2f\xfe")];

const IGNORED: Pieces = &[(MEMORY + 0x0400, b"\x8f\xcc\xf2\x8f\x20\xf3\x2f\xfe")];

const OVERWRITTEN: Pieces = &[
    (DSP + 0x6c, b"\x00\x04"),
    (DSP + 0x6d, b"\x04"),
    (MEMORY + 0x0404, b"\x8f\x5a\xf4\x2f\xfe"),
];

const PORT: Pieces = &[(
    MEMORY + 0x0400,
    b"\0\0\0\0\0\0\0\0\0\0\0\0\0\0\x8f\x5a\xf4\x2f\xfe",
)];

/// The program writes A, X, Y, the status and the stack pointer, as the file has them, to ports.
const OPENING: Pieces = &[
    (0x27, b"\x01\x02\x03\x08"),
    (
        MEMORY + 0x0400,
        b"\xc4\xf4\xd8\xf5\xcb\xf6\x0d\xae\xc4\xf7\x9d\xd8\xf4\x2f\xfe",
    ),
];

/// Those lines, on to where its block ends, after 16 samples that are decoded by fours, and it goes to the loop word.
const ENDED: &str =
    "V 0 0 0 0 0000 k-\nV 1 0 0 0 0500 --\nV 2 0 0 0 0500 --\nV 3 0 0 0 0500 --\nV 4 0 0 0 0500 --\n\
    V 5 0 0 0 0500 --\nV 6 0 2032 4064 0500 --\nV 7 0 2032 4064 0500 --\nV 8 0 2032 4064 0500 --\n\
    V 9 0 2032 4064 0500 --\nV 10 0 2032 4064 0600 -l\nV 11 0 2032 4064 0600 --\n";

/// The program reads the envelope of voice 0, and writes it to port 0, again and again.
const ENVELOPE: Pieces = &[(MEMORY + 0x0400, b"\x8f\x08\xf2\xe4\xf3\xc4\xf4\x2f\xfa")];

/// What it writes: first in cycle 11, and then every 11 cycles. From sample 6 on the envelope is heard.
const ENVELOPE_LINES: &str =
    "P 0 0 00\nP 0 0 00\nP 1 0 00\nP 1 0 00\nP 1 0 00\nP 2 0 00\nP 2 0 00\nP 2 0 00\n\
    P 3 0 00\nP 3 0 00\nP 3 0 00\nP 4 0 00\nP 4 0 00\nP 4 0 00\nP 5 0 00\nP 5 0 00\nP 5 0 00\n\
    P 6 0 00\nP 6 0 00\nP 6 0 00\nP 7 0 7f\nP 7 0 7f\nP 7 0 7f\n";

/// Traces of voices and of what the program writes.
const TRACED: &[Traced] = &[
    Traced {
        shows: "the voice that comes to an end",
        sound: FIVE,
        more: &[],
        samples: 12,
        voices: Some(0x01),
        frames: &[(6, 0), (6, 4000)],
        trace: ENDED,
        batches: ONE_BATCH,
    },
    Traced {
        shows: "the voice that plays",
        sound: FIVE,
        more: &[],
        samples: 8,
        voices: Some(0x01),
        frames: &[(6, 0), (2, 4000)],
        trace: LINES,
        batches: ONE_BATCH,
    },
    Traced {
        shows: "no voice",
        sound: FIVE,
        more: &[],
        samples: 8,
        voices: Some(0x00),
        frames: &[(6, 0), (2, 4000)],
        trace: "",
        batches: ONE_BATCH,
    },
    Traced {
        shows: "all voices, and no samples",
        sound: &[],
        more: &[],
        samples: 0,
        voices: Some(0xff),
        frames: &[],
        trace: "",
        batches: NO_BATCH,
    },
    Traced {
        shows: "a register is written",
        sound: &[],
        more: WRITE,
        samples: 1,
        voices: Some(0x00),
        frames: &[(1, 0)],
        trace: "R 0 6c 20\n",
        batches: ONE_BATCH,
    },
    Traced {
        shows: "the byte that is written to ENDX",
        sound: &[],
        more: WRITES_ENDX,
        samples: 1,
        voices: Some(0x00),
        frames: &[(1, 0)],
        trace: "R 0 7c ff\n",
        batches: ONE_BATCH,
    },
    Traced {
        shows: "a write to an address from 80h on is ignored",
        sound: &[],
        more: IGNORED,
        samples: 1,
        voices: Some(0x00),
        frames: &[(1, 0)],
        trace: "",
        batches: ONE_BATCH,
    },
    Traced {
        shows: "echo overwrites the branch before the write to a port",
        sound: &[],
        more: OVERWRITTEN,
        samples: 3,
        voices: Some(0x00),
        frames: &[(3, 0)],
        trace: "P 1 0 5a\n",
        batches: "batches 3 register 0 memory 0 echo 2 full 0 events 0 end 1\n",
    },
    Traced {
        shows: "the registers of the processor at the opening",
        sound: &[],
        more: OPENING,
        samples: 1,
        voices: Some(0x00),
        frames: &[(1, 0)],
        trace: "P 0 0 01\nP 0 1 02\nP 0 2 03\nP 0 3 08\nP 0 0 ef\n",
        batches: ONE_BATCH,
    },
    Traced {
        shows: "a write to a port before the last sample",
        sound: &[],
        more: PORT,
        samples: 2,
        voices: Some(0x00),
        frames: &[(2, 0)],
        trace: "P 1 0 5a\n",
        batches: "batches 2 register 0 memory 1 echo 0 full 0 events 0 end 1\n",
    },
    Traced {
        shows: "a write to a port after the last sample",
        sound: &[],
        more: PORT,
        samples: 1,
        voices: Some(0x00),
        frames: &[(1, 0)],
        trace: "",
        batches: "batches 1 register 0 memory 1 echo 0 full 0 events 0 end 0\n",
    },
    Traced {
        shows: "a loop sends the envelope to a port",
        sound: FIVE,
        more: ENVELOPE,
        samples: 8,
        voices: None,
        frames: &[(6, 0), (2, 4000)],
        trace: ENVELOPE_LINES,
        batches: "batches 8 register 5 memory 2 echo 0 full 0 events 0 end 1\n",
    },
];

#[test]
fn voices_and_writes_have_their_lines(rt: HostRuntime) -> Result<(), Fail> {
    for row in TRACED {
        assert!(rt; row.holds(rt.alloc())?, "{}", row.shows);
    }
    Ok(())
}

/// All voices are keyed, and the program writes to port 0 seven times a sample.
const FLOOD: Pieces = &[
    (DSP + 0x4c, b"\xff"),
    (
        MEMORY + 0x0400,
        b"\xc4\xf4\xc4\xf4\xc4\xf4\xc4\xf4\xc4\xf4\xc4\xf4\xc4\xf4\x2f\xf0",
    ),
];

/// Adds a line seven times.
fn add_seven(lines: &mut String, line: &str) -> Result<(), Fail> {
    for _ in 0..7 {
        lines.push_str(line)?;
    }
    Ok(())
}

/// Seven writes of 0 to port 0 in each of so many samples.
fn flood_lines(alloc: Global, samples: u32) -> Result<String, Fail> {
    let mut lines = String::new(alloc);
    for sample in 0..samples {
        let line = format!(in alloc; "P {sample} 0 00\n")?;
        add_seven(&mut lines, line.as_str())?;
    }
    Ok(lines)
}

/// Whether the trace has the writes of so many samples.
fn has_flood(alloc: Global, outcome: &Outcome, samples: u32) -> Result<bool, Fail> {
    let lines = flood_lines(alloc, samples)?;
    Ok(outcome.second() == lines.as_bytes())
}

/// Whether all was done, with the sound and the batches of eighty samples.
fn has_sound_of_flood(alloc: Global, outcome: &Outcome) -> Result<bool, Fail> {
    let line = "batches 5 register 0 memory 2 echo 0 full 0 events 2 end 1\n";
    is_rendered(alloc, outcome, 80, &[(6, 0), (74, 4000)], line)
}

#[test]
fn port_writes_past_the_capacity_of_the_ring_settle(rt: HostRuntime) -> Result<(), Fail> {
    let outcome = render_tune(rt.alloc(), FIVE, FLOOD, with_trace(Some(80), None))?;
    assert!(rt; has_sound_of_flood(rt.alloc(), &outcome)?);
    assert!(rt; has_flood(rt.alloc(), &outcome, 80)?);
    Ok(())
}

use num_fix::Frame;
use std::test::Fail;
use trace_form::{EventRing, Frames, Full, Record, Records, line};

/// A record of voice 0.
fn voice(sample: u32, level: u16, out: i16, block: u16, keyed: bool, ended: bool) -> Record {
    Record::Voice {
        sample,
        voice: 0,
        level,
        out,
        block,
        keyed,
        ended,
    }
}

/// A record of a write of port 0.
fn port(sample: u32, value: u8) -> Record {
    Record::Port {
        sample,
        port: 0,
        value,
    }
}

/// Whether the line of a record is this text.
fn is_line(record: &Record, text: &str) -> bool {
    line(record).bytes() == text.as_bytes()
}

#[test]
fn the_line_of_each_kind_of_record(rt: HostRuntime) {
    let register = Record::Reg {
        sample: 0,
        addr: 0x6C,
        value: 0x20,
    };
    for (record, text) in [
        (register, "R 0 6c 20\n"),
        (port(7, 0x7F), "P 7 0 7f\n"),
        (voice(0, 0, 0, 0, true, false), "V 0 0 0 0 0000 k-\n"),
        (
            voice(6, 2032, 4064, 0x0500, false, false),
            "V 6 0 2032 4064 0500 --\n",
        ),
        (
            voice(4_000_000_000, 2047, -32768, 0xFFFF, false, true),
            "V 4000000000 0 2047 -32768 ffff -l\n",
        ),
    ] {
        assert!(rt; is_line(&record, text), "{text}");
    }
}

#[test]
fn the_capacity_of_the_frames(rt: HostRuntime) -> Result<(), Fail> {
    let frame = Frame { left: 1, right: -1 };
    let mut frames = Frames::new(rt.alloc())?;
    assert!(rt; frames.room() == 128);
    frames.push(frame);
    assert!(rt; (frames.room(), frames.as_slice()) == (127, [frame].as_slice()));
    frames.clear();
    assert!(rt; frames.room() == 128);
    Ok(())
}

#[test]
fn the_capacity_of_the_records(rt: HostRuntime) -> Result<(), Fail> {
    let mut records = Records::new(rt.alloc())?;
    assert!(rt; records.room() == 1344);
    records.push(port(0, 9));
    assert!(rt; (records.room(), records.as_slice()) == (1343, [port(0, 9)].as_slice()));
    records.clear();
    assert!(rt; records.room() == 1344);
    Ok(())
}

/// Pushes so many records, as long as there is room.
fn push_all(ring: &mut EventRing, count: u32) -> bool {
    for sample in 0..count {
        if ring.try_push(port(sample, 0)).is_err() {
            return false;
        }
    }
    true
}

#[test]
fn a_ring_of_256_records(rt: HostRuntime) -> Result<(), Fail> {
    let mut ring = EventRing::new(rt.alloc())?;
    assert!(rt; ring.is_empty() && push_all(&mut ring, 256));
    assert!(rt; (ring.try_push(port(256, 0)), ring.len()) == (Err(Full), 256));
    assert!(rt; (ring.front(), ring.pop_front()) == (Some(port(0, 0)), Some(port(0, 0))));
    assert!(rt; (ring.try_push(port(256, 0)), ring.pop_front()) == (Ok(()), Some(port(1, 0))));
    Ok(())
}

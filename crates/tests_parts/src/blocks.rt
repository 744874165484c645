use brr_decode::{BrrCache, BrrRefusal, decode_block, decode_group, decode_stream, kept_sample};
use std::test::Fail;

// Shift and filter: the least digit under the shifts 12 and 13, and 4096 falling under filter 1.
#[test]
fn shifts_and_filters(rt: HostRuntime) -> Result<(), Fail> {
    assert!(rt; kept_sample(0xC0, -8, 0, 0) == -32768);
    assert!(rt; decode_group(0xC0, 0x80, 0x00, 0, 0) == [-32768, 0, 0, 0]);
    assert!(rt; decode_group(0xD0, 0xF7, 0x00, 0, 0) == [-4096, 0, 0, 0]);
    let block = decode_block(b"\xC0\0\0\0\0\0\0\0\x01", 0, 0);
    assert!(rt; block == [0, 0, 0, 0, 0, 0, 0, 0, 0, 0, 0, 0, 0, 0, 0, 4096]);
    let stream = b"\xC0\0\0\0\0\0\0\0\x01\xC4\0\0\0\0\0\0\0\0";
    let samples = decode_stream(rt.alloc(), stream)?;
    assert!(rt; samples.len() == 32);
    assert!(rt; &samples[14..19] == [0, 4096, 3840, 3600, 3374].as_slice());
    Ok(())
}

// The same bytes after other samples are another group, the first time and each further time.
#[test]
fn cached_blocks(rt: HostRuntime) -> Result<(), Fail> {
    let mut blocks = BrrCache::new(rt.alloc())?;
    for _ in 0..2 {
        for (header, digits, group, before, decoded) in [
            (0xC4, 0, 0, [0, 4096], [3840, 3600, 3374, 3162]),
            (0xC4, 0, 0, [4096, 0], [0, 0, 0, 0]),
            (0xC0, 0x80, 0, [0, 0], [-32768, 0, 0, 0]),
            (0xC0, 0x80_0000, 1, [0, 0], [-32768, 0, 0, 0]),
        ] {
            let mut row = [0; 18];
            row[..2].copy_from_slice(&before);
            assert!(rt; group < 4);
            blocks.read_rest(0x2000, header, digits, group, &mut row, 2);
            assert!(rt; &row[2..6] == decoded.as_slice());
        }
    }
    Ok(())
}

// A block that was decoded from its last group on doesn't show its first one; one that was decoded whole shows its last.
#[test]
fn a_block_is_read_from_each_group_on(rt: HostRuntime) -> Result<(), Fail> {
    let mut blocks = BrrCache::new(rt.alloc())?;
    for group in [3, 0, 3] {
        let mut row = [0; 18];
        row[1] = 4096;
        blocks.read_rest(0x2000, 0xC4, 0, group, &mut row, 2);
        assert!(rt; &row[..6] == [0, 4096, 3840, 3600, 3374, 3162].as_slice());
    }
    Ok(())
}

// The sum 57,024 is limited to 32,767 first; its double then wraps to -2.
#[test]
fn a_sum_is_limited_and_its_double_wraps(rt: HostRuntime) -> Result<(), Fail> {
    let stream = b"\xC0\0\0\0\0\0\0\0\x87\xC8\x70\0\0\0\0\0\0\0";
    let samples = decode_stream(rt.alloc(), stream)?;
    assert!(rt; samples.len() == 32);
    assert!(rt; &samples[14..18] == [-32768, 28672, -2, -26884].as_slice());
    Ok(())
}

#[test]
fn lengths_that_are_no_blocks(rt: HostRuntime) -> Result<(), Fail> {
    let bytes = vec![in rt.alloc(); 0u8; 65538]?;
    for (length, accepted) in [
        (0, false),
        (8, false),
        (9, true),
        (10, false),
        (65529, true),
        (65538, false),
    ] {
        assert!(rt; length <= bytes.len());
        match decode_stream(rt.alloc(), &bytes[..length]) {
            Ok(samples) => assert!(rt; (accepted, samples.len()) == (true, length / 9 * 16)),
            Err(BrrRefusal::Length(refused)) => assert!(rt; (accepted, refused) == (false, length)),
            Err(BrrRefusal::OutOfMemory) => panic!(rt; "out of memory at {length}"),
        }
    }
    Ok(())
}

use brr_decode::decode_stream;
use brr_encode::{BlockReport, EncodeRefusal, Encoded, encode};
use std::test::Fail;

/// What is encoded, or that nothing is.
fn encoded(rt: &HostRuntime, samples: &[i16], looped: bool) -> Result<Encoded, Fail> {
    Ok(encode(rt.alloc(), samples, looped)?)
}

#[test]
fn zeros_are_blocks_of_zeros(rt: HostRuntime) -> Result<(), Fail> {
    for (samples, looped, blocks) in [
        (
            [0; 17].as_slice(),
            false,
            b"\0\0\0\0\0\0\0\0\0\x01\0\0\0\0\0\0\0\0".as_slice(),
        ),
        (
            [0; 16].as_slice(),
            false,
            b"\x01\0\0\0\0\0\0\0\0".as_slice(),
        ),
        ([0; 16].as_slice(), true, b"\x03\0\0\0\0\0\0\0\0".as_slice()),
    ] {
        let silence = encoded(&rt, samples, looped)?;
        assert!(rt; silence.bytes.as_slice() == blocks);
        assert!(rt; silence.reports.iter().all(is_without_error));
        assert!(rt; silence.reports.len() == blocks.len() / 9);
    }
    Ok(())
}

/// Whether a block misses no sample.
fn is_without_error(report: &BlockReport) -> bool {
    (report.worst, report.squares) == (0, 0)
}

#[test]
fn extremes_are_missed_by_4095_at_most(rt: HostRuntime) -> Result<(), Fail> {
    let mut samples = [32767; 16];
    for i in 8..16 {
        samples[i] = -32768;
    }
    let square = encoded(&rt, &samples, false)?;
    assert!(rt; square.bytes.as_slice() == b"\xC1\x77\x77\x77\x77\x88\x88\x88\x88".as_slice());
    let report = BlockReport {
        header: 0xC1,
        worst: 4095,
        squares: 134152200,
    };
    assert!(rt; square.reports.as_slice() == [report].as_slice());
    let decoded = decode_stream(rt.alloc(), &square.bytes)?;
    assert!(rt; (decoded[0], decoded[8]) == (28672, -32768));
    Ok(())
}

#[test]
fn no_samples_and_too_many(rt: HostRuntime) -> Result<(), Fail> {
    assert!(rt; encode(rt.alloc(), &[], false).err() == Some(EncodeRefusal::Empty));
    let samples = vec![in rt.alloc(); 0i16; 116481]?;
    assert!(rt; encode(rt.alloc(), &samples, false).err() == Some(EncodeRefusal::TooLong));
    Ok(())
}

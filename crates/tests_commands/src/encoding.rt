// Runs of `encode` over a host in memory.
ghost use Rattle.brr_search.specs.Options.{AreInRange};

use brr_search::EncodeOptions;
use command_encode::encode;
use exit_status::Status;
use std::alloc::Global;
use std::test::Fail;
use test_support::{MONO, OUTPUT_ROOM, Outcome, host_with};

/// As it is encoded where the words say no more.
const PLAIN: EncodeOptions = EncodeOptions {
    looped: false,
    candidates: None,
    loop_at: None,
};

/// The same with a loop.
const LOOPED: EncodeOptions = EncodeOptions {
    looped: true,
    candidates: None,
    loop_at: None,
};

/// With a loop that goes on from the first sample, which the words say.
const LOOPED_AT_0: EncodeOptions = EncodeOptions {
    looped: false,
    candidates: Some(2),
    loop_at: Some(0),
};

/// With a loop that goes on from the sample 16.
const LOOPED_AT_16: EncodeOptions = EncodeOptions {
    looped: false,
    candidates: None,
    loop_at: Some(16),
};

/// `MONO` with two channels.
const STEREO: [u8; 44] =
    *b"RIFF\xff\xff\xff\xffWAVEfmt \x10\0\0\0\x01\0\x02\0\0\x7d\0\0\0\xfa\0\0\x02\0\x10\0data\xff\xff\xff\xff";

/// Eight times the greatest sample, and eight times the least.
const STEEP: [u8; 32] =
    *b"\xff\x7f\xff\x7f\xff\x7f\xff\x7f\xff\x7f\xff\x7f\xff\x7f\xff\x7f\0\x80\0\x80\0\x80\0\x80\0\x80\0\x80\0\x80\0\x80";

/// Sixteen samples of 4096, and the sixteen that filter 1 makes after them where all digits are 0: each is 15 16ths of the one before.
const FALLING: [u8; 64] =
    *b"\0\x10\0\x10\0\x10\0\x10\0\x10\0\x10\0\x10\0\x10\0\x10\0\x10\0\x10\0\x10\0\x10\0\x10\0\x10\0\x10\
    \0\x0f\x10\x0e\x2e\x0d\x5a\x0c\x94\x0b\xda\x0a\x2c\x0a\x88\x09\xee\x08\x5e\x08\xd8\x07\x5a\x07\xe4\x06\x74\x06\x0c\x06\xaa\x05";

/// A file of this front, these samples, and zeros up to this length.
fn sound_of(alloc: Global, front: &[u8], samples: &[u8], length: usize) -> Result<Vec<u8>, Fail> {
    let mut bytes = Vec::from_slice(alloc, front)?;
    bytes.extend_from_slice(samples)?;
    bytes.resize(length, 0)?;
    Ok(bytes)
}

/// The options, with no more candidates than may be kept open.
fn in_range(options: EncodeOptions) -> EncodeOptions
    ensures { AreInRange result }
{
    match options.candidates {
        Some(candidates) => EncodeOptions {
            candidates: Some(candidates.min(64)),
            ..options
        },
        None => options,
    }
}

/// Encodes a file of this front, these samples, and zeros up to this length, where the calls of these numbers fail.
fn encode_file(
    alloc: Global,
    options: EncodeOptions,
    front: &[u8],
    samples: &[u8],
    length: usize,
    failing: &[u32],
) -> Result<Outcome, Fail> {
    let bytes = sound_of(alloc, front, samples, length)?;
    let mut host = host_with(alloc, &[("IN", bytes.as_slice())], failing, OUTPUT_ROOM)?;
    let refusal = encode(alloc, &mut host, "IN", "OUT", in_range(options));
    Ok(Outcome::of(refusal, host))
}

/// A file of one channel that is encoded, and what it becomes.
#[derive(Drop)]
struct Encoded {
    options: EncodeOptions,
    samples: &'static [u8],
    length: usize,
    blocks: &'static [u8],
    report: &'static str,
}

/// The block of the steep samples.
const STEEP_BLOCK: &[u8] = b"\xc1\x77\x77\x77\x77\x88\x88\x88\x88";

/// What is reported on it.
const STEEP_REPORT: &str = "block 0 header c1 worst 4095 squares 134152200\nblocks 1\n";

/// Sounds and their blocks.
const ENCODED: &[Encoded] = &[
    Encoded {
        options: PLAIN,
        samples: &[],
        length: 76,
        blocks: b"\x01\0\0\0\0\0\0\0\0",
        report: "block 0 header 01 worst 0 squares 0\nblocks 1\n",
    },
    Encoded {
        options: LOOPED,
        samples: &[],
        length: 76,
        blocks: b"\x03\0\0\0\0\0\0\0\0",
        report: "block 0 header 03 worst 0 squares 0\nblocks 1\n",
    },
    Encoded {
        options: PLAIN,
        samples: &[],
        length: 78,
        blocks: b"\0\0\0\0\0\0\0\0\0\x01\0\0\0\0\0\0\0\0",
        report: "block 0 header 00 worst 0 squares 0\nblock 1 header 01 worst 0 squares 0\nblocks 2\n",
    },
    Encoded {
        options: LOOPED_AT_0,
        samples: &[],
        length: 76,
        blocks: b"\x03\0\0\0\0\0\0\0\0",
        report: "block 0 header 03 worst 0 squares 0\nblocks 1\nloop 0\n",
    },
    Encoded {
        options: PLAIN,
        samples: &STEEP,
        length: 76,
        blocks: STEEP_BLOCK,
        report: STEEP_REPORT,
    },
    Encoded {
        options: PLAIN,
        samples: &FALLING,
        length: 108,
        blocks: b"\xa0\x44\x44\x44\x44\x44\x44\x44\x44\x05\0\0\0\0\0\0\0\0",
        report: "block 0 header a0 worst 0 squares 0\nblock 1 header 05 worst 0 squares 0\nblocks 2\n",
    },
    Encoded {
        options: LOOPED,
        samples: &FALLING,
        length: 108,
        blocks: b"\xa0\x44\x44\x44\x44\x44\x44\x44\x44\x07\0\0\0\0\0\0\0\0",
        report: "block 0 header a0 worst 0 squares 0\nblock 1 header 07 worst 0 squares 0\nblocks 2\n",
    },
    // the second block may have filter 0 alone: of its multiples of 512, 3584 lies nearest the first sample
    Encoded {
        options: LOOPED_AT_16,
        samples: &FALLING,
        length: 108,
        blocks: b"\xa0\x44\x44\x44\x44\x44\x44\x44\x44\x93\x77\x76\x65\x55\x44\x44\x33\x33",
        report: "block 0 header a0 worst 0 squares 0\nblock 1 header 93 worst 256 squares 361132\nblocks 2\nloop 16\n",
    },
];

#[test]
fn each_sound_has_its_blocks(rt: HostRuntime) -> Result<(), Fail> {
    for row in ENCODED {
        let outcome = encode_file(rt.alloc(), row.options, MONO, row.samples, row.length, &[])?;
        assert!(rt; outcome.is_done(row.blocks, row.report), "{}", row.report);
    }
    Ok(())
}

/// What is no mono file, and what has too few samples or too many.
const REFUSED: &[(&[u8], usize, Status, &str)] = &[
    (
        &STEREO,
        76,
        Status::WavForm,
        "spcwave: not a mono 16-bit PCM WAV\n",
    ),
    (
        MONO,
        44,
        Status::EncodeSize,
        "spcwave: 0 samples cannot be encoded\n",
    ),
    (
        MONO,
        233006,
        Status::EncodeSize,
        "spcwave: 116481 samples cannot be encoded\n",
    ),
    // as long as may be read
    (
        MONO,
        16777216,
        Status::EncodeSize,
        "spcwave: 8388586 samples cannot be encoded\n",
    ),
    (
        MONO,
        16777217,
        Status::InputTooLong,
        "spcwave: input is too long\n",
    ),
    (
        b"",
        0,
        Status::WavForm,
        "spcwave: not a mono 16-bit PCM WAV\n",
    ),
];

#[test]
fn other_sounds_are_refused(rt: HostRuntime) -> Result<(), Fail> {
    for (front, length, wanted, line) in REFUSED {
        let outcome = encode_file(rt.alloc(), PLAIN, front, &[], *length, &[])?;
        assert!(rt; outcome.is_refused(*wanted, line), "{line}");
    }
    Ok(())
}

#[test]
fn a_loop_goes_on_from_a_sample_that_is_there(rt: HostRuntime) -> Result<(), Fail> {
    let options = EncodeOptions {
        looped: true,
        candidates: None,
        loop_at: Some(16),
    };
    let past = encode_file(rt.alloc(), options, MONO, &STEEP, 76, &[])?;
    let line = "spcwave: 16 samples cannot be encoded\n";
    assert!(rt; past.is_refused(Status::EncodeSize, line));
    let outcome = encode_file(rt.alloc(), options, MONO, &[], 78, &[])?;
    let blocks = b"\0\0\0\0\0\0\0\0\0\x03\0\0\0\0\0\0\0\0";
    let report =
        "block 0 header 00 worst 0 squares 0\nblock 1 header 03 worst 0 squares 0\nblocks 2\nloop 16\n";
    assert!(rt; outcome.is_done(blocks, report));
    Ok(())
}

/// Whether the steep samples may end so where this call fails.
fn may_end_so(outcome: &Outcome, call: u32) -> bool {
    // The input is opened and read twice.
    if call < 3 {
        outcome.is_unread(call)
    } else {
        outcome.is_cut_off(call, STEEP_BLOCK, &[], STEEP_REPORT)
    }
}

#[test]
fn each_call_of_the_host_may_fail(rt: HostRuntime) -> Result<(), Fail> {
    let calls = encode_file(rt.alloc(), PLAIN, MONO, &STEEP, 76, &[])?.calls();
    for call in 0..calls {
        let outcome = encode_file(rt.alloc(), PLAIN, MONO, &STEEP, 76, &[call])?;
        assert!(rt; may_end_so(&outcome, call), "at {call}");
    }
    Ok(())
}

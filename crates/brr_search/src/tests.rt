// Encodings along several candidates. The blocks come from a search that was written anew, in another language, from its definition.
use crate::errors::sum_of_squares;
use crate::{MAX_CANDIDATES, find_encoding};
use brr_encode::EncodeRefusal;
use std::alloc::Global;
use std::test::Fail;

/// A tone with some noise.
const TONE: [i16; 64] = [
    961, 4331, 9272, 9295, 9382, 7991, 6440, 3564, 1117, -2898, -5041, -5199, -9727, -10804, -8862,
    -9734, -6895, -1321, -693, 1031, 5894, 6861, 9744, 8577, 8504, 8697, 3086, 2673, -1316, -5665,
    -6475, -8969, -10724, -7626, -9027, -6332, -1218, -997, 3484, 5699, 7306, 6954, 10323, 7613,
    7940, 5818, 3135, 1, -5660, -5651, -6394, -9553, -10591, -8049, -5981, -4695, 613, 2111, 5434,
    6876, 8342, 10283, 8068, 5779,
];

/// What is found of the tone.
#[derive(Drop)]
struct Found {
    candidates: u8,
    loop_block: usize,
    looped: bool,
    blocks: &'static [u8],
    squares: u64,
}

/// The tone along more and more candidates, and with a loop that goes on from its third block.
const FOUND: &[Found] = &[
    Found {
        candidates: 1,
        loop_block: 0,
        looped: false,
        blocks: b"\xb0\x02\x55\x54\x32\x1f\xed\xbb\xcb\xa8\x52\xb2\x3c\x3c\x11\xb4\xdf\x3f\xac\xf5\xc4\x2c\x5e\x0f\x3b\x3e\xe0\xad\xd4\xfe\x13\x00\x4d\x2f\x01\xdf",
        squares: 11990052,
    },
    Found {
        candidates: 3,
        loop_block: 0,
        looped: false,
        blocks: b"\xb0\x02\x55\x54\x32\x1f\xed\xbb\xcb\xa8\x52\xb2\x3c\x3c\x11\xb4\xdf\x3f\xac\xf5\xc4\x2c\x5e\x0f\x3b\x3e\xe0\x99\xb7\x29\x45\x0e\x7a\x4d\x02\x90",
        squares: 11856692,
    },
    Found {
        candidates: 4,
        loop_block: 0,
        looped: false,
        blocks: b"\xb0\x02\x55\x54\x32\x1f\xed\xbb\xcb\xa8\x52\xb2\x3c\x3c\x11\xb4\xdf\x3f\xac\xf5\xc4\x2c\x5e\x0f\x3b\x3e\xe0\x9d\xa7\x19\x37\xf0\x7b\x4e\x11\xae",
        squares: 11491356,
    },
    Found {
        candidates: 16,
        loop_block: 0,
        looped: false,
        blocks: b"\xb0\x02\x55\x54\x32\x1f\xed\xbb\xcb\xa8\x52\xb2\x3c\x3c\x11\xb4\xdf\x4d\x98\x27\x96\x58\x7d\xfe\x58\x5c\xe0\x9d\xa7\x1a\x27\xf0\x7c\x3e\x12\x80",
        squares: 11318072,
    },
    Found {
        candidates: 64,
        loop_block: 0,
        looped: false,
        blocks: b"\xb0\x02\x55\x54\x32\x1f\xed\xbb\xcb\xa8\x52\xb2\x3c\x3c\x11\xb4\xdf\x4d\x98\x27\x96\x58\x7d\xfe\x58\x5b\x0e\x9d\xc7\xfb\x27\xf0\x7c\x3e\x12\x80",
        squares: 11269556,
    },
    Found {
        candidates: 1,
        loop_block: 2,
        looped: true,
        blocks: b"\xb0\x02\x55\x54\x32\x1f\xed\xbb\xcb\xa8\x52\xb2\x3c\x3c\x11\xb4\xdf\x3f\xb0\xbc\xcd\xf0\x23\x43\x54\x43\x20\xaf\xe4\xfe\x13\x00\x4d\x2f\x01\xdf",
        squares: 16924664,
    },
    Found {
        candidates: 4,
        loop_block: 2,
        looped: true,
        blocks: b"\xb0\x02\x55\x54\x32\x1f\xed\xbb\xcb\xa8\x52\xb2\x3c\x3c\x11\xb4\xdf\x3f\xb0\xbc\xcd\xf0\x23\x43\x54\x43\x20\x9f\xc7\x0b\x26\x00\x7b\x4e\x11\x90",
        squares: 16553664,
    },
];

/// Whether a row is found.
fn is_found(alloc: Global, row: &Found) -> Result<bool, Fail> {
    let candidates = row.candidates.min(MAX_CANDIDATES);
    let found = find_encoding(alloc, candidates, row.loop_block, &TONE, row.looped)?;
    let squares = sum_of_squares(&found.reports);
    Ok(found.bytes.as_slice() == row.blocks && squares == row.squares)
}

#[test]
fn more_candidates_find_cheaper_blocks(rt: HostRuntime) -> Result<(), Fail> {
    for row in FOUND {
        assert!(rt; is_found(rt.alloc(), row)?, "{} candidates", row.candidates);
    }
    Ok(())
}

#[test]
fn no_samples_and_too_many(rt: HostRuntime) -> Result<(), Fail> {
    let none = find_encoding(rt.alloc(), 16, 0, &[], false).err();
    assert!(rt; none == Some(EncodeRefusal::Empty));
    let samples = vec![in rt.alloc(); 0i16; 116481]?;
    let many = find_encoding(rt.alloc(), 16, 0, &samples, false).err();
    assert!(rt; many == Some(EncodeRefusal::TooLong));
    Ok(())
}

// The samples, and the directory of them.
ghost use Rattle.std.specs.Prelude.{◌≡◌, ◌+◌, ◌<◌, ◌≤◌, IfOk, OnOk};
ghost use Rattle.demo_gen.specs.Draws.{state_after};
ghost use Rattle.demo_gen.specs.Places.{with_part};
ghost use Rattle.demo_gen.specs.Samples.{block_filter, block_ends, block_header, sample_byte, sample_bytes, directory_entry, directory};

use crate::OutOfMemory;
use crate::draws::{drawn_byte, next_state};

/// The filter of a block: the first block of a sample has filter 0.
fn block_filter(byte: u8, block: usize) -> u8
    ensures filter { result ≡ block_filter byte block }
    ensures bound { result ≤ 3 }
{
    if block == 0 { 0 } else { byte / 16 % 4 }
}

/// The loop bit and the end bit of a block: the last block of a sample has both.
fn block_ends(block: usize) -> u8
    ensures ends { result ≡ block_ends block }
    ensures bound { result ≤ 3 }
{
    if block == 15 { 3 } else { 0 }
}

/// The header of a block.
fn block_header(byte: u8, block: usize) -> u8
    ensures { result ≡ block_header byte block }
{
    16 * (4 + byte % 7) + 4 * block_filter(byte, block) + block_ends(block)
}

/// The byte at a place of the samples.
fn sample_byte(place: usize, byte: u8) -> u8
    ensures { result ≡ sample_byte place byte }
{
    if place % 9 == 0 {
        block_header(byte, place / 9 % 16)
    } else {
        byte
    }
}

/// Puts bytes of the samples, of which the first has a place there, into the file, and gives the state after their draws.
#[tactic(auto, unfolding(crate::specs::Places::with_part))]
pub fn put_sample_bytes(
    file: &mut Vec<u8>,
    place: usize,
    first: usize,
    count: usize,
    state: u32,
) -> Result<u32, OutOfMemory>
    requires { first + count < 0x10000 }
    ensures bytes { OnOk result (file.new.items ≡ with_part file.old.items place (sample_bytes first count state)) }
    ensures state { IfOk result (λ after. after ≡ state_after count state) }
{
    file.resize(place, 0)?;
    let mut after = state;
    for k in 0..count {
        after = next_state(after);
        file.push(sample_byte(first + k, drawn_byte(after)))?;
    }
    Ok(after)
}

/// The entry of a sample in the directory: its start twice.
fn directory_entry(sample: u16) -> [u8; 4]
    requires { sample < 8 }
    ensures { result ≡ directory_entry sample }
{
    let start = 0x1000 + 0x90 * sample;
    let (low, high) = ((start % 256) as u8, (start / 256) as u8);
    [low, high, low, high]
}

/// Puts the directory into the file.
#[tactic(auto, unfolding(crate::specs::Places::with_part))]
pub fn put_directory(file: &mut Vec<u8>, place: usize) -> Result<(), OutOfMemory>
    ensures { OnOk result (file.new.items ≡ with_part file.old.items place directory) }
{
    file.resize(place, 0)?;
    for sample in 0..8 {
        file.extend_from_slice(&directory_entry(sample))?;
    }
    Ok(())
}

//! How many of the next samples may be made by rows where the echo's buffer lies on pages of what the voices read: those whose cells have
//! no byte that a voice can read in them.

ghost use Rattle.std.specs.Prelude.{◌≡◌, ◌≤◌, ◌<◌, ◌+◌, ◌*◌, ℕ, true};
ghost use Rattle.chip_form.specs.Limits.{max_samples_of_batch};
ghost use Rattle.dsp_state.specs.Valid.{is_valid};
ghost use Rattle.reach_laws.specs.CellsMiss.{CellsMiss, CellsMissChain, CellsMissVoice, CellsMissVoices};
ghost use Rattle.batch_rows.specs.Apart.{VoicesReadTheSame};
ghost use Rattle.batch_rows.specs.CellLine.{line_from};

use aram_core::Aram;
use brr_decode::next_block;
use dsp_state::ChipState;
use dsp_state::registers::{DIR, EDL, ESA, SRCN, voice_register};
use reach_map::{BLOCK_SIZE, CHAIN_BYTES, ChainStart, ENTRY_SIZE};
use voice_unit::{Voice, entry_address, loop_word, start_word};

/// How many of so many cells, which stand in line from an address on, come before the first that has one of a few bytes.
#[inline]
fn cells_before(first: u16, cells: u8, start: u16, count: u16) -> u8
    ensures few { result ≤ cells }
    ensures miss { CellsMiss (line_from first) result start count }
{
    if first.wrapping_sub(start) < count {
        return 0;
    }
    u16::from(cells).min(start.wrapping_sub(first) / 4) as u8
}

/// How many of so many cells in line have no byte of a chain that a voice comes to by then, as the chain is walked.
fn walked_cells(memory: &Aram, chain: ChainStart, first: u16, cells: u8) -> u8
    requires { cells ≤ max_samples_of_batch }
    ensures few { result ≤ cells }
    ensures miss { CellsMissChain (line_from first) memory.now result chain }
{
    let mut left = cells;
    let mut block = chain.block;
    let mut i = 0;
    'walk: while 4 * i <= left + 2 {
        let before = cells_before(first, left, block, BLOCK_SIZE);
        left = before.max((4 * i).saturating_sub(3));
        block = next_block(memory.get(block), block, chain.loop_word);
        i += 1;
    }
    left
}

/// How many of so many cells in line have no byte of a chain that a voice comes to by then. The chain is walked only where the cells are near to
/// its start or to its loop word.
fn chain_cells(memory: &Aram, chain: ChainStart, first: u16, cells: u8) -> u8
    requires { cells ≤ max_samples_of_batch }
    ensures few { result ≤ cells }
    ensures miss { CellsMissChain (line_from first) memory.now result chain }
{
    let start = cells_before(first, cells, chain.block, CHAIN_BYTES);
    let again = cells_before(first, cells, chain.loop_word, CHAIN_BYTES);
    if start == cells && again == cells {
        return cells;
    }
    walked_cells(memory, chain, first, cells)
}

/// How many of so many cells in line have no byte that voice `v` can read by then.
fn voice_cells(state: &ChipState, memory: &Aram, v: u8, voice: &Voice, first: u16, cells: u8) -> u8
    requires voice { v < 8 }
    requires cells { cells ≤ max_samples_of_batch }
    ensures few { result ≤ cells }
    ensures miss { CellsMissVoice (line_from first) state.now memory.now result v voice.now }
{
    let dir = state.registers[DIR];
    let srcn = voice_register(&state.registers, v, SRCN);
    let loop_word = loop_word(dir, srcn, memory);
    let entry = cells_before(first, cells, entry_address(dir, srcn), ENTRY_SIZE);
    let block = voice.block();
    let own = chain_cells(memory, ChainStart { block, loop_word }, first, entry);
    let starts = state.can_start(v, voice);
    if !starts {
        return own;
    }
    let block = start_word(dir, srcn, memory);
    chain_cells(memory, ChainStart { block, loop_word }, first, own)
}

/// How many of so many cells in line have no byte that a voice can read by then.
fn voices_cells(state: &ChipState, memory: &Aram, first: u16, cells: u8) -> u8
    requires { cells ≤ max_samples_of_batch }
    ensures few { result ≤ cells }
    ensures miss { CellsMissVoices (line_from first) state.now memory.now result 0 state.now.hidden.voices }
{
    let mut left = cells;
    for v in 0..8u8 {
        let voice = &state.hidden.voices[usize::from(v)];
        left = voice_cells(state, memory, v, voice, first, left);
    }
    left
}

/// How many of the next n samples write no byte that a voice can read in them. It may report fewer: no clause says how many, and the
/// others are then made one by one.
pub fn samples_apart(state: &ChipState, memory: &Aram, n: u8) -> u8
    requires { n ≤ max_samples_of_batch }
    ensures few { result ≤ n }
    ensures same { (k : ℕ) → is_valid state.now ≡ true → VoicesReadTheSame result k state.now memory.now }
{
    let echo = &state.hidden.echo;
    let cells = echo.cells_in_line(state.registers[EDL], n);
    voices_cells(state, memory, echo.cell(state.registers[ESA]), cells)
}

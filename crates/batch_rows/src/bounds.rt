//! Whether the echo can write what the voices read, by a conservative test that walks no chain.

ghost use Rattle.std.specs.Prelude.{◌≡◌, ◌<◌, ◌≤◌, ◌%◌, true, false, not, slice_index};
ghost use Rattle.aram_core.specs.declared.aram.TheConstants.{MEMORY_SIZE, PAGE_SIZE};
ghost use Rattle.reach_map.specs.Reach.{pages_of_bytes};
ghost use Rattle.echo_unit.specs.Flg.{has_echo_writes};
ghost use Rattle.dsp_state.specs.Reach.{chip_reach};
ghost use Rattle.dsp_state.specs.declared.registers.TheConstants.{FLG};
ghost use Rattle.batch_rows.specs.BoundingPages.{AreApart, IsVoiceApart, bounding_pages, window_from};

use aram_core::{Aram, PAGE_BYTES};
use dsp_state::ChipState;
use dsp_state::registers::{DIR, EDL, ESA, FLG, SRCN, voice_register};
use echo_unit::has_echo_writes;
use reach_map::{CHAIN_BYTES, ENTRY_SIZE};
use voice_unit::{Voice, entry_address, loop_word, start_word};

/// Whether a few bytes have no page of a window of whole pages: from its start to the last of them it is further than both are long.
#[inline]
fn are_bytes_apart(start: u16, count: u16, esa: u8, len: u32) -> bool
    requires some { 1 ≤ count }
    requires few { count ≤ PAGE_SIZE }
    requires most { len ≤ MEMORY_SIZE }
    requires whole { len % PAGE_SIZE ≡ 0 }
    ensures { result ≡ true → AreApart (pages_of_bytes start count) (window_from esa len) }
{
    let more = count - 1;
    let distance = start
        .wrapping_sub(PAGE_BYTES * u16::from(esa))
        .wrapping_add(more);
    len + u32::from(more) <= u32::from(distance)
}

/// Whether a chain has no page of a window of whole pages.
#[inline]
fn is_chain_apart(block: u16, loop_word: u16, esa: u8, len: u32) -> bool
    requires most { len ≤ MEMORY_SIZE }
    requires whole { len % PAGE_SIZE ≡ 0 }
    ensures { result ≡ true → AreApart (bounding_pages (record { block = block; loop_word = loop_word })) (window_from esa len) }
{
    if !are_bytes_apart(block, CHAIN_BYTES, esa, len) {
        return false;
    }
    are_bytes_apart(loop_word, CHAIN_BYTES, esa, len)
}

/// Whether what voice `v` can read has no page of a window of whole pages.
fn is_voice_apart(state: &ChipState, memory: &Aram, v: u8, voice: &Voice, esa: u8, len: u32) -> bool
    requires voice { v < 8 }
    requires most { len ≤ MEMORY_SIZE }
    requires whole { len % PAGE_SIZE ≡ 0 }
    ensures { result ≡ true → IsVoiceApart state.now memory.now v voice.now esa len }
{
    let dir = state.registers[DIR];
    let srcn = voice_register(&state.registers, v, SRCN);
    let again = loop_word(dir, srcn, memory);
    if !are_bytes_apart(entry_address(dir, srcn), ENTRY_SIZE, esa, len) {
        return false;
    }
    if !is_chain_apart(voice.block(), again, esa, len) {
        return false;
    }
    let starts = state.can_start(v, voice);
    if !starts {
        return true;
    }
    is_chain_apart(start_word(dir, srcn, memory), again, esa, len)
}

/// So many bytes, up to the end of their last page.
fn whole_pages(len: u32) -> u32
    requires { len ≤ MEMORY_SIZE }
    ensures least { len ≤ result }
    ensures most { result ≤ MEMORY_SIZE }
    ensures whole { result % PAGE_SIZE ≡ 0 }
{
    let page = u32::from(PAGE_BYTES);
    (len + (page - 1)) / page * page
}

/// Whether what the voices can read has no page of the echo's window, by a conservative test.
fn are_bounds_apart(state: &ChipState, memory: &Aram) -> bool
    ensures { result ≡ true → (chip_reach state.now memory.now).entangled ≡ false }
{
    let esa = state.registers[ESA];
    let window = state.hidden.echo.window(esa, state.registers[EDL]);
    let len = whole_pages(window.len);
    for v in 0..8u8 {
        let voice = &state.hidden.voices[usize::from(v)];
        if !is_voice_apart(state, memory, v, voice, esa, len) {
            return false;
        }
    }
    true
}

/// Whether FLG keeps the echo from writing.
fn is_still(state: &ChipState) -> bool
    ensures { result ≡ true → has_echo_writes (slice_index state.now.registers FLG) ≡ false }
{
    !has_echo_writes(state.registers[FLG])
}

/// Whether a conservative test shows that the echo can't write what the voices read in the next 64 samples. `false` may come at any time: no clause says
/// when, and the caller then walks the chains.
pub fn is_echo_surely_apart(state: &ChipState, memory: &Aram) -> bool
    ensures { result ≡ true → (chip_reach state.now memory.now).entangled ≡ false }
{
    let still = is_still(state);
    if still {
        return true;
    }
    are_bounds_apart(state, memory)
}

/// Whether the echo can't write what the voices read in the next 64 samples. Chains are walked only where the conservative test fails.
pub fn is_echo_apart(state: &ChipState, memory: &Aram) -> bool
    ensures { result ≡ not (chip_reach state.now memory.now).entangled }
{
    let surely = is_echo_surely_apart(state, memory);
    if surely {
        return true;
    }
    !state.reach(memory).entangled
}

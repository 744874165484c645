//! What a sample leaves in the registers.

ghost use Rattle.std.specs.Prelude.{◌≡◌, ◌<◌, ◌+◌, ◌*◌, ◌^◌, bit_or, slice_set, if◌then◌else◌};
ghost use Rattle.dsp_state.specs.Results.{is_result, bits_from, with_levels_from, next_endx, registers_after, without_bits};

use crate::registers::{ENDX, ENVX, OUTX, Registers};
use voice_unit::VoiceOut;

/// Whether samples write the register at an address, taken modulo 128: ENVX, OUTX or ENDX.
pub fn is_result(address: u8) -> bool
    ensures { result ≡ is_result address }
{
    let register = usize::from(address % 0x80);
    register % 16 == ENVX || register % 16 == OUTX || register == ENDX
}

/// Bit `v` where a test holds.
fn bit(test: bool, v: u8) -> u8
    requires { v < 8 }
    ensures { result ≡ (if test then 2 ^ v else 0) }
{
    if test { 1 << v } else { 0 }
}

/// The bits of the voices that ended.
fn ended_bits(answers: &[VoiceOut; 8]) -> u8
    ensures { result ≡ bits_from (λ answer. answer.ended) 0 answers.now }
{
    let mut bits = 0;
    for v in 0..8u8 {
        bits += bit(answers[usize::from(v)].ended, v);
    }
    bits
}

/// ENDX after a sample: it gains the voices that ended, and then loses those that were keyed.
pub fn next_endx(endx: u8, ended: u8, keyed: u8) -> u8
    ensures { result ≡ without_bits (bit_or endx ended) keyed }
{
    (endx | ended) & (0xff - keyed)
}

/// ENDX after the answers of a sample in which these voices were keyed.
#[tactic(auto, unfolding(crate::specs::Results::next_endx))]
fn endx_after(endx: u8, keyed: u8, answers: &[VoiceOut; 8]) -> u8
    requires { keyed ≡ bits_from (λ answer. answer.keyed) 0 answers.now }
    ensures { result ≡ next_endx endx answers.now }
{
    next_endx(endx, ended_bits(answers), keyed)
}

/// Puts ENVX and OUTX of voice `v`.
fn put_levels(registers: &mut Registers, v: u8, answer: &VoiceOut)
    requires { v < 8 }
    ensures { registers.new ≡ slice_set (slice_set registers.old (16 * v + ENVX) answer.now.envx) (16 * v + OUTX) answer.now.outx }
{
    let base = 16 * usize::from(v);
    registers[base + ENVX] = answer.envx;
    registers[base + OUTX] = answer.outx;
}

/// Puts ENVX and OUTX of each voice.
pub fn put_all_levels(registers: &mut Registers, answers: &[VoiceOut; 8])
    ensures { registers.new ≡ with_levels_from 0 answers.now registers.old }
{
    for v in 0..8u8 {
        put_levels(registers, v, &answers[usize::from(v)]);
    }
}

/// Puts ENVX, OUTX and ENDX after a sample in which these voices were keyed.
#[tactic(auto, unfolding(crate::specs::Results::registers_after))]
pub fn put_results(registers: &mut Registers, keyed: u8, answers: &[VoiceOut; 8])
    requires { keyed ≡ bits_from (λ answer. answer.keyed) 0 answers.now }
    ensures { registers.new ≡ registers_after answers.now registers.old }
{
    let endx = endx_after(registers[ENDX], keyed, answers);
    put_all_levels(registers, answers);
    registers[ENDX] = endx;
}

// Samples of files with one channel.
ghost use Rattle.std.specs.Prelude.{◌≡◌, ◌⊎◌, Ok, Err, false, codes, if◌then◌else◌, IfOk, IfErr, OnOk};
ghost use Rattle.wav_form.specs.Chunks.{chunks_from, is_named, is_cut};
ghost use Rattle.wav_form.specs.Seen.{chunk_of, PassesOver};
ghost use Rattle.num_fix.specs.SignedWords.{signed_words};
ghost use Rattle.wav_form.specs.Mono.{is_mono_format, is_wave, samples_of_chunks, mono_samples};

use crate::chunk::{Chunk, after};
use crate::{OutOfMemory, WavRefusal};
use byteorder::{ByteOrder, LittleEndian};
use std::alloc::Global;

/// Bytes read as samples, two by two; an odd last byte is dropped.
fn samples(alloc: Global, bytes: &[u8]) -> Result<Vec<i16>, OutOfMemory>
    ensures { IfOk result (λ samples. samples.items ≡ signed_words bytes.now) }
{
    let mut samples = Vec::with_capacity(alloc, bytes.len() / 2)?;
    let mut rest = bytes;
    'pairs: while let Some((pair, tail)) = rest.split_first_chunk::<2>() {
        samples.push(LittleEndian::read_i16(pair))?;
        rest = tail;
    }
    Ok(samples)
}

/// Whether the body of a `fmt ` chunk shows PCM with one channel of 16 bits.
fn is_mono_format(body: &[u8]) -> bool
    ensures { result ≡ is_mono_format body.now }
{
    body.len() >= 16
        && LittleEndian::read_u16(body) == 1
        && LittleEndian::read_u16(&body[2..]) == 1
        && LittleEndian::read_u16(&body[14..]) == 16
}

/// Whether bytes begin as a WAV file.
fn is_wave(bytes: &[u8]) -> bool
    ensures { result ≡ is_wave bytes.now }
{
    bytes.len() >= 12 && bytes[..4].starts_with(b"RIFF") && bytes[8..12].starts_with(b"WAVE")
}

/// Passes over a chunk that isn't one of samples, and returns whether a format was seen by then.
fn pass_over(chunk: Chunk<'_>, has_format: bool) -> Result<bool, WavRefusal>
    requires { is_named (codes "data") (chunk_of chunk) ≡ false }
    ensures passes { PassesOver has_format (chunk_of chunk.entry) result }
    ensures whole { OnOk result (is_cut (chunk_of chunk.entry) ≡ false) }
{
    if chunk.is_cut() {
        return Err(WavRefusal::Cut(chunk.place));
    }
    if has_format {
        return Ok(true);
    }
    if !chunk.is_named(b"fmt ") {
        return Ok(false);
    }
    if is_mono_format(chunk.body) {
        Ok(true)
    } else {
        Err(WavRefusal::Format)
    }
}

/// What is missing where the chunks end without one of samples.
fn refusal_at_end(has_format: bool) -> WavRefusal
    ensures { result ≡ (if has_format then WavRefusal.NoData else WavRefusal.NoFormat) }
{
    if has_format {
        WavRefusal::NoData
    } else {
        WavRefusal::NoFormat
    }
}

/// The samples of the chunks after the first twelve bytes.
fn walk(alloc: Global, bytes: &[u8]) -> Result<Vec<i16>, WavRefusal>
    ensures samples { IfOk result (λ samples. samples_of_chunks false (chunks_from 12 bytes.now) ≡ Ok samples.items) }
    ensures refused { IfErr (samples_of_chunks false (chunks_from 12 bytes.now)) (λ refusal. result ≡ Err refusal) }
    ensures causes { IfErr result (λ refusal. (samples_of_chunks false (chunks_from 12 bytes.now) ≡ Err refusal) ⊎ (refusal ≡ WavRefusal.OutOfMemory)) }
{
    let mut rest = bytes;
    let mut place = 12;
    let mut has_format = false;
    'chunks: while let Some(chunk) = Chunk::first(place, rest) {
        if chunk.is_named(b"data") {
            if has_format {
                return Ok(samples(alloc, chunk.body)?);
            }
            return Err(WavRefusal::NoFormat);
        }
        has_format = pass_over(chunk, has_format)?;
        let length = chunk.length();
        place += length;
        rest = after(rest, length);
    }
    Err(refusal_at_end(has_format))
}

/// Reads the samples of a file with one channel of 16 bits of PCM. Chunks with other names are passed over, and a `data`
/// chunk that runs past the end stops there, as tools that stream leave it. No memory is taken for bytes that are refused.
pub fn read_mono(alloc: Global, bytes: &[u8]) -> Result<Vec<i16>, WavRefusal>
    ensures samples { IfOk result (λ samples. mono_samples bytes.now ≡ Ok samples.items) }
    ensures refused { IfErr (mono_samples bytes.now) (λ refusal. result ≡ Err refusal) }
    ensures causes { IfErr result (λ refusal. (mono_samples bytes.now ≡ Err refusal) ⊎ (refusal ≡ WavRefusal.OutOfMemory)) }
{
    if is_wave(bytes) {
        walk(alloc, &bytes[12..])
    } else {
        Err(WavRefusal::NotWave)
    }
}

//! The example tune is accepted, its tags and its length are those of its description, and its first second is heard.
#![tactic(auto)]

use command_info::info;
use command_render::{RenderOptions, render};
use num_fix::SAMPLE_RATE;
use spc_form::{Length, SpcRefusal, read_spc};
use std::alloc::Global;
use std::rt::Stdout;
use std::{fs, io};
use test_support::{HEADER_SIZE, OUTPUT_ROOM, Outcome, host_with};

/// The tune.
const TUNE: &str = "tune.spc";

/// The table of weights that it is rendered over.
const TABLE: &str = "gauss.table";

/// The sound file that a render of it writes.
const WAVE: &str = "tune.wav";

/// The frames of a second.
const SECOND: u32 = SAMPLE_RATE;

/// A sample that is heard.
const HEARD: i16 = 1000;

/// The length that a file's tags say; none where it is refused.
fn length_of(alloc: Global, bytes: &[u8]) -> io::Result<Option<Length>> {
    match read_spc(alloc, bytes) {
        Ok(file) => Ok(Some(file.length())),
        Err(SpcRefusal::OutOfMemory) => Err(io::Error::from(io::ErrorKind::OutOfMemory)),
        Err(_) => Ok(None),
    }
}

/// What `info` shows of a file.
fn known_of(alloc: Global, file: &[u8]) -> io::Result<Outcome> {
    let mut host = host_with(alloc, &[(TUNE, file)], &[], OUTPUT_ROOM)?;
    let refusal = info(alloc, &mut host, TUNE);
    Ok(Outcome::of(refusal, host))
}

/// A render of the first second.
fn first_second(alloc: Global, file: &[u8], table: &[u8]) -> io::Result<Outcome> {
    let mut host = host_with(alloc, &[(TUNE, file), (TABLE, table)], &[], OUTPUT_ROOM)?;
    let options = RenderOptions {
        samples: Some(SECOND),
        trace: None,
        voices: None,
        muted: None,
    };
    let refusal = render(alloc, &mut host, TUNE, TABLE, WAVE, options);
    Ok(Outcome::of(refusal, host))
}

/// Whether a sound file has a sample that is heard.
fn is_heard(wave: &[u8]) -> bool {
    for sample in wave.get(HEADER_SIZE..).unwrap_or(&[]).chunks_exact(2) {
        if let [low, high] = sample {
            if i16::from_le_bytes([*low, *high]) > HEARD {
                return true;
            }
        }
    }
    false
}

fn main(rt: HostRuntime) -> io::Result<()> {
    let alloc = rt.alloc();
    let tune = fs::read(&rt, TUNE)?;
    let table = fs::read(&rt, TABLE)?;

    let known = known_of(alloc, tune.as_slice())?;
    println!(rt; "info ends with status {}", known.status().code())?;
    rt.stdout().write_all(known.report())?;
    if let Some(Length { frames, fade }) = length_of(alloc, tune.as_slice())? {
        println!(rt; "length {frames} with a fade of {fade}")?;
    }

    let rendered = first_second(alloc, tune.as_slice(), table.as_slice())?;
    println!(rt; "render ends with status {}", rendered.status().code())?;
    let wave = rendered.first();
    println!(rt;
        "sound file of {} bytes, heard: {}",
        wave.len(),
        is_heard(wave)
    )
}

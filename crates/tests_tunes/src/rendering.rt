// What the tests of `render` share: renders over a host in memory, and what they have.
ghost use Rattle.std.specs.Prelude.{◌≡◌, Some, None};
ghost use Rattle.command_render.specs.Options.{SamplesWithinHour};

use command_render::{RenderOptions, render};
use std::alloc::Global;
use std::test::Fail;
use test_support::{
    FILE_LENGTH, Frames, OUTPUT_ROOM, Outcome, Pieces, file_of, host_with, straight_table, wave_of,
};

/// No options.
pub fn no_options() -> RenderOptions<'static>
    ensures { result.samples ≡ None }
{
    RenderOptions {
        samples: None,
        trace: None,
        voices: None,
        muted: None,
    }
}

/// No options but a number of samples.
pub fn samples(count: u32) -> RenderOptions<'static>
    ensures { result.samples ≡ Some count }
{
    RenderOptions {
        samples: Some(count),
        trace: None,
        voices: None,
        muted: None,
    }
}

/// Maybe a number of samples, and a trace of these voices.
pub fn with_trace(samples: Option<u32>, voices: Option<u8>) -> RenderOptions<'static>
    ensures { result.samples ≡ samples }
{
    RenderOptions {
        samples,
        trace: Some("T"),
        voices,
        muted: None,
    }
}

/// Renders the file over the table to `OUT`, with these options, where the calls of these numbers fail.
pub fn render_failing(
    alloc: Global,
    file: &[u8],
    table: &[u8],
    options: RenderOptions<'_>,
    failing: &[u32],
) -> Result<Outcome, Fail>
    requires { SamplesWithinHour options.samples }
{
    let inputs = [("SPC", file), ("TABLE", table)];
    let mut host = host_with(alloc, &inputs, failing, OUTPUT_ROOM)?;
    let refusal = render(alloc, &mut host, "SPC", "TABLE", "OUT", options);
    Ok(Outcome::of(refusal, host))
}

/// Renders a file over the table of straight lines.
pub fn render_straight(
    alloc: Global,
    file: &[u8],
    options: RenderOptions<'_>,
) -> Result<Outcome, Fail>
    requires { SamplesWithinHour options.samples }
{
    let table = straight_table(alloc)?;
    render_failing(alloc, file, table.as_slice(), options, &[])
}

/// A file of these pieces over the base file, later ones over earlier ones.
pub fn tune_of(alloc: Global, pieces: Pieces, more: Pieces) -> Result<Vec<u8>, Fail> {
    Ok(file_of(alloc, FILE_LENGTH, pieces, more)?)
}

/// Whether all was done, with the sound file of these frames and this report.
fn has_frames(
    alloc: Global,
    outcome: &Outcome,
    frames: Frames,
    report: &str,
) -> Result<bool, Fail> {
    let wave = wave_of(alloc, frames)?;
    Ok(outcome.is_done(wave.as_slice(), report))
}

/// Renders a file of these pieces over the table of straight lines.
pub fn render_tune(
    alloc: Global,
    pieces: Pieces,
    more: Pieces,
    options: RenderOptions<'_>,
) -> Result<Outcome, Fail>
    requires { SamplesWithinHour options.samples }
{
    let file = tune_of(alloc, pieces, more)?;
    render_straight(alloc, file.as_slice(), options)
}

/// Whether all was done, with the sound file of these frames and a report of so many samples and these batches.
pub fn is_rendered(
    alloc: Global,
    outcome: &Outcome,
    samples: u32,
    frames: Frames,
    batches: &str,
) -> Result<bool, Fail> {
    let report = expected_report(alloc, samples, batches)?;
    has_frames(alloc, outcome, frames, report.as_str())
}

/// What a render of so many samples reports, with the line of its batches.
fn expected_report(alloc: Global, samples: u32, batches: &str) -> Result<String, Fail> {
    Ok(format!(in alloc; "samples {samples}\n{batches}")?)
}

/// Nothing is made.
pub const NO_BATCH: &str = "batches 0 register 0 memory 0 echo 0 full 0 events 0 end 0\n";

/// All samples are made at the end.
pub const ONE_BATCH: &str = "batches 1 register 0 memory 0 echo 0 full 0 events 0 end 1\n";

/// The lines of voice 0, which is heard from sample 6 on.
pub const LINES: &str =
    "V 0 0 0 0 0000 k-\nV 1 0 0 0 0500 --\nV 2 0 0 0 0500 --\nV 3 0 0 0 0500 --\nV 4 0 0 0 0500 --\n\
    V 5 0 0 0 0500 --\nV 6 0 2032 4064 0500 --\nV 7 0 2032 4064 0500 --\n";

/// A render, and the frames that it has.
#[derive(Drop)]
pub struct Heard {
    pub shows: &'static str,
    /// What the file has over a quiet one, and what it has over that.
    pub sound: Pieces,
    pub more: Pieces,
    pub samples: u8,
    pub frames: Frames,
    pub batches: &'static str,
}

impl Heard {
    /// Whether the render has its frames and its report.
    pub fn holds(&self, alloc: Global) -> Result<bool, Fail> {
        let count = u32::from(self.samples);
        let outcome = render_tune(alloc, self.sound, self.more, samples(count))?;
        is_rendered(alloc, &outcome, count, self.frames, self.batches)
    }
}

/// A render, and the frames and the trace that it has.
#[derive(Drop)]
pub struct Traced {
    pub shows: &'static str,
    pub sound: Pieces,
    pub more: Pieces,
    pub samples: u8,
    pub voices: Option<u8>,
    pub frames: Frames,
    pub trace: &'static str,
    pub batches: &'static str,
}

impl Traced {
    /// Whether the render without the trace has its frames and its report.
    fn is_plain(&self, alloc: Global) -> Result<bool, Fail> {
        let count = u32::from(self.samples);
        let outcome = render_tune(alloc, self.sound, self.more, samples(count))?;
        is_rendered(alloc, &outcome, count, self.frames, self.batches)
    }

    /// Whether the render has its frames, its trace and its report.
    fn is_traced(&self, alloc: Global) -> Result<bool, Fail> {
        let count = u32::from(self.samples);
        let options = with_trace(Some(count), self.voices);
        let outcome = render_tune(alloc, self.sound, self.more, options)?;
        Ok(
            outcome.second() == self.trace.as_bytes()
                && is_rendered(alloc, &outcome, count, self.frames, self.batches)?,
        )
    }

    /// Whether the render has its frames, its trace and its report, and the same without the trace.
    pub fn holds(&self, alloc: Global) -> Result<bool, Fail> {
        Ok(self.is_plain(alloc)? && self.is_traced(alloc)?)
    }
}

// Renders over a host in memory.
ghost use Rattle.command_render.specs.Options.{SamplesWithinHour};

use crate::rendering::{
    Heard, LINES, NO_BATCH, ONE_BATCH, is_rendered, no_options, render_failing, render_tune,
    samples, tune_of, with_trace,
};
use command_render::{RenderOptions, render};
use exit_status::Status;
use std::alloc::Global;
use std::test::Fail;
use test_support::{
    DSP, ENDS_THE_BLOCK, FILE_LENGTH, FIVE, Frames, HEADER_SIZE, MEMORY, OUTPUT_ROOM, Outcome,
    Pieces, TAGS, file_of, host_with, straight_table, wave_of,
};

/// The program stops.
const STOP: Pieces = &[(MEMORY + 0x0400, b"\xff")];

/// A table whose entries are all the same.
fn flat_table(alloc: Global, weight: i16) -> Result<Vec<u8>, Fail> {
    let mut table = Vec::new(alloc);
    for _ in 0..512 {
        table.extend_from_slice(&weight.to_le_bytes())?;
    }
    Ok(table)
}

const RING: Pieces = &[(MEMORY + 0x0200, b"\x00\x05\x00\x05")];

const NOISE: Pieces = &[(DSP + 0x3d, b"\x01"), (DSP + 0x6c, b"\x3f")];

const ECHO: Pieces = &[
    (DSP + 0x6c, b"\x00"),
    (DSP + 0x4d, b"\x01"),
    (DSP + 0x2c, b"\x7f"),
    (DSP + 0x3c, b"\x7f"),
    (DSP + 0x7f, b"\x7f"),
];

/// Three batches of 64 samples, and one of those that are left.
const FOUR_BATCHES: &str = "batches 4 register 0 memory 0 echo 0 full 3 events 0 end 1\n";

/// The program writes to 0700h in a loop, and the echo to 0300h, where the directory of the samples lies.
const ENTANGLED: Pieces = &[
    (DSP + 0x5d, b"\x03"),
    (DSP + 0x6c, b"\x00\x03"),
    (MEMORY + 0x0400, b"\xc5\x00\x07\x2f\xfb"),
];

/// The same with the echo at 0500h.
const APART: Pieces = &[
    (DSP + 0x5d, b"\x03"),
    (DSP + 0x6c, b"\x00\x05"),
    (MEMORY + 0x0400, b"\xc5\x00\x07\x2f\xfb"),
];

/// The program reads the envelope of voice 0 in a loop of 7 cycles, first in cycle 8, and the echo writes to 0000h, in the page of F3h. Samples are due in the
/// cycles 32, 64 and 96, the last of the loop's 13th iteration. The reads of the cycles 36 and 64 find one that waits: both the register and the page ask for it.
const BOTH_CAUSES: Pieces = &[
    (DSP + 0x6c, b"\x00\x00"),
    (MEMORY + 0x0400, b"\x8f\x08\xf2\xe4\xf3\x2f\xfc"),
];

/// What is heard.
const HEARD: &[Heard] = &[
    Heard {
        shows: "no samples",
        sound: &[],
        more: &[],
        samples: 0,
        frames: &[],
        batches: NO_BATCH,
    },
    Heard {
        shows: "silence",
        sound: &[],
        more: &[],
        samples: 4,
        frames: &[(4, 0)],
        batches: ONE_BATCH,
    },
    Heard {
        shows: "a voice",
        sound: FIVE,
        more: &[],
        samples: 8,
        frames: &[(6, 0), (2, 4000)],
        batches: ONE_BATCH,
    },
    Heard {
        shows: "a voice whose tags give another length and a fade",
        sound: FIVE,
        more: TAGS,
        samples: 8,
        frames: &[(6, 0), (2, 4000)],
        batches: ONE_BATCH,
    },
    Heard {
        shows: "a voice goes on",
        sound: FIVE,
        more: &[],
        samples: 200,
        frames: &[(6, 0), (194, 4000)],
        batches: FOUR_BATCHES,
    },
    Heard {
        shows: "a voice goes on where the program stops",
        sound: FIVE,
        more: STOP,
        samples: 200,
        frames: &[(6, 0), (194, 4000)],
        batches: FOUR_BATCHES,
    },
    Heard {
        shows: "a voice goes on where its block repeats itself",
        sound: FIVE,
        more: RING,
        samples: 200,
        frames: &[(6, 0), (194, 4000)],
        batches: FOUR_BATCHES,
    },
    Heard {
        shows: "noise",
        sound: FIVE,
        more: NOISE,
        samples: 8,
        frames: &[(6, 0), (1, 250), (1, 124)],
        batches: ONE_BATCH,
    },
    Heard {
        shows: "echo",
        sound: FIVE,
        more: ECHO,
        samples: 9,
        frames: &[(6, 0), (1, 4000), (2, 7968)],
        batches: ONE_BATCH,
    },
    Heard {
        shows: "the echo in the page of the directory",
        sound: &[],
        more: ENTANGLED,
        samples: 3,
        frames: &[(3, 0)],
        batches: "batches 3 register 0 memory 2 echo 0 full 0 events 0 end 1\n",
    },
    Heard {
        shows: "the echo in another page",
        sound: &[],
        more: APART,
        samples: 3,
        frames: &[(3, 0)],
        batches: ONE_BATCH,
    },
    Heard {
        shows: "a result that is read in the echo's page",
        sound: &[],
        more: BOTH_CAUSES,
        samples: 3,
        frames: &[(3, 0)],
        batches: "batches 3 register 2 memory 0 echo 0 full 0 events 0 end 1\n",
    },
    Heard {
        shows: "the voice ends after sample 63, as the program has it",
        sound: FIVE,
        more: ENDS_THE_BLOCK,
        samples: 70,
        frames: &[(6, 0), (58, 4000), (6, 0)],
        batches: "batches 2 register 0 memory 1 echo 0 full 0 events 0 end 1\n",
    },
];

#[test]
fn files_have_their_frames_and_their_batches(rt: HostRuntime) -> Result<(), Fail> {
    for row in HEARD {
        assert!(rt; row.holds(rt.alloc())?, "{}", row.shows);
    }
    Ok(())
}

/// Renders eight samples of the voice over a table whose entries are all the same.
fn render_flat(alloc: Global, weight: i16) -> Result<Outcome, Fail> {
    let file = tune_of(alloc, FIVE, &[])?;
    let table = flat_table(alloc, weight)?;
    render_failing(alloc, file.as_slice(), table.as_slice(), samples(8), &[])
}

/// Whether the voice has these samples over a table whose entries are all the same.
fn is_weighed(alloc: Global, weight: i16, frames: Frames) -> Result<bool, Fail> {
    let outcome = render_flat(alloc, weight)?;
    is_rendered(alloc, &outcome, 8, frames, ONE_BATCH)
}

#[test]
fn a_table_weighs_the_samples(rt: HostRuntime) -> Result<(), Fail> {
    assert!(rt; is_weighed(rt.alloc(), -32768, &[(6, 0), (2, -32006)])?);
    assert!(rt; is_weighed(rt.alloc(), 10000, &[(6, 0), (2, 14125)])?);
    Ok(())
}

/// A second of sound, and a fade of 32 samples, each 125 quieter than the one before it.
const FADED: Frames = &[
    (6, 0),
    (31994, 4000),
    (1, 3875),
    (1, 3750),
    (1, 3625),
    (1, 3500),
    (1, 3375),
    (1, 3250),
    (1, 3125),
    (1, 3000),
    (1, 2875),
    (1, 2750),
    (1, 2625),
    (1, 2500),
    (1, 2375),
    (1, 2250),
    (1, 2125),
    (1, 2000),
    (1, 1875),
    (1, 1750),
    (1, 1625),
    (1, 1500),
    (1, 1375),
    (1, 1250),
    (1, 1125),
    (1, 1000),
    (1, 875),
    (1, 750),
    (1, 625),
    (1, 500),
    (1, 375),
    (1, 250),
    (1, 125),
    (1, 0),
];

#[test]
fn tags_give_the_length_and_the_fade(rt: HostRuntime) -> Result<(), Fail> {
    let outcome = render_tune(rt.alloc(), FIVE, TAGS, no_options())?;
    let line = "batches 501 register 0 memory 0 echo 0 full 500 events 0 end 1\n";
    assert!(rt; is_rendered(rt.alloc(), &outcome, 32032, FADED, line)?);
    Ok(())
}

/// The sound of voice 0 with these voices muted.
fn is_heard_so(alloc: Global, muted: u8, frames: Frames) -> Result<bool, Fail> {
    let options = RenderOptions {
        muted: Some(muted),
        ..samples(8)
    };
    let outcome = render_tune(alloc, FIVE, &[], options)?;
    Ok(is_rendered(alloc, &outcome, 8, frames, ONE_BATCH)?)
}

#[test]
fn a_muted_voice_is_not_heard(rt: HostRuntime) -> Result<(), Fail> {
    assert!(rt; is_heard_so(rt.alloc(), 0x01, &[(8, 0)])?);
    assert!(rt; is_heard_so(rt.alloc(), 0xfe, &[(6, 0), (2, 4000)])?);
    Ok(())
}

/// A render that is refused.
struct Refused {
    /// The length of the file, and what it has over a quiet one.
    length: usize,
    more: Pieces,
    /// The name under which the table is asked for, and how many zeros it has.
    name: &'static str,
    zeros: usize,
    status: Status,
    line: &'static str,
}

/// The file is refused before the table, whose length is wrong in all rows.
const REFUSED: &[Refused] = &[
    Refused {
        length: 100,
        more: &[],
        name: "TABLE",
        zeros: 3,
        status: Status::SpcLength,
        line: "spcwave: length 100 is not that of an SPC file\n",
    },
    Refused {
        length: FILE_LENGTH,
        more: &[(3, b"\0")],
        name: "TABLE",
        zeros: 3,
        status: Status::SpcSignature,
        line: "spcwave: signature differs at 3\n",
    },
    Refused {
        length: FILE_LENGTH,
        more: &[],
        name: "NONE",
        zeros: 3,
        status: Status::ReadFault,
        line: "spcwave: input could not be read\n",
    },
    Refused {
        length: FILE_LENGTH,
        more: &[],
        name: "TABLE",
        zeros: 1023,
        status: Status::TableLength,
        line: "spcwave: table has 1023 bytes, not 1024\n",
    },
    Refused {
        length: FILE_LENGTH,
        more: &[],
        name: "TABLE",
        zeros: 1048577,
        status: Status::InputTooLong,
        line: "spcwave: input is too long\n",
    },
];

/// Whether it is refused so over these inputs.
fn is_refused_over(alloc: Global, row: &Refused, inputs: &[(&str, &[u8])]) -> Result<bool, Fail> {
    let mut host = host_with(alloc, inputs, &[], OUTPUT_ROOM)?;
    let options = with_trace(None, None);
    let refusal = render(alloc, &mut host, "SPC", row.name, "OUT", options);
    Ok(Outcome::of(refusal, host).is_refused(row.status, row.line))
}

/// Whether it is refused so.
fn is_refused(alloc: Global, row: &Refused) -> Result<bool, Fail> {
    let file = file_of(alloc, row.length, &[], row.more)?;
    let table = vec![in alloc; 0u8; row.zeros]?;
    let inputs = [("SPC", file.as_slice()), ("TABLE", table.as_slice())];
    is_refused_over(alloc, row, &inputs)
}

#[test]
fn files_and_then_tables_are_refused(rt: HostRuntime) -> Result<(), Fail> {
    for row in REFUSED {
        assert!(rt; is_refused(rt.alloc(), row)?, "{}", row.line);
    }
    Ok(())
}

/// What a render of eight samples reports.
const EIGHT: &str = "samples 8\nbatches 1 register 0 memory 0 echo 0 full 0 events 0 end 1\n";

/// The inputs and the sound file of a render of eight samples, and its trace.
#[derive(Clone, Copy)]
struct Eight<'a> {
    file: &'a [u8],
    table: &'a [u8],
    wave: &'a [u8],
    trace: &'a [u8],
}

/// Whether the trace has no byte before the head of the sound file is whole.
fn has_head_first(outcome: &Outcome) -> bool {
    outcome.second().is_empty() || outcome.first().len() >= HEADER_SIZE
}

impl Eight<'_> {
    /// Whether it may end so where this call fails, of so many.
    fn may_end_so(&self, outcome: &Outcome, call: u32, calls: u32) -> bool {
        // The file is opened and read 18 times, the table twice.
        if call < 22 {
            outcome.is_unread(call)
        } else if call < calls {
            outcome.is_cut_off(call, self.wave, self.trace, EIGHT) && has_head_first(outcome)
        } else {
            outcome.is_done(self.wave, EIGHT) && outcome.second() == self.trace
        }
    }

    /// Renders it, where the calls of these numbers fail.
    fn render(
        &self,
        alloc: Global,
        options: RenderOptions<'_>,
        failing: &[u32],
    ) -> Result<Outcome, Fail>
        requires { SamplesWithinHour options.samples }
    {
        render_failing(alloc, self.file, self.table, options, failing)
    }

    /// The first of the calls that leaves what it may not where it fails.
    fn first_lawless_call(
        &self,
        alloc: Global,
        options: RenderOptions<'_>,
    ) -> Result<Option<u32>, Fail>
        requires { SamplesWithinHour options.samples }
    {
        let calls = self.render(alloc, options, &[])?.calls();
        for call in 0..=calls {
            let outcome = self.render(alloc, options, &[call])?;
            if !self.may_end_so(&outcome, call, calls) {
                return Ok(Some(call));
            }
        }
        Ok(None)
    }
}

/// The first call of a render of eight samples with this trace that leaves what it may not where it fails. No call is left that could
/// fail after the last one, so that then all stands.
fn first_lawless_call(
    alloc: Global,
    options: RenderOptions<'_>,
    trace: &[u8],
) -> Result<Option<u32>, Fail>
    requires { SamplesWithinHour options.samples }
{
    let file = tune_of(alloc, FIVE, &[])?;
    let table = straight_table(alloc)?;
    let wave = wave_of(alloc, &[(6, 0), (2, 4000)])?;
    let eight = Eight {
        file: file.as_slice(),
        table: table.as_slice(),
        wave: wave.as_slice(),
        trace,
    };
    eight.first_lawless_call(alloc, options)
}

#[test]
fn each_call_of_a_render_may_fail(rt: HostRuntime) -> Result<(), Fail> {
    let traced = with_trace(Some(8), Some(1));
    let traced = first_lawless_call(rt.alloc(), traced, LINES.as_bytes())?;
    assert!(rt; traced == None);
    let untraced = first_lawless_call(rt.alloc(), samples(8), &[])?;
    assert!(rt; untraced == None);
    Ok(())
}

// Damaged files, awkward programs and outputs without room: each run over a host in memory, and over one that gives and
// takes one byte at a time.
use crate::runs::{Dripped, drips_alike, list_words, render_straight, run_dripping, run_over};
use exit_status::Status;
use std::alloc::Global;
use std::process::Abort;
use std::test::Fail;
use test_support::{
    DSP, ENDS_THE_BLOCK, FILE_LENGTH, FIVE, Frames, MEMORY, MONO, OUTPUT_ROOM, Outcome, Pieces,
    file_of, straight_table, wave_of,
};

/// A run over an SPC file `SPC` and a table `TABLE`, and how it ends.
#[derive(Drop)]
struct Hostile {
    shows: &'static str,
    words: &'static [&'static str],
    /// The length of the SPC file, and what it has over the base file.
    length: usize,
    sound: Pieces,
    more: Pieces,
    /// The length of the table, of zeros: none is the table of straight lines.
    table: Option<usize>,
    status: Status,
    report: &'static str,
    complaint: &'static str,
    frames: Frames,
    trace: &'static str,
}

impl Hostile {
    /// The table of this row.
    fn table(&self, alloc: Global) -> Result<Vec<u8>, Fail> {
        match self.table {
            Some(length) => Ok(vec![in alloc; 0u8; length]?),
            None => Ok(straight_table(alloc)?),
        }
    }

    /// The first output: the sound file of this row's frames, or nothing where the row is refused.
    fn first(&self, alloc: Global) -> Result<Vec<u8>, Fail> {
        if self.status == Status::Ok {
            Ok(wave_of(alloc, self.frames)?)
        } else {
            Ok(Vec::new(alloc))
        }
    }

    /// Whether a run ended as this row says, with this first output.
    fn is_ended_so(&self, outcome: &Outcome, first: &[u8]) -> bool {
        outcome.status() == self.status
            && outcome.report() == self.report.as_bytes()
            && outcome.complaint() == self.complaint.as_bytes()
            && outcome.first() == first
            && outcome.second() == self.trace.as_bytes()
    }

    /// Whether a run ended as this row says, with its first output.
    fn is_ended(&self, alloc: Global, outcome: &Outcome) -> Result<bool, Fail> {
        let first = self.first(alloc)?;
        Ok(self.is_ended_so(outcome, first.as_slice()))
    }

    /// Whether it ends so over both hosts with these inputs.
    fn holds_over(&self, alloc: Global, inputs: &[(&str, &[u8])]) -> Result<bool, Fail> {
        let words = list_words(alloc, self.words)?;
        let outcome = run_over(alloc, words.as_slice(), inputs, OUTPUT_ROOM)?;
        Ok(
            self.is_ended(alloc, &outcome)?
                && drips_alike(alloc, words.as_slice(), inputs, &outcome)?,
        )
    }

    /// Whether it ends so over both hosts.
    fn holds(&self, alloc: Global) -> Result<bool, Fail> {
        let file = file_of(alloc, self.length, self.sound, self.more)?;
        let table = self.table(alloc)?;
        self.holds_over(
            alloc,
            &[("SPC", file.as_slice()), ("TABLE", table.as_slice())],
        )
    }
}

/// A render of no length of its own.
const RENDER: &[&str] = &["render", "SPC", "TABLE", "OUT"];

/// Files that are refused.
const REFUSED: &[Hostile] = &[
    Hostile {
        shows: "a file and a table that are both too short",
        words: RENDER,
        length: 100,
        sound: &[],
        more: &[],
        table: Some(3),
        status: Status::SpcLength,
        report: "",
        complaint: "spcwave: length 100 is not that of an SPC file\n",
        frames: &[],
        trace: "",
    },
    Hostile {
        shows: "a file that is not there",
        words: &["render", "NONE", "TABLE", "OUT"],
        length: FILE_LENGTH,
        sound: &[],
        more: &[],
        table: Some(3),
        status: Status::ReadFault,
        report: "",
        complaint: "spcwave: input could not be read\n",
        frames: &[],
        trace: "",
    },
    Hostile {
        shows: "a table that is not there",
        words: &["render", "SPC", "NONE", "OUT"],
        length: FILE_LENGTH,
        sound: &[],
        more: &[],
        table: None,
        status: Status::ReadFault,
        report: "",
        complaint: "spcwave: input could not be read\n",
        frames: &[],
        trace: "",
    },
    Hostile {
        shows: "a table that is too long",
        words: RENDER,
        length: FILE_LENGTH,
        sound: &[],
        more: &[],
        table: Some(1048577),
        status: Status::InputTooLong,
        report: "",
        complaint: "spcwave: input is too long\n",
        frames: &[],
        trace: "",
    },
    Hostile {
        shows: "a signature that differs, and a table that is too short",
        words: RENDER,
        length: FILE_LENGTH,
        sound: &[],
        more: &[(3, b"\0")],
        table: Some(3),
        status: Status::SpcSignature,
        report: "",
        complaint: "spcwave: signature differs at 3\n",
        frames: &[],
        trace: "",
    },
];

#[test]
fn damaged_files_are_refused(rt: HostRuntime) -> Result<(), Fail> {
    for row in REFUSED {
        assert!(rt; row.holds(rt.alloc())?, "{}", row.shows);
    }
    Ok(())
}

/// Awkward sounds and programs.
const AWKWARD: &[Hostile] = &[
    Hostile {
        shows: "a block that repeats itself",
        words: &["render", "SPC", "TABLE", "OUT", "--samples", "200"],
        length: FILE_LENGTH,
        sound: FIVE,
        more: &[(MEMORY + 0x0200, b"\x00\x05\x00\x05")],
        table: None,
        status: Status::Ok,
        report: "samples 200\nbatches 4 register 0 memory 0 echo 0 full 3 events 0 end 1\n",
        complaint: "",
        frames: &[(6, 0), (194, 4000)],
        trace: "",
    },
    Hostile {
        shows: "a program that wraps at the end of memory",
        words: &["render", "SPC", "TABLE", "OUT", "--samples", "2"],
        length: FILE_LENGTH,
        sound: &[],
        more: &[
            (0x25, b"\xff\xff"),
            (MEMORY, b"\xfe"),
            (MEMORY + 0xffff, b"\x2f"),
        ],
        table: None,
        status: Status::Ok,
        report: "samples 2\nbatches 1 register 0 memory 0 echo 0 full 0 events 0 end 1\n",
        complaint: "",
        frames: &[(2, 0)],
        trace: "",
    },
    Hostile {
        shows: "a program that sleeps",
        words: &["render", "SPC", "TABLE", "OUT", "--samples", "200"],
        length: FILE_LENGTH,
        sound: FIVE,
        more: &[(MEMORY + 0x0400, b"\xef")],
        table: None,
        status: Status::Ok,
        report: "samples 200\nbatches 4 register 0 memory 0 echo 0 full 3 events 0 end 1\n",
        complaint: "",
        frames: &[(6, 0), (194, 4000)],
        trace: "",
    },
];

#[test]
fn awkward_programs_are_rendered(rt: HostRuntime) -> Result<(), Fail> {
    for row in AWKWARD {
        assert!(rt; row.holds(rt.alloc())?, "{}", row.shows);
    }
    Ok(())
}

/// The echo overwrites the program; the echo lies in the directory's page; the program ends a block that is played.
const WAITING: &[Hostile] = &[
    Hostile {
        shows: "an echo over the program",
        words: &[
            "render",
            "SPC",
            "TABLE",
            "OUT",
            "--samples",
            "3",
            "--trace",
            "TRACE",
        ],
        length: FILE_LENGTH,
        sound: &[],
        more: &[
            (DSP + 0x6c, b"\x00\x04"),
            (MEMORY + 0x0404, b"\x8f\x5a\xf4\x2f\xfe"),
        ],
        table: None,
        status: Status::Ok,
        report: "samples 3\nbatches 3 register 0 memory 0 echo 2 full 0 events 0 end 1\n",
        complaint: "",
        frames: &[(3, 0)],
        trace: "P 1 0 5a\n",
    },
    Hostile {
        shows: "an echo in the page of the directory",
        words: &["render", "SPC", "TABLE", "OUT", "--samples", "3"],
        length: FILE_LENGTH,
        sound: &[],
        more: &[
            (DSP + 0x5d, b"\x03"),
            (DSP + 0x6c, b"\x00\x03"),
            (MEMORY + 0x0400, b"\xc5\x00\x07\x2f\xfb"),
        ],
        table: None,
        status: Status::Ok,
        report: "samples 3\nbatches 3 register 0 memory 2 echo 0 full 0 events 0 end 1\n",
        complaint: "",
        frames: &[(3, 0)],
        trace: "",
    },
    Hostile {
        shows: "a header that is written while it is played",
        words: &["render", "SPC", "TABLE", "OUT", "--samples", "70"],
        length: FILE_LENGTH,
        sound: FIVE,
        more: ENDS_THE_BLOCK,
        table: None,
        status: Status::Ok,
        report: "samples 70\nbatches 2 register 0 memory 1 echo 0 full 0 events 0 end 1\n",
        complaint: "",
        frames: &[(6, 0), (58, 4000), (6, 0)],
        trace: "",
    },
    Hostile {
        shows: "a register that is written",
        words: &[
            "render",
            "SPC",
            "TABLE",
            "OUT",
            "--samples",
            "1",
            "--trace",
            "TRACE",
        ],
        length: FILE_LENGTH,
        sound: &[],
        more: &[(MEMORY + 0x0400, b"\x8f\x6c\xf2\x8f\x20\xf3\x2f\xfe")],
        table: None,
        status: Status::Ok,
        report: "samples 1\nbatches 1 register 0 memory 0 echo 0 full 0 events 0 end 1\n",
        complaint: "",
        frames: &[(1, 0)],
        trace: "R 0 6c 20\n",
    },
];

#[test]
fn programs_that_meet_their_own_sound_are_heard_in_time(rt: HostRuntime) -> Result<(), Fail> {
    for row in WAITING {
        assert!(rt; row.holds(rt.alloc())?, "{}", row.shows);
    }
    Ok(())
}

/// Whether the sound file with these bytes is refused so, over both hosts.
fn is_refused(alloc: Global, bytes: &[u8], status: Status, complaint: &str) -> Result<bool, Fail> {
    let words = list_words(alloc, &["encode", "IN", "OUT"])?;
    let inputs = [("IN", bytes)];
    let outcome = run_over(alloc, words.as_slice(), &inputs, OUTPUT_ROOM)?;
    Ok(
        outcome.is_refused(status, complaint)
            && drips_alike(alloc, words.as_slice(), &inputs, &outcome)?,
    )
}

/// Whether a sound file of this front and of zeros up to this length is refused so, over both hosts.
fn sound_is_refused(
    alloc: Global,
    length: usize,
    status: Status,
    complaint: &str,
) -> Result<bool, Fail> {
    let mut bytes = Vec::from_slice(alloc, MONO)?;
    bytes.resize(length, 0)?;
    is_refused(alloc, bytes.as_slice(), status, complaint)
}

#[test]
fn sounds_of_no_length_and_of_too_great_a_length_are_refused(rt: HostRuntime) -> Result<(), Fail> {
    let alloc = rt.alloc();
    let long = "spcwave: input is too long\n";
    assert!(rt; sound_is_refused(alloc, 16777217, Status::InputTooLong, long)?);
    let empty = "spcwave: 0 samples cannot be encoded\n";
    assert!(rt; sound_is_refused(alloc, 44, Status::EncodeSize, empty)?);
    Ok(())
}

/// The words that render four samples.
const FOUR_SAMPLES: &[&str] = &["render", "SPC", "TABLE", "OUT", "--samples", "4"];

/// Renders silence to an output of this room, over the host in memory.
fn render_into(alloc: Global, room: usize) -> Result<Outcome, Fail> {
    let file = file_of(alloc, FILE_LENGTH, &[], &[])?;
    render_straight(alloc, file.as_slice(), &["--samples", "4"], room)
}

/// Renders silence from a file over a table to an output of 50 bytes, one byte at a time.
fn drip_silence(alloc: Global, file: &[u8], table: &[u8]) -> Result<Dripped, Fail> {
    let words = list_words(alloc, FOUR_SAMPLES)?;
    run_dripping(
        alloc,
        words.as_slice(),
        &[("SPC", file), ("TABLE", table)],
        50,
    )
}

/// Whether an output of 50 bytes was filled with the beginning of this sound file.
fn is_filled(dripped: &Dripped, wave: &[u8]) -> bool {
    dripped.status == Status::WriteFault && wave.get(..50) == Some(dripped.output(2))
}

/// Whether the same to an output of 50 bytes, one byte at a time, fills it with the beginning of this sound file.
fn fills_drop_by_drop(alloc: Global, wave: &[u8]) -> Result<bool, Fail> {
    let file = file_of(alloc, FILE_LENGTH, &[], &[])?;
    let table = straight_table(alloc)?;
    let dripped = drip_silence(alloc, file.as_slice(), table.as_slice())?;
    Ok(is_filled(&dripped, wave))
}

/// Checks a render of silence with room, and at one to an output of 50 bytes.
fn look_at_rooms(rt: &impl Abort, whole: &Outcome, cut: &Outcome, wave: &[u8]) {
    let report = "samples 4\nbatches 1 register 0 memory 0 echo 0 full 0 events 0 end 1\n";
    assert!(rt; whole.is_done(wave, report));
    // After 22 calls on inputs an output is created, and the head of 44 bytes is written; the four frames find no room.
    assert!(rt; cut.is_cut_off(24, wave, &[], ""));
}

#[test]
fn an_output_without_room_is_cut_off(rt: HostRuntime) -> Result<(), Fail> {
    let wave = wave_of(rt.alloc(), &[(4, 0)])?;
    let whole = render_into(rt.alloc(), OUTPUT_ROOM)?;
    let cut = render_into(rt.alloc(), 50)?;
    look_at_rooms(&rt, &whole, &cut, wave.as_slice());
    assert!(rt; fills_drop_by_drop(rt.alloc(), wave.as_slice())?);
    Ok(())
}

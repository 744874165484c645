// Each call of each command may fail.
use crate::runs::{list_words, run_failing};
use std::alloc::Global;
use std::test::Fail;
use test_support::{
    FILE_LENGTH, FIVE, Frames, MONO, Outcome, STEADY_WAV, file_of, straight_table, wave_of,
};

/// The first output of a command.
enum First {
    Bytes(&'static [u8]),
    /// A sound file of these frames.
    Wave(Frames),
    /// So many bytes, which begin with these.
    Front(usize, &'static [u8]),
}

/// A command over the inputs of `Inputs::run_on_all`, and what it comes to.
struct Command {
    words: &'static [&'static str],
    /// How many of its calls are on inputs.
    reads: u32,
    first: First,
    trace: &'static str,
    report: &'static str,
}

impl Command {
    /// Whether it may end so where this call fails, beside a whole run.
    fn may_end_so(&self, outcome: &Outcome, whole: &Outcome, call: u32) -> bool {
        if call < self.reads {
            outcome.is_unread(call)
        } else {
            outcome.is_cut_off(call, whole.first(), whole.second(), self.report)
        }
    }

    /// Whether all was done, with its outputs and its report.
    fn is_done(&self, alloc: Global, outcome: &Outcome) -> Result<bool, Fail> {
        let first = outcome.first();
        let has_first = match self.first {
            First::Bytes(bytes) => first == bytes,
            First::Wave(frames) => first == wave_of(alloc, frames)?.as_slice(),
            First::Front(length, front) => first.len() == length && first.starts_with(front),
        };
        Ok(
            has_first
                && outcome.is_done(first, self.report)
                && outcome.second() == self.trace.as_bytes(),
        )
    }
}

/// Sixteen samples of 0.
const SILENT_WAV: &[u8] =
    b"RIFF\x44\0\0\0WAVEfmt \x10\0\0\0\x01\0\x01\0\0\x7d\0\0\0\xfa\0\0\x02\0\x10\0data\x20\0\0\0\
    \0\0\0\0\0\0\0\0\0\0\0\0\0\0\0\0\0\0\0\0\0\0\0\0\0\0\0\0\0\0\0\0";

/// The commands, but for those that only print a text.
const COMMANDS: &[Command] = &[
    Command {
        words: &["brr", "BRR", "OUT"],
        reads: 3,
        first: First::Bytes(SILENT_WAV),
        trace: "",
        report: "blocks 1 samples 16\n",
    },
    Command {
        words: &["info", "SPC"],
        reads: 19,
        first: First::Bytes(b""),
        trace: "",
        report: "length 66048\nminor 30\ntags no\npc 0400 a 00 x 00 y 00 psw 00 sp ef\n",
    },
    Command {
        words: &["encode", "WAV", "OUT"],
        reads: 3,
        first: First::Bytes(b"\x01\0\0\0\0\0\0\0\0"),
        trace: "",
        report: "block 0 header 01 worst 0 squares 0\nblocks 1\n",
    },
    Command {
        words: &["asm", "SOURCE", "0400", "OUT"],
        reads: 3,
        first: First::Bytes(b"\0"),
        trace: "",
        report: "bytes 1\n",
    },
    Command {
        words: &["dis", "BRR", "0400", "OUT"],
        reads: 3,
        first: First::Bytes(b"NOP\nNOP\nNOP\nNOP\nNOP\nNOP\nNOP\nNOP\nNOP\n"),
        trace: "",
        report: "lines 9\n",
    },
    Command {
        words: &["rip", "SPC", "OUT"],
        reads: 19,
        first: First::Bytes(STEADY_WAV),
        trace: "",
        report: "entry 00 start 0500 blocks 1 loop outside worst 0 squares 0\nentries 1\n",
    },
    Command {
        words: &["demo", "7", "OUT"],
        reads: 0,
        first: First::Front(FILE_LENGTH, b"SNES-SPC700 Sound File Data v0.30\x1a\x1a"),
        trace: "",
        report: "bytes 66048\n",
    },
    Command {
        words: &["check", "3456189438"],
        reads: 0,
        first: First::Bytes(b""),
        trace: "",
        // what an independent implementation gave
        report: "samples 320000\nleft 49171252\nright -899585932\nmix 1010732692\n\
            batches 9983 register 4982 memory 4983 echo 0 full 17 events 0 end 1\n",
    },
    Command {
        words: &[
            "render",
            "SPC",
            "TABLE",
            "OUT",
            "--samples",
            "8",
            "--trace",
            "TRACE",
            "--voices",
            "01",
        ],
        reads: 22,
        first: First::Wave(&[(6, 0), (2, 4000)]),
        trace: "V 0 0 0 0 0000 k-\nV 1 0 0 0 0500 --\nV 2 0 0 0 0500 --\nV 3 0 0 0 0500 --\nV 4 0 0 0 0500 --\n\
            V 5 0 0 0 0500 --\nV 6 0 2032 4064 0500 --\nV 7 0 2032 4064 0500 --\n",
        report: "samples 8\nbatches 1 register 0 memory 0 echo 0 full 0 events 0 end 1\n",
    },
    Command {
        words: &["cuts", "SPC", "TABLE", "LIST", "OUT"],
        reads: 25,
        first: First::Wave(&[(4, 0)]),
        trace: "",
        report: "cuts 2 samples 4 checkpoints 2 pages 256 made 6\n",
    },
    Command {
        words: &["serve", "SPC", "TABLE", "SCRIPT", "OUT", "--pages", "257"],
        reads: 25,
        first: First::Wave(&[(3, 0)]),
        trace: "",
        report: "played 3 at 3\nmark 3 gave 0\nfree 1 marks 2 made 3\n",
    },
];

/// A sound file of sixteen zeros.
fn zero_sound(alloc: Global) -> Result<Vec<u8>, Fail> {
    let mut sound = Vec::from_slice(alloc, MONO)?;
    sound.resize(76, 0)?;
    Ok(sound)
}

/// The inputs that are made.
#[derive(Drop)]
struct Inputs {
    file: Vec<u8>,
    table: Vec<u8>,
    sound: Vec<u8>,
}

impl Inputs {
    fn open(alloc: Global) -> Result<Inputs, Fail> {
        Ok(Inputs {
            file: file_of(alloc, FILE_LENGTH, FIVE, &[])?,
            table: straight_table(alloc)?,
            sound: zero_sound(alloc)?,
        })
    }

    /// Runs a command over all inputs, where the calls of these numbers fail.
    fn run_on_all(&self, alloc: Global, words: &[&str], failing: &[u32]) -> Result<Outcome, Fail> {
        let words = list_words(alloc, words)?;
        let inputs = [
            ("SPC", self.file.as_slice()),
            ("TABLE", self.table.as_slice()),
            ("WAV", self.sound.as_slice()),
            ("BRR", b"\0\0\0\0\0\0\0\0\0".as_slice()),
            ("SOURCE", b"NOP\n".as_slice()),
            ("LIST", b"2 3\n0 1\n".as_slice()),
            ("SCRIPT", b"play 3\nmark\nfree\n".as_slice()),
        ];
        run_failing(alloc, words.as_slice(), &inputs, failing)
    }

    /// Whether each of the calls of a whole run may fail.
    fn each_call_may_fail(
        &self,
        alloc: Global,
        command: &Command,
        whole: &Outcome,
    ) -> Result<bool, Fail> {
        let mut holds = true;
        for call in 0..whole.calls() {
            let outcome = self.run_on_all(alloc, command.words, &[call])?;
            holds = holds && command.may_end_so(&outcome, whole, call);
        }
        Ok(holds)
    }

    /// Whether all is done where the call of this number fails.
    fn is_done_without(&self, alloc: Global, command: &Command, call: u32) -> Result<bool, Fail> {
        let outcome = self.run_on_all(alloc, command.words, &[call])?;
        command.is_done(alloc, &outcome)
    }

    /// Whether each call of a command may fail: those on inputs, which come first, leave nothing, the others prefixes. Where none of
    /// its calls fails, all is done.
    fn holds(&self, alloc: Global, command: &Command) -> Result<bool, Fail> {
        let whole = self.run_on_all(alloc, command.words, &[])?;
        Ok(
            command.is_done(alloc, &whole)?
                && whole.calls() > command.reads
                && self.each_call_may_fail(alloc, command, &whole)?
                && self.is_done_without(alloc, command, whole.calls())?,
        )
    }
}

/// The one call of `help`, and that of `version`, fails in a test of its crate.
#[test]
fn each_call_of_each_command_may_fail(rt: HostRuntime) -> Result<(), Fail> {
    let inputs = Inputs::open(rt.alloc())?;
    for command in COMMANDS {
        let holds = inputs.holds(rt.alloc(), command)?;
        assert!(rt; holds, "{:?}", command.words);
    }
    Ok(())
}

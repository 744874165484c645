// A list of calls, which only contracts see.
ghost use Rattle.std.specs.Prelude.{◌≡◌, List, [], ◌∷◌};
ghost use Rattle.std.specs.Coded.{coded_list};
ghost use Rattle.snd_host.specs.Calls.{Call, call_code};

use std::marker::Model;

/// A call and what came of it, as it is noted.
///
/// A file is given by its number. A read shows the room of its buffer and the bytes that it gave; a write, the bytes that it
/// took, and one that failed, those that it was to take.
#[derive(Clone, Copy)]
pub enum Noted<'a> {
    Opened(&'a str, u64),
    NotOpened(&'a str),
    Read(u64, usize, &'a [u8]),
    NotRead(u64, usize),
    Created(&'a str, u64),
    NotCreated(&'a str),
    Wrote(u64, &'a [u8]),
    NotWritten(u64, &'a [u8]),
    Finished(u64),
    NotFinished(u64),
}

/// The calls that were made, the newest first. It has no bytes, so that it costs nothing.
#[derive(Drop)]
pub struct Log {
    pub ghost calls: { List Call } by { coded_list call_code },
}

impl Model for Log {
    ghost use base.Fml.{ftrue};

    ghost also_owns = { λ _. ftrue };
}

impl Log {
    ghost use Rattle.snd_host.specs.Noted.{call_of};

    /// The calls with one more.
    fn longer(before: &Log, noted: &Noted<'_>) -> Log
        ensures { result.calls ≡ call_of noted.now ∷ before.now.calls }
    {
        let _ = before;
        let _ = noted;
        Log {}
    }

    /// The same calls.
    pub(crate) fn same(&self) -> Log
        ensures { result.calls ≡ self.now.calls }
    {
        Log {}
    }

    /// Adds a call.
    pub fn note(&mut self, noted: Noted<'_>)
        ensures { self.new.calls ≡ call_of noted.entry ∷ self.old.calls }
    {
        *self = Log::longer(self, &noted);
    }

    /// No calls.
    pub fn none() -> Log
        ensures { result.calls ≡ [] }
    {
        Log {}
    }
}

// The disk of the standard library. It is the trusted edge: that it asks the library what it notes, and gives its answer, is seen by reading it.
ghost use Rattle.std.specs.Prelude.{◌≡◌, ◌<◌, ◌≤◌, [], length, drop, IfOk};
ghost use Rattle.std.specs.Io.KnownBytes.{Keeps, ReadConsumes, WriteAppends};

use crate::Disk;
use snd_host::{Failed, Log, MAX_READ_AT_ONCE, Noted, note_write};
use std::fs;
use std::io::{Read, Write};
use std::rt::Files;

/// One write, of at least one byte where there is one.
fn write_some<W: Write>(writer: &mut W, piece: &[u8]) -> Result<usize, Failed>
    ensures within { IfOk result (λ count. count ≤ length piece.now) }
    ensures progress { IfOk result (λ count. 0 < length piece.now → 0 < count) }
    ensures bytes { WriteAppends (W.contents writer.old) (W.contents writer.new) result piece.now }
{
    match writer.write(piece) {
        Ok(count) => {
            if count == 0 && !piece.is_empty() {
                Err(Failed)
            } else {
                Ok(count)
            }
        }
        Err(_) => Err(Failed),
    }
}

/// One read into the front of the buffer.
fn read_some<F: Read>(file: &mut F, buf: &mut [u8]) -> Result<usize, Failed>
    ensures within { IfOk result (λ count. count ≤ length buf.old) }
    ensures after { IfOk result (λ count. drop count buf.new ≡ drop count buf.old) }
    ensures bytes { ReadConsumes (F.remaining file.old) (F.remaining file.new) result buf.new }
{
    let mut chunk = [0u8; MAX_READ_AT_ONCE];
    let most = buf.len().min(MAX_READ_AT_ONCE);
    let Ok(count) = file.read(&mut chunk[..most]) else {
        return Err(Failed);
    };
    buf[..count].copy_from_slice(&chunk[..count]);
    Ok(count)
}

/// A file of the standard library, with its number: the first one that was opened or created has 2, the next one 3.
#[derive(Drop)]
pub struct RealFile<F> {
    file: F,
    number: u64,
}

/// Real files, with one writer as report and one as complaint. Each call is noted.
#[derive(Drop)]
pub struct RealDisk<'r, R: Files, O: Write + Drop, E: Write + Drop> {
    files: &'r R,
    report: O,
    complaint: E,
    newest: u64,
    log: Log,
}

impl<'r, R: Files, O: Write + Drop, E: Write + Drop> RealDisk<'r, R, O, E> {
    /// A disk that was asked of nothing yet.
    pub fn new(files: &'r R, report: O, complaint: E) -> Self
        ensures calls { ⟦<RealDisk<'r, R, O, E> as Disk>⟧.calls result ≡ [] }
        ensures report { (⟦<RealDisk<'r, R, O, E> as Disk>⟧.texts result).report ≡ O.contents report }
        ensures complaint { (⟦<RealDisk<'r, R, O, E> as Disk>⟧.texts result).complaint ≡ E.contents complaint }
    {
        RealDisk {
            files,
            report,
            complaint,
            newest: 1,
            log: Log::none(),
        }
    }
}

impl<'r, R: Files, O: Write + Drop, E: Write + Drop> Disk for RealDisk<'r, R, O, E> {
    type File = RealFile<R::File>;

    ghost calls = { λ disk. disk.log.calls };

    ghost number = { λ file. file.number };

    ghost texts = { λ disk. record { report = O.contents disk.report; complaint = E.contents disk.complaint } };

    ghost left = { λ file. R.File.remaining file.file };

    ghost held = { λ file. R.File.contents file.file };

    fn open(&mut self, name: &str) -> Result<RealFile<R::File>, Failed> {
        let Ok(file) = fs::open(self.files, name) else {
            self.log.note(Noted::NotOpened(name));
            return Err(Failed);
        };
        self.newest = self.newest.wrapping_add(1);
        self.log.note(Noted::Opened(name, self.newest));
        let number = self.newest;
        Ok(RealFile { file, number })
    }

    fn create(&mut self, name: &str) -> Result<RealFile<R::File>, Failed> {
        let Ok(file) = fs::create(self.files, name) else {
            self.log.note(Noted::NotCreated(name));
            return Err(Failed);
        };
        self.newest = self.newest.wrapping_add(1);
        self.log.note(Noted::Created(name, self.newest));
        let number = self.newest;
        Ok(RealFile { file, number })
    }

    fn read(&mut self, file: &mut RealFile<R::File>, buf: &mut [u8]) -> Result<usize, Failed> {
        let room = buf.len();
        let outcome = read_some(&mut file.file, buf);
        match outcome {
            Ok(count) => self.log.note(Noted::Read(file.number, room, &buf[..count])),
            Err(_) => self.log.note(Noted::NotRead(file.number, room)),
        }
        outcome
    }

    fn write(&mut self, file: &mut RealFile<R::File>, piece: &[u8]) -> Result<usize, Failed> {
        let outcome = write_some(&mut file.file, piece);
        note_write(&mut self.log, file.number, piece, outcome);
        outcome
    }

    fn flush(&mut self, file: &mut RealFile<R::File>) -> Result<(), Failed> {
        if file.file.flush().is_err() {
            self.log.note(Noted::NotFinished(file.number));
            return Err(Failed);
        }
        self.log.note(Noted::Finished(file.number));
        Ok(())
    }

    fn report(&mut self, piece: &[u8]) -> Result<usize, Failed> {
        let outcome = write_some(&mut self.report, piece);
        note_write(&mut self.log, 0, piece, outcome);
        outcome
    }

    fn complain(&mut self, piece: &[u8]) -> Result<usize, Failed> {
        let outcome = write_some(&mut self.complaint, piece);
        note_write(&mut self.log, 1, piece, outcome);
        outcome
    }
}

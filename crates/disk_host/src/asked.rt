// The disk as a host asks it.
ghost use Rattle.std.specs.Prelude.{◌≡◌, ◌<◌, ◌≤◌, ◌∷◌, ℕ, List, length, drop, Option, IfOk};
ghost use Rattle.std.specs.Io.KnownBytes.{Keeps, ReadConsumes, WriteAppends};
ghost use Rattle.snd_host.specs.Calls.{Call, open_call, read_call, create_call, write_call, finish_call};
ghost use Rattle.disk_host.specs.Texts.{Texts};

use snd_host::Failed;

/// Where files are read and written by name, with a report and a complaint.
///
/// It shows each call, with its name or its file and its bytes, and whether it failed. A file is reached by these calls alone.
pub trait Disk {
    /// A file that was opened or created.
    type File: Drop;

    /// The calls that were made, the newest first. The report has the number 0 in them, the complaint 1.
    ghost calls: { Self → List Call };

    /// The number of a file, which the call that made it returned.
    ghost number: { Self.File → ℕ };

    /// The bytes that the report and the complaint hold, where they know them.
    ghost texts: { Self → Texts };

    /// The bytes that a file has left to be read, where it knows them.
    ghost left: { Self.File → Option (List ℕ) };

    /// The bytes that a file holds, where it knows them.
    ghost held: { Self.File → Option (List ℕ) };

    /// Opens the file of this name, to be read.
    fn open(&mut self, name: &str) -> Result<Self::File, Failed>
        ensures asked { calls self.new ≡ open_call number name.now result ∷ calls self.old }
        ensures texts { texts self.new ≡ texts self.old };

    /// Empties or makes the file of this name, to be written.
    fn create(&mut self, name: &str) -> Result<Self::File, Failed>
        ensures asked { calls self.new ≡ create_call number name.now result ∷ calls self.old }
        ensures texts { texts self.new ≡ texts self.old };

    /// Puts the next bytes of a file into the front of the buffer. None come only at its end, or into an empty buffer.
    fn read(&mut self, file: &mut Self::File, buf: &mut [u8]) -> Result<usize, Failed>
        ensures within { IfOk result (λ count. count ≤ length buf.old) }
        ensures after { IfOk result (λ count. drop count buf.new ≡ drop count buf.old) }
        ensures bytes { ReadConsumes (left file.old) (left file.new) result buf.new }
        ensures file { number file.new ≡ number file.old }
        ensures asked { calls self.new ≡ read_call (number file.old) (length buf.old) buf.new result ∷ calls self.old }
        ensures texts { texts self.new ≡ texts self.old };

    /// Adds the first bytes of the piece to a file, at least one where there is one.
    fn write(&mut self, file: &mut Self::File, piece: &[u8]) -> Result<usize, Failed>
        ensures within { IfOk result (λ count. count ≤ length piece.now) }
        ensures progress { IfOk result (λ count. 0 < length piece.now → 0 < count) }
        ensures bytes { WriteAppends (held file.old) (held file.new) result piece.now }
        ensures file { number file.new ≡ number file.old }
        ensures asked { calls self.new ≡ write_call (number file.old) piece.now result ∷ calls self.old }
        ensures texts { texts self.new ≡ texts self.old };

    /// Hands what was written to a file on to the system.
    fn flush(&mut self, file: &mut Self::File) -> Result<(), Failed>
        ensures bytes { Keeps (held file.old) (held file.new) }
        ensures file { number file.new ≡ number file.old }
        ensures asked { calls self.new ≡ finish_call (number file.old) result ∷ calls self.old }
        ensures texts { texts self.new ≡ texts self.old };

    /// Adds the first bytes of the piece to the report, at least one where there is one.
    fn report(&mut self, piece: &[u8]) -> Result<usize, Failed>
        ensures within { IfOk result (λ count. count ≤ length piece.now) }
        ensures progress { IfOk result (λ count. 0 < length piece.now → 0 < count) }
        ensures bytes { WriteAppends (texts self.old).report (texts self.new).report result piece.now }
        ensures complaint { (texts self.new).complaint ≡ (texts self.old).complaint }
        ensures asked { calls self.new ≡ write_call 0 piece.now result ∷ calls self.old };

    /// The same for the complaint.
    fn complain(&mut self, piece: &[u8]) -> Result<usize, Failed>
        ensures within { IfOk result (λ count. count ≤ length piece.now) }
        ensures progress { IfOk result (λ count. 0 < length piece.now → 0 < count) }
        ensures bytes { WriteAppends (texts self.old).complaint (texts self.new).complaint result piece.now }
        ensures report { (texts self.new).report ≡ (texts self.old).report }
        ensures asked { calls self.new ≡ write_call 1 piece.now result ∷ calls self.old };
}

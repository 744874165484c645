// The chunks of a file that is read.
ghost use Rattle.std.specs.Prelude.{◌≡◌, ◌≢◌, ◌+◌, ◌<◌, ◌≤◌, length, drop, None, IfSome};
ghost use Rattle.wav_form.specs.Chunks.{first_chunk, chunk_length, is_named, is_cut};
ghost use Rattle.wav_form.specs.Seen.{chunk_of};

use byteorder::{ByteOrder, LittleEndian};

/// A chunk at the front of bytes: its name, the place of its name in the file, the size that it gives, and its body as far as
/// the file has it.
#[derive(Clone, Copy)]
pub struct Chunk<'a> {
    pub name: &'a [u8],
    pub place: usize,
    pub size: u32,
    pub body: &'a [u8],
}

impl<'a> Chunk<'a> {
    /// The chunk at the front of bytes, of which at least eight are there.
    pub fn first(place: usize, bytes: &'a [u8]) -> Option<Chunk<'a>>
        ensures chunk { IfSome result (λ chunk. chunk_of chunk ≡ first_chunk place bytes.now) }
        ensures whole { IfSome result (λ _. 8 ≤ length bytes.now) }
        ensures end { result ≡ None → length bytes.now < 8 }
    {
        if bytes.len() < 8 {
            return None;
        }
        let size = LittleEndian::read_u32(&bytes[4..]);
        let tail = &bytes[8..];
        Some(Chunk {
            name: &bytes[..4],
            place,
            size,
            body: &tail[..(size as usize).min(tail.len())],
        })
    }

    /// Whether the chunk has a name.
    pub fn is_named(self, name: &[u8]) -> bool
        ensures { result ≡ is_named name.now (chunk_of self.entry) }
    {
        self.name == name
    }

    /// Whether the body runs past the end of the file.
    pub fn is_cut(self) -> bool
        ensures { result ≡ is_cut (chunk_of self.entry) }
    {
        self.body.len() < self.size as usize
    }

    /// How many bytes the chunk takes, with the byte after an odd body.
    pub fn length(self) -> usize
        ensures { result ≡ chunk_length (chunk_of self.entry) }
    {
        let size = self.size as usize;
        8 + (size + size % 2)
    }
}

/// The bytes after the first ones; there may be fewer.
pub fn after(bytes: &[u8], count: usize) -> &[u8]
    ensures { result.now ≡ drop count bytes.now }
{
    &bytes[count.min(bytes.len())..]
}

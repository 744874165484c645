// Bytes with a fixed capacity.
ghost use Rattle.std.specs.Prelude.{◌≡◌, ◌↔◌, ◌+◌, ◌≤◌, ◌++◌, [], true, length, decimal, IfOk};
ghost use Rattle.report_text.specs.Capacity.{buffer_capacity, max_count_digits};

use crate::OutOfMemory;
use std::alloc::Global;
use std::marker::Model;

/// How many bytes there can be.
const ROOM_SIZE: usize = 131072;

/// Up to 131,072 bytes, so that adding some takes no memory. Room that isn't used is never written.
#[derive(Drop)]
pub struct FixedBuffer {
    bytes: Vec<u8>,
}

impl Model for FixedBuffer {
    ghost use Rattle.std.specs.Prelude.{◌≤◌, List, ℕ, vec_len, vec_capacity};
    ghost use Rattle.report_text.specs.Capacity.{buffer_capacity};

    ghost Value = { List ℕ };

    ghost view = { λ buffer. buffer.bytes.items };

    ghost invariant = { λ buffer. (buffer_capacity ≤ vec_capacity buffer.bytes) × (vec_len buffer.bytes ≤ buffer_capacity) };
}

impl FixedBuffer {
    /// No bytes, and the capacity for 131,072.
    pub fn new(alloc: Global) -> Result<FixedBuffer, OutOfMemory>
        ensures { IfOk result (λ buffer. buffer ≡ []) }
    {
        let bytes = Vec::with_capacity(alloc, ROOM_SIZE)?;
        Ok(FixedBuffer { bytes })
    }

    /// Whether there is buffer for so many more.
    pub fn has_room(&self, more: usize) -> bool
        requires { more ≤ buffer_capacity }
        ensures { (result ≡ true) ↔ (length self.now + more ≤ buffer_capacity) }
    {
        self.bytes.len() + more <= ROOM_SIZE
    }

    /// Drops all bytes.
    pub fn clear(&mut self)
        ensures { self.new ≡ [] }
    {
        self.bytes.clear();
    }

    /// Adds bytes at the end.
    pub fn append(&mut self, piece: &[u8])
        requires { length self.old + length piece.now ≤ buffer_capacity }
        ensures { self.new ≡ self.old ++ piece.now }
    {
        let _ = self.bytes.extend_from_slice(piece);
    }

    /// The bytes.
    pub fn as_slice(&self) -> &[u8]
        ensures { result.now ≡ self.now }
    {
        self.bytes.as_slice()
    }
}

/// Adds a word and a count.
pub fn put_count(report: &mut FixedBuffer, word: &[u8], count: u64)
    requires { length report.old + length word.now + max_count_digits ≤ buffer_capacity }
    ensures text { report.new ≡ report.old ++ word.now ++ decimal count }
    ensures len { length report.new ≤ length report.old + length word.now + max_count_digits }
{
    report.append(word);
    report.append(itoa::Buffer::new().format(count).as_bytes());
}

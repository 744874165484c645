//! The memory itself.

ghost use Rattle.std.specs.Prelude.{◌≡◌, length, IfOk};
ghost use Rattle.aram_core.specs.Memory.{byte_at, word_at, with_byte, page_bytes, with_page};

use crate::OutOfMemory;
use std::alloc::Global;
use std::marker::Model;

/// The bytes of the memory.
pub const MEMORY_SIZE: usize = 0x10000;

/// The bytes of a page.
pub const PAGE_SIZE: usize = 256;

/// The bytes of a page, for addresses.
pub const PAGE_BYTES: u16 = PAGE_SIZE as u16;

/// The pages of the memory.
pub const PAGE_COUNT: usize = 256;

/// The memory of the sound unit: 65,536 bytes at the addresses 0000h to FFFFh.
#[derive(Drop)]
pub struct Aram {
    bytes: Vec<u8>,
}

impl Model for Aram {
    ghost use Rattle.std.specs.Prelude.{◌≡◌, List, ℕ, length};
    ghost use Rattle.aram_core.specs.declared.aram.TheConstants.{MEMORY_SIZE};

    ghost Value = { List ℕ };

    ghost view = { λ a. a.bytes.items };

    ghost invariant = { λ a. length a.bytes.items ≡ MEMORY_SIZE };
}

impl Aram {
    /// A copy of an image of the memory.
    pub fn from_image(alloc: Global, bytes: &[u8]) -> Result<Aram, OutOfMemory>
        requires { length bytes.now ≡ MEMORY_SIZE }
        ensures { IfOk result (λ memory. memory ≡ bytes.now) }
    {
        let bytes = Vec::from_slice(alloc, bytes)?;
        Ok(Aram { bytes })
    }

    /// The byte at an address.
    pub fn get(&self, at: u16) -> u8
        ensures { result ≡ byte_at self.now at }
    {
        self.bytes[usize::from(at)]
    }

    /// Puts a byte at an address.
    pub fn put(&mut self, at: u16, value: u8)
        ensures { self.new ≡ with_byte self.old at value }
    {
        self.bytes[usize::from(at)] = value;
    }

    /// The word at an address, low byte first. The word at FFFFh has its high byte at 0000h.
    #[tactic(auto, unfolding(crate::specs::Memory::word_at))]
    pub fn word(&self, at: u16) -> u16
        ensures { result ≡ word_at self.now at }
    {
        u16::from(self.get(at)) + 256 * u16::from(self.get(at.wrapping_add(1)))
    }

    /// The bytes of a page.
    pub fn page(&self, page: u8) -> &[u8]
        ensures bytes { result.now ≡ page_bytes self.now page }
        ensures length { length result.now ≡ PAGE_SIZE }
        ensures memory { length self.now ≡ MEMORY_SIZE }
    {
        let first = PAGE_SIZE * usize::from(page);
        &self.bytes[first..first + PAGE_SIZE]
    }

    /// Puts bytes into a page, as many as it has.
    pub fn set_page(&mut self, page: u8, bytes: &[u8])
        requires { length bytes.now ≡ PAGE_SIZE }
        ensures bytes { self.new ≡ with_page self.old page bytes.now }
        ensures memory { length self.old ≡ MEMORY_SIZE }
    {
        let first = PAGE_SIZE * usize::from(page);
        self.bytes[first..first + PAGE_SIZE].copy_from_slice(bytes);
    }

    /// Takes over all bytes of another memory.
    pub fn copy_from(&mut self, other: &Aram)
        ensures { self.new ≡ other.now }
    {
        self.bytes.copy_from_slice(&other.bytes);
    }
}

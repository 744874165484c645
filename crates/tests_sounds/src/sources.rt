//! What the tests share: the memory of a source.

use aram_core::Aram;
use std::alloc::Global;
use std::test::Fail;

/// Puts bytes from an address on.
pub fn put_all(memory: &mut Aram, from: u16, bytes: &[u8]) {
    let mut at = from;
    for byte in bytes {
        memory.put(at, *byte);
        at = at.wrapping_add(1);
    }
}

/// A memory with one source, whose entry stands at 0200h: a block at 0500h, and one at 0600h that it loops to.
pub fn memory_of_a_source(alloc: Global) -> Result<Aram, Fail> {
    let zeros = vec![in alloc; 0u8; 0x10000]?;
    let mut memory = Aram::from_image(alloc, &zeros)?;
    let block = [0xc3, 0x11, 0x11, 0x11, 0x11, 0x11, 0x11, 0x11, 0x11];
    put_all(&mut memory, 0x0200, &[0x00, 0x05, 0x00, 0x06]);
    put_all(&mut memory, 0x0500, &block);
    put_all(&mut memory, 0x0600, &block);
    Ok(memory)
}

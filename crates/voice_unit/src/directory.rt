//! The directory of samples.

ghost use Rattle.std.specs.Prelude.{◌≡◌};
ghost use Rattle.voice_unit.specs.Directory.{entry_address, start_word, loop_word};

use aram_core::Aram;

/// The address of an entry of the directory.
pub fn entry_address(dir: u8, srcn: u8) -> u16
    ensures { result ≡ entry_address dir srcn }
{
    (u16::from(dir) << 8).wrapping_add(u16::from(srcn) << 2)
}

/// The address of the first block of a sample.
#[tactic(auto, unfolding(crate::specs::Directory::start_word))]
pub fn start_word(dir: u8, srcn: u8, memory: &Aram) -> u16
    ensures { result ≡ start_word dir srcn memory.now }
{
    memory.word(entry_address(dir, srcn))
}

/// The address of the block that follows the last block of a sample.
#[tactic(auto, unfolding(crate::specs::Directory::loop_word))]
pub fn loop_word(dir: u8, srcn: u8, memory: &Aram) -> u16
    ensures { result ≡ loop_word dir srcn memory.now }
{
    memory.word(entry_address(dir, srcn).wrapping_add(2))
}

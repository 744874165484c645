// A sample that is decoded and written block by block.
ghost use Rattle.std.specs.Prelude.{◌≡◌, ◌+◌, ◌*◌, ◌<◌, ◌≤◌, ◌++◌, [], length, true, take};
ghost use Rattle.wav_form.specs.Wave.{sample_bytes, header_of, mono_wave};
ghost use Rattle.sample_rip.specs.Rip.{rip_samples};
ghost use Rattle.sample_rip.specs.Walk.{samples_ahead};
ghost use Rattle.command_rip.specs.Pieces.{wave_bytes, held_of, to_come_of, work_of};

use aram_core::Aram;
use byteorder::{ByteOrder, LittleEndian};
use command_runner::Pieces;
use sample_rip::{RipFound, RipWalk};
use std::marker::Model;

/// The bytes of a block's samples.
const SAMPLES_BYTES: usize = 32;

/// The samples of a rip, which are decoded block by block from the memory that it stands in.
#[derive(Drop)]
pub struct RipPieces<'a> {
    memory: &'a Aram,
    walk: RipWalk,
    piece: [u8; SAMPLES_BYTES],
    is_done: bool,
}

impl<'a> Model for RipPieces<'a> {
    ghost use Rattle.sample_rip.specs.Walk.{IsWalkOver};
    ghost use Rattle.command_rip.specs.Pieces.{PiecesState};

    ghost Value = { PiecesState };

    ghost view = { λ s. record { memory = s.memory.now; walk = s.walk; piece = s.piece; is_done = s.is_done } };

    ghost invariant = { λ s. IsWalkOver s.memory.now s.walk };
}

/// The bytes of a block's samples, each with its low byte first.
fn wave_bytes(block: [i16; 16]) -> [u8; SAMPLES_BYTES]
    ensures { result ≡ wave_bytes block }
{
    let mut bytes = [0u8; SAMPLES_BYTES];
    LittleEndian::write_i16_into(&block, &mut bytes);
    bytes
}

impl<'a> RipPieces<'a> {
    /// A source of all samples of a rip.
    pub fn new(memory: &'a Aram, found: &RipFound) -> RipPieces<'a>
        ensures { header_of 1 (16 * found.now.blocks) ++ (to_come_of result).wave ≡ mono_wave (rip_samples memory.now found.now) }
    {
        RipPieces {
            memory,
            walk: RipWalk::new(found),
            piece: [0; SAMPLES_BYTES],
            is_done: false,
        }
    }
}

impl Pieces for RipPieces<'_> {
    ghost held = { held_of };

    ghost to_come = { to_come_of };

    ghost report = { λ _. [] };

    ghost is_done = { λ s. s.is_done };

    ghost work = { work_of };

    fn make_next(&mut self) -> bool {
        match self.walk.next(self.memory) {
            Some(block) => {
                self.piece = wave_bytes(block);
                self.is_done = false;
            }
            None => self.is_done = true,
        }
        self.is_done
    }

    fn wave(&self) -> &[u8] {
        if self.is_done { &[] } else { &self.piece }
    }

    fn trace(&self) -> &[u8] {
        &[]
    }

    fn report(&self) -> &[u8] {
        &[]
    }
}

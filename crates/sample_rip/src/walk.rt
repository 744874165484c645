// A walk over the samples of a rip.
ghost use Rattle.std.specs.Prelude.{◌≡◌, ◌+◌, ◌<◌, ◌≤◌, ◌↔◌, ◌++◌, [], List, ℕ, IsNone, IfNone, IfSome, MatchOption};
ghost use Rattle.num_fix.specs.SignedWords.{number_at};
ghost use Rattle.sample_rip.specs.Walk.{walk_start, IsWalkOver, IsNextBlock, samples_ahead};

use crate::RipFound;
use crate::blocks::block_bytes;
use aram_core::Aram;
use brr_decode::decode_block;
use std::marker::Model;

/// A walk over the samples of a rip, sixteen at a time. It holds no memory: that of the rip is lent to each call.
#[derive(Clone, Copy)]
pub struct RipWalk {
    start: u16,
    blocks: u32,
    passed: u32,
    last: i16,
    before: i16,
}

impl Model for RipWalk {
    ghost use Rattle.std.specs.Prelude.{◌≤◌};
    ghost use Rattle.sample_rip.specs.Walk.{WalkState};

    ghost Value = { WalkState };

    ghost view = { λ w. record {
      start = w.start;
      blocks = w.blocks;
      passed = w.passed;
      last = w.last;
      before = w.before;
    } };

    ghost inverse = { λ w. record {
      start = w.start;
      blocks = w.blocks;
      passed = w.passed;
      last = w.last;
      before = w.before;
    } };

    ghost invariant = { λ w. w.passed ≤ w.blocks };
}

impl RipWalk {
    /// A walk at the start of a rip, of which all samples are still to come.
    pub fn new(found: &RipFound) -> RipWalk
        ensures start { result ≡ walk_start found.now }
        ensures over { (memory : List ℕ) → IsWalkOver memory result }
    {
        RipWalk {
            start: found.start,
            blocks: found.blocks,
            passed: 0,
            last: 0,
            before: 0,
        }
    }

    /// The samples of the next block; None exactly after all blocks.
    pub fn next(&mut self, memory: &Aram) -> Option<[i16; 16]>
        ensures none { IsNone result ↔ (self.old.passed ≡ self.old.blocks) }
        ensures unchanged { IfNone result (self.new ≡ self.old) }
        ensures over { IsWalkOver memory.now self.old → IsWalkOver memory.now self.new }
        ensures samples { IsWalkOver memory.now self.old →
            MatchOption result (samples_ahead memory.now self.old ≡ [])
            (λ block. samples_ahead memory.now self.old ≡ block ++ samples_ahead memory.now self.new) }
        // Whatever the memory was at earlier calls, the samples are those of the next block as it is now, after the last two.
        ensures block { IfSome result (λ block. IsNextBlock memory.now self.old block) }
        ensures last { IfSome result (λ block. (self.new.last ≡ number_at block 15) × (self.new.before ≡ number_at block 14)) }
        ensures passed { IfSome result (λ _. (self.old.passed < self.old.blocks) × (self.new.passed ≡ self.old.passed + 1)) }
        ensures same { (self.new.blocks ≡ self.old.blocks) × (self.new.start ≡ self.old.start) }
    {
        if self.passed == self.blocks {
            return None;
        }
        let block = block_bytes(memory, self.start, self.passed);
        let kept = decode_block(&block, self.last, self.before);
        self.passed += 1;
        self.last = kept[15];
        self.before = kept[14];
        Some(kept)
    }
}

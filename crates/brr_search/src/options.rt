// How a sound is encoded.
ghost use Rattle.std.specs.Prelude.{◌≡◌, ◌≤◌};
ghost use Rattle.brr_search.specs.Options.{AreInRange, max_candidates, candidates_of, loop_block_of, is_looped, is_past};

/// The most candidates that are kept open.
pub const MAX_CANDIDATES: u8 = 64;

/// How a sound is encoded.
#[derive(Clone, Copy)]
pub struct EncodeOptions {
    /// Whether the sound loops.
    pub looped: bool,
    /// How many candidates are kept open, from 1 on; one, where it isn't said.
    pub candidates: Option<u8>,
    /// The sample from which the loop goes on, a multiple of 16; it loops where this is said, and from the first sample where it isn't.
    pub loop_at: Option<u32>,
}

impl EncodeOptions {
    /// How many candidates are kept open.
    pub fn candidates(self) -> u8
        requires { AreInRange self }
        ensures candidates { result ≡ candidates_of self }
        ensures bound { result ≤ max_candidates }
    {
        match self.candidates {
            Some(candidates) => candidates,
            None => 1,
        }
    }

    /// Whether the sound loops.
    pub fn is_looped(self) -> bool
        ensures { result ≡ is_looped self }
    {
        self.looped || self.loop_at.is_some()
    }

    /// The block from which the loop goes on.
    pub fn loop_block(self) -> usize
        ensures { result ≡ loop_block_of self }
    {
        match self.loop_at {
            Some(sample) => sample as usize / 16,
            None => 0,
        }
    }

    /// Whether the loop is to go on from a sample that isn't there, of so many samples.
    pub fn is_past(self, count: usize) -> bool
        ensures { result ≡ is_past count self.loop_at }
    {
        match self.loop_at {
            Some(sample) => count <= sample as usize,
            None => false,
        }
    }
}

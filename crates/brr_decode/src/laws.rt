// What the list of kept samples comes to, sample by sample.
ghost use Rattle.std.specs.Prelude.{List, ℕ};
ghost use Rattle.brr_decode.specs.Kept.{IsKept, samples_of, digits_of};

/// Each sample of a stream is the one kept of its digit by the two samples before it.
pub fn each_sample_is_kept()
    ensures { (bytes : List ℕ) → IsKept (digits_of bytes) (samples_of bytes) }
{}

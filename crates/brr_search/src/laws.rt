// What the definitions come to.
ghost use Rattle.std.specs.Prelude.{◌≡◌, ◌≤◌, ◌/◌, ℕ, ℤ, List, Bool, All, length};
ghost use Rattle.brr_encode.specs.Encoding.{encoding_from, header_count, padded_samples};
ghost use Rattle.brr_encode.specs.Triples.{IsAllowedHeader};
ghost use Rattle.brr_search.specs.Beam.{best_candidates};
ghost use Rattle.brr_search.specs.Found.{cost_of, found_encoding};
ghost use Rattle.brr_search.specs.Headers.{AreAllowedBlocks};
ghost use Rattle.brr_search.specs.declared.candidate.Candidate.{Candidate};

/// What is found never costs more than the plain encoding: the squared differences of all samples sum to no more.
pub fn what_is_found_is_never_dearer()
    ensures { (candidates loop_block : ℕ) (samples : List ℤ) (looped : Bool) →
        let targets = padded_samples samples in
        cost_of (found_encoding candidates loop_block samples looped) targets ≤ cost_of (encoding_from loop_block samples looped) targets }
{}

/// One candidate alone is the plain encoding.
pub fn one_candidate_is_the_plain_encoding()
    ensures { (loop_block : ℕ) (samples : List ℤ) (looped : Bool)
        → found_encoding 1 loop_block samples looped ≡ encoding_from loop_block samples looped }
{}

/// Each candidate that stays has a header that its block may have: filter 0 in a block that stands alone, a shift of at most 12, and neither the
/// loop bit nor the end bit, which are added when the candidates are followed.
pub fn each_candidate_has_an_allowed_header()
    ensures { (most : ℕ) (candidates : List Candidate) (targets : List ℤ) (alone : Bool) →
        All (λ candidate. IsAllowedHeader alone candidate.header) (best_candidates most candidates targets (header_count alone)) }
{}

/// The blocks that are found have headers that a block may have: filter 0 in the first one and in the one from which a loop goes on, a
/// shift of at most 12 in each; and the last one alone has the end bit, and where the sound loops the loop bit.
pub fn blocks_that_are_found_have_allowed_headers()
    ensures { (candidates loop_block : ℕ) (samples : List ℤ) (looped : Bool) →
        AreAllowedBlocks (length (padded_samples samples) / 16) loop_block looped (found_encoding candidates loop_block samples looped) }
{}

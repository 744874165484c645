// What the definitions come to.
ghost use Rattle.std.specs.Prelude.{ℕ, ◌<◌, ℤ, List, Bool};
ghost use Rattle.brr_encode.specs.Least.{least_place, IsFirstLeast};
ghost use Rattle.brr_encode.specs.Encoding.{best_header};
ghost use Rattle.brr_encode.specs.Triples.{IsUpTo, IsAllowedHeader, triple_of};

/// The place at which a number is least is the first such place.
pub fn least_place_is_first()
    ensures { (f : ℕ → ℕ) (n : ℕ) → 0 < n → IsFirstLeast f n (least_place f n) }
{}

/// The header that is chosen is an allowed one, and of all allowed ones that of the least triple of squares, filter and shift: among
/// headers that cost the same the lesser filter decides, and then the lesser shift.
pub fn best_header_has_the_least_triple()
    ensures allowed { (first : Bool) (p1 p2 : ℤ) (targets : List ℤ) → IsAllowedHeader first (best_header first p1 p2 targets) }
    ensures least { (first : Bool) (p1 p2 : ℤ) (targets : List ℤ) (header : ℕ) → IsAllowedHeader first header →
        IsUpTo (triple_of (best_header first p1 p2 targets) p1 p2 targets) (triple_of header p1 p2 targets) }
{}

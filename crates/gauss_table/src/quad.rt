//! The four weights of a place between two samples, side by side.

ghost use Rattle.std.specs.Prelude.{◌≡◌, ◌<◌, ◌≤◌, ℕ, Some, slice_get};
ghost use Rattle.gauss_table.specs.Quads.{quad_at};

/// The weights of four samples, oldest first, at one place between the middle two. Each is signed, in 2,048ths.
#[derive(Clone, Copy)]
pub struct Quad {
    /// The weight of the oldest sample.
    pub oldest: i16,
    /// The weight of the sample before the place.
    pub older: i16,
    /// The weight of the sample after the place.
    pub newer: i16,
    /// The weight of the newest sample.
    pub newest: i16,
}

/// The weights at place `i` of 256.
fn quad_at(weights: &[i16; 512], i: u8) -> Quad
    ensures { result ≡ quad_at weights.now i }
{
    let place = usize::from(i);
    Quad {
        oldest: weights[255 - place],
        older: weights[511 - place],
        newer: weights[256 + place],
        newest: weights[place],
    }
}

/// The weights at all places.
pub(crate) fn quads_of(weights: &[i16; 512]) -> [Quad; 256]
    ensures { (i : ℕ) → i < 256 → slice_get result i ≡ Some (quad_at weights.now i) }
{
    let mut quads = [quad_at(weights, 0); 256];
    for i in 0..256u16 {
        quads[usize::from(i)] = quad_at(weights, i as u8);
    }
    quads
}

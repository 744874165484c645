// Drawn bytes.
ghost use Rattle.std.specs.Prelude.{◌≡◌};
ghost use Rattle.demo_gen.specs.Draws.{next_state, drawn_byte};

/// The state after one more draw.
pub fn next_state(state: u32) -> u32
    ensures { result ≡ next_state state }
{
    state.wrapping_mul(1664525).wrapping_add(1013904223)
}

/// The byte that a state gives.
pub fn drawn_byte(state: u32) -> u8
    ensures { result ≡ drawn_byte state }
{
    (state >> 24) as u8
}

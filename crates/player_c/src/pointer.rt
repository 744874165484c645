// The pointer to a handle.
ghost use Rattle.std.specs.Prelude.{Option};
ghost use Rattle.std.specs.Coded.{coded_option};
ghost use Rattle.player_c.specs.declared.handle.SpcwavePlayer.{SpcwavePlayer};
ghost use Rattle.player_c.specs.Pointers.{handle_code, owns_handle};

use std::marker::Model;

/// The address of a handle on the heap, which is all that C knows of one, or any address where there is none.
#[repr(C)]
#[derive(Drop)]
pub struct SpcwavePointer {
    pub(crate) at: *mut u8,
    pub ghost handle: { Option SpcwavePlayer } by { coded_option handle_code },
}

impl Model for SpcwavePointer {
    ghost also_owns = { λ p. owns_handle p.at p.handle };
}

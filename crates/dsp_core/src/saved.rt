//! What is saved of a chip.
ghost use Rattle.std.specs.Prelude.{◌≡◌};

use dsp_state::Hidden;
use dsp_state::registers::Registers;
use rate_clock::RateClock;
use std::marker::Model;

/// What `Dsp::save` makes, or `with_muted` of such a value: the registers, what the chip keeps beside them, the muted voices, and the number of
/// its next sample. The table isn't part of it.
#[derive(Clone, Copy, Debug)]
pub struct DspState {
    pub(crate) registers: Registers,
    pub(crate) hidden: Hidden,
    pub(crate) muted: u8,
    pub(crate) clock: RateClock,
    pub(crate) number: u32,
}

impl Model for DspState {
    ghost use Rattle.dsp_core.specs.Saved.{SavedDsp};
    ghost use Rattle.dsp_core.specs.InsideSaved.{IsSaved, inside_of, inside_of-saved};

    ghost Value = { SavedDsp };

    ghost view = { λ s. record { registers = s.registers; hidden = s.hidden; muted = s.muted; sample = s.number } };

    ghost invariant = { IsSaved };

    ghost inverse = { inside_of };

    ghost inverse_ok = { inside_of-saved };
}

impl DspState {
    /// The same with these voices muted and no others; bit v is voice v.
    pub fn with_muted(self, muted: u8) -> DspState
        ensures { result ≡ record self { muted = muted } }
    {
        let DspState {
            registers,
            hidden,
            muted: _,
            clock,
            number,
        } = self;
        DspState {
            registers,
            hidden,
            muted,
            clock,
            number,
        }
    }
}

//! Voices with a free-running envelope: while they aren't keyed, only the steps of their envelopes change the envelopes.

ghost use Rattle.std.specs.Prelude.{◌≡◌, true, false};
ghost use Rattle.aram_core.specs.Memory.{byte_at};
ghost use Rattle.envelope.specs.declared.Mode.TheVariants.{Release};
ghost use Rattle.voice_unit.specs.Voice.{is_silencing};
ghost use Rattle.voice_batch.specs.FreeEnvelope.{IsSilent, HasFreeEnvelope};

use aram_core::Aram;
use envelope::{Envelope, Mode};
use voice_unit::{Voice, is_silencing};

/// Whether an envelope is released at level 0.
pub(crate) fn is_silent(envelope: &Envelope) -> bool
    ensures silent { result ≡ true → IsSilent envelope.now }
    ensures all { IsSilent envelope.now → result ≡ true }
{
    envelope.mode == Mode::Release && envelope.level() == 0
}

/// Whether its block silences the voice while it sounds.
fn is_to_be_silenced(voice: &Voice, reset: bool, memory: &Aram) -> bool
    ensures { result ≡ false → is_silencing reset (byte_at memory.now voice.now.block) ≡ true → IsSilent voice.now.envelope }
{
    is_silencing(reset, memory.get(voice.block())) && !is_silent(&voice.envelope())
}

/// Whether a key off is to release the voice.
fn is_to_be_released(voice: &Voice, koff: bool) -> bool
    ensures { result ≡ false → koff ≡ true → voice.now.envelope.mode ≡ Release }
{
    koff && voice.envelope().mode != Mode::Release
}

/// Whether only the steps of its envelope change the envelope while the voice isn't keyed.
pub(crate) fn has_free_envelope(voice: &Voice, reset: bool, koff: bool, memory: &Aram) -> bool
    ensures { result ≡ true → HasFreeEnvelope reset koff memory.now voice.now }
{
    if voice.delay() != 0 {
        return false;
    }
    if is_to_be_silenced(voice, reset, memory) {
        return false;
    }
    !is_to_be_released(voice, koff)
}

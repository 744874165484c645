// What a voice that plays on comes to, sample by sample.
ghost use Rattle.std.specs.Prelude.{◌≡◌, ◌<◌, ◌≤◌, ◌+◌, ℕ, ℤ, List, false};
ghost use Rattle.voice_unit.specs.Batch.{steps};
ghost use Rattle.voice_batch.specs.Row.{ArePhases, PlaysOn, StandsAt, row_of, groups_before};
ghost use Rattle.voice_batch.specs.SpanPhases.{steady_phases};
ghost use Rattle.voice_unit.specs.Voice.{VoiceState, pitch_of, interpolation};
ghost use Rattle.voice_unit.specs.declared.interface.VoiceIn.{VoiceIn};
ghost use Rattle.voice_unit.specs.declared.interface.VoiceRegs.{VoiceRegs};

/// A voice that plays on reads, in sample j, the row of all its groups at the phase that its pitches lead to, modulated or not, whatever groups
/// follow there: its interpolation is that of the row, and it stands there then. At its own pitch that phase is P + j * pitch.
pub fn kept_rows()
    ensures plays { (r : VoiceRegs) (inputs : ℕ → VoiceIn) (dir n : ℕ) (memory : List ℕ) (counters phases : ℕ → ℕ)
        (voice : VoiceState) (table : List ℤ)
        (j more : ℕ) → PlaysOn r inputs dir n phases voice → j ≤ n
        → interpolation table (steps r inputs memory counters voice j).samples (steps r inputs memory counters voice j).position
        ≡ interpolation table (row_of r dir memory voice (more + groups_before phases j)) (phases j) }
    ensures stands { (r : VoiceRegs) (inputs : ℕ → VoiceIn) (dir n : ℕ) (memory : List ℕ) (counters phases : ℕ → ℕ) (voice : VoiceState) (j : ℕ)
        → PlaysOn r inputs dir n phases voice → j ≤ n
        → StandsAt r dir memory voice (groups_before phases j) (phases j) (steps r inputs memory counters voice j) }
    ensures unmodulated { (r : VoiceRegs) (inputs : ℕ → VoiceIn) (n position : ℕ) → ((j : ℕ) → j < n → (inputs j).modulated ≡ false)
        → r.pitch < 0x4000 → ArePhases (λ j. pitch_of r (inputs j)) n position (steady_phases position r.pitch) }
{}

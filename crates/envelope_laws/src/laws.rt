// Laws of the envelope, one step or several.
ghost use Rattle.envelope_laws.specs.OneStep.{FastAttackRises, AttackRises, DecayFalls, SustainFalls, LevelIsSet, GainFalls, GainFallsBent};
ghost use Rattle.envelope_laws.specs.OneStep.{GainRises, GainRisesBent, GainRisesSlowly, StaysWithin};
ghost use Rattle.envelope_laws.specs.ManySteps.{ReleaseFalls, ReleaseEnds, FastAttackTime, LinearRiseTime, BentRiseTime};

/// Attack under ADSR rises by 400h in each sample with rate Fh, and else by 20h where its rate fires, up to 7FFh.
pub fn attack_rises()
    ensures fast { FastAttackRises }
    ensures other { AttackRises }
{}

/// Decay and sustain under ADSR fall by 1 and a 256th of the rest where their rates fire, and not below 0.
pub fn decay_and_sustain_fall()
    ensures decay { DecayFalls }
    ensures sustain { SustainFalls }
{}

/// GAIN below 80h is the level's high bits at once. Above, where its rate fires, the level falls by 20h, falls by 1 and a
/// 256th, rises by 20h, or rises by 20h and from the hidden value 600h on by 8.
pub fn a_gain_sets_or_slopes_the_level()
    ensures set { LevelIsSet }
    ensures fall { GainFalls }
    ensures bent_fall { GainFallsBent }
    ensures rise { GainRises }
    ensures bent_rise { GainRisesBent }
    ensures slow_rise { GainRisesSlowly }
{}

/// No step takes the level above 7FFh.
pub fn the_level_stays_within_its_bounds()
    ensures { StaysWithin }
{}

/// A release falls by 8 in each sample, and is at 0 after 256 samples.
pub fn a_release_falls_to_nothing()
    ensures falls { ReleaseFalls }
    ensures ends { ReleaseEnds }
{}

/// A rise from 0 to 7FFh in steps that always fire takes 2 samples in attack with rate Fh, 64 with the linear rise of GAIN,
/// and 112 with the bent one.
pub fn a_rise_takes_so_many_samples()
    ensures attack { FastAttackTime }
    ensures linear { LinearRiseTime }
    ensures bent { BentRiseTime }
{}

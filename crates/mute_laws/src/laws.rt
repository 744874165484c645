//! Laws of muted voices, over one sample or several.
ghost use Rattle.mute_laws.specs.Muting.{AllAreHeard, MutedVoicesGoOn, WritesLeaveMuted, AllMutedIsSilent};
ghost use Rattle.mute_laws.specs.MutedVolumes.{SamplesStayAlike, ReadsStayAlike, WritesStayAlike, MutedWritesStayAlike};

/// Where no voice is muted, each is heard at its own volumes.
pub fn without_muted_voices_all_are_heard()
    ensures { AllAreHeard }
{}

/// Whichever voices are muted, a sample leaves the same registers, keys, noise, voices and echo, and gives the same records.
pub fn muted_voices_go_on()
    ensures { MutedVoicesGoOn }
{}

/// No write of a register mutes a voice or lets one be heard again: it does the same whichever voices are muted.
pub fn writes_leave_the_muted_voices()
    ensures { WritesLeaveMuted }
{}

/// Two chips that differ in VOLL and VOLR of muted voices alone make the same samples, and stay such chips; so they do at each
/// write of a register, and what is read of their other registers is the same. A write of such a volume makes such a chip.
pub fn volumes_of_muted_voices_do_nothing()
    ensures samples { SamplesStayAlike }
    ensures reads { ReadsStayAlike }
    ensures writes { WritesStayAlike }
    ensures muted_writes { MutedWritesStayAlike }
{}

/// With all voices muted and the echo at volume 0 on both sides, all frames are silent.
pub fn a_chip_with_all_voices_muted_is_silent()
    ensures { AllMutedIsSilent }
{}

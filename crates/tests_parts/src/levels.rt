//! Worked examples of steps.

use envelope::{Envelope, Mode};
use rate_clock::RateClock;

#[test]
fn fast_attack_reaches_sustain_in_three_steps(rt: HostRuntime) {
    let mut clock = RateClock::new();
    let mut envelope = Envelope::released();
    envelope.key();
    for (level, mode, hidden) in [
        (0x400, Mode::Attack, 0x400),
        (0x7ff, Mode::Decay, 0x800),
        (0x7ff, Mode::Sustain, 0x7f7),
    ] {
        clock.step();
        envelope.step(0x8f, 0xe0, 0, &clock);
        assert!(rt; (envelope.level(), envelope.mode, envelope.hidden) == (level, mode, hidden));
    }
}

#[test]
fn keys_change_what_they_name(rt: HostRuntime) {
    let mut clock = RateClock::new();
    clock.step();
    let mut envelope = Envelope::released();
    envelope.key();
    envelope.step(0x8f, 0, 0, &clock);
    envelope.release();
    envelope.step(0x8f, 0, 0, &clock);
    assert!(rt; (envelope.level(), envelope.hidden) == (0x3f8, 0x400));
    envelope.reset_for_key_on();
    assert!(rt; (envelope.level(), envelope.hidden) == (0, 0));
    envelope.key();
    envelope.silence();
    assert!(rt; envelope.mode == Mode::Release);
}

#[test]
fn each_gain_sets_or_slopes_the_level(rt: HostRuntime) {
    let mut clock = RateClock::new();
    for (start, gain, want) in [
        (0x40, 0x0c, [0x0c0, 0x0c0]),
        (0x40, 0x9f, [0x3e0, 0x3c0]),
        (0x01, 0x9f, [0x000, 0x000]),
        (0x40, 0xbf, [0x3fc, 0x3f8]),
        (0x40, 0xdf, [0x420, 0x440]),
        (0x7f, 0xdf, [0x7ff, 0x7ff]),
        (0x40, 0xff, [0x420, 0x440]),
        (0x5e, 0xff, [0x600, 0x608]),
    ] {
        let mut envelope = Envelope::released();
        envelope.key();
        envelope.step(0, 0, start, &clock);
        for level in want {
            clock.step();
            envelope.step(0, 0, gain, &clock);
            assert!(rt;
                envelope.level() == level,
                "at gain {gain:02x} from {start:02x}"
            );
        }
    }
}

// By the top 3 bits of ADSR2, E0h, a decay would end from 700h on. GAIN rules, and so it ends by those of GAIN: not at 7DFh under 9Fh, and at 0F0h under 0Fh.
#[test]
fn under_gain_a_decay_ends_by_the_bits_of_gain(rt: HostRuntime) {
    let mut clock = RateClock::new();
    let mut envelope = Envelope::released();
    envelope.key();
    for (gain, level, mode, hidden) in [
        (0x7f, 0x7f0, Mode::Attack, 0x7f0),
        (0xdf, 0x7ff, Mode::Decay, 0x810),
        (0x9f, 0x7df, Mode::Decay, 0x7df),
        (0x0f, 0x0f0, Mode::Sustain, 0x0f0),
    ] {
        clock.step();
        envelope.step(0, 0xe0, gain, &clock);
        assert!(rt; (envelope.level(), envelope.mode, envelope.hidden) == (level, mode, hidden));
    }
}

/// An envelope from its key on under values of GAIN, and what it is after each step.
const UNDER_GAIN: &[&[(u8, u16, Mode, i32)]] = &[
    // the rate 1 of C1h and E1h doesn't fire: the level stays, while the mode and the hidden value move on
    &[
        (0x7e, 0x7e0, Mode::Attack, 0x7e0),
        (0xc1, 0x7e0, Mode::Decay, 0x800),
        (0xe1, 0x7e0, Mode::Sustain, 0x7e8),
    ],
    // a value below 0 ends the attack, too
    &[
        (0x01, 0x010, Mode::Attack, 0x010),
        (0x9f, 0x000, Mode::Decay, -0x10),
    ],
    // 7F8h is a level, 800h is none, and the hidden value goes on above it
    &[
        (0x7f, 0x7f0, Mode::Attack, 0x7f0),
        (0xff, 0x7f8, Mode::Attack, 0x7f8),
        (0xff, 0x7ff, Mode::Decay, 0x800),
        (0xff, 0x7ff, Mode::Decay, 0x807),
    ],
];

#[test]
fn mode_and_hidden_value_move_in_each_step(rt: HostRuntime) {
    for steps in UNDER_GAIN {
        let mut clock = RateClock::new();
        let mut envelope = Envelope::released();
        envelope.key();
        for (gain, level, mode, hidden) in *steps {
            clock.step();
            envelope.step(0, 0, *gain, &clock);
            assert!(rt;
                (envelope.level(), envelope.mode, envelope.hidden) == (*level, *mode, *hidden),
                "at gain {gain:02x}"
            );
        }
    }
}

// The first step after a key on. Where GAIN rules it sets the level; else the attack 15 rises by 400h, and the rate of the attack 0 doesn't fire.
#[test]
fn gain_rules_where_bit_7_of_adsr1_is_clear(rt: HostRuntime) {
    let mut clock = RateClock::new();
    clock.step();
    for (adsr1, level) in [
        (0x00, 0x0c0),
        (0x40, 0x0c0),
        (0x7f, 0x0c0),
        (0x80, 0x000),
        (0xff, 0x400),
    ] {
        let mut envelope = Envelope::released();
        envelope.key();
        envelope.step(adsr1, 0, 0x0c, &clock);
        assert!(rt; envelope.level() == level, "at {adsr1:02x}");
    }
}

/// How many samples lie between two falls of a decay to nothing.
fn samples_between_falls(adsr1: u8) -> u32 {
    let mut clock = RateClock::new();
    let mut envelope = Envelope::released();
    envelope.key();
    let mut falls = 0u32;
    let mut samples = 0u32;
    for _ in 0..1000 {
        let before = envelope.level();
        clock.step();
        envelope.step(adsr1, 0, 0, &clock);
        if envelope.level() < before {
            falls = falls.wrapping_add(1);
        }
        if falls == 1 {
            samples = samples.wrapping_add(1);
        }
    }
    samples
}

/// Decay 0, 3 and 7 use the rates 16, 22 and 30, which fire every 64, 16 and 2 samples.
#[test]
fn a_decay_falls_at_its_own_rate(rt: HostRuntime) {
    for (adsr1, want) in [(0x8f, 64), (0xbf, 16), (0xff, 2)] {
        assert!(rt; samples_between_falls(adsr1) == want, "at {adsr1:02x}");
    }
}

//! Worked examples of the counter and the noise.

ghost use Rattle.std.specs.Prelude.{◌<◌};

use rate_clock::{Noise, RateClock};

#[test]
fn rate_30_waits_for_an_even_counter(rt: HostRuntime) {
    let mut clock = RateClock::new();
    clock.step();
    assert!(rt; !clock.fires(30) && clock.fires(31) && !clock.fires(0));
    clock.step();
    assert!(rt; clock.fires(30) && clock.fires(31) && !clock.fires(0));
}

#[test]
fn noise_begins_with_a_falling_bit(rt: HostRuntime) {
    let mut noise = Noise::new();
    for want in [0x2000, 0x1000, 0x0800] {
        noise.step(true);
        assert!(rt; noise.value() == want);
    }
    noise.step(false);
    assert!(rt; noise.value() == 0x0800);
}

/// The bit that went down from the top comes to the two lowest bits, which then differ twice.
#[test]
fn noise_looks_at_its_two_lowest_bits(rt: HostRuntime) {
    let mut noise = Noise::new();
    for _ in 0..13 {
        noise.step(true);
    }
    for want in [0x4001, 0x6000, 0x3000] {
        noise.step(true);
        assert!(rt; noise.value() == want);
    }
}

/// For each rate from 1 on, how many samples lie between two firings, and the first sample in which it fires, by the periods and the
/// offsets of Anomie's S-DSP document.
const FIRINGS: [(u32, u32); 31] = [
    (2048, 2048),
    (1536, 1040),
    (1280, 536),
    (1024, 1024),
    (768, 272),
    (640, 536),
    (512, 512),
    (384, 272),
    (320, 216),
    (256, 256),
    (192, 80),
    (160, 56),
    (128, 128),
    (96, 80),
    (80, 56),
    (64, 64),
    (48, 32),
    (40, 16),
    (32, 32),
    (24, 8),
    (20, 16),
    (16, 16),
    (12, 8),
    (10, 6),
    (8, 8),
    (6, 2),
    (5, 1),
    (4, 4),
    (3, 2),
    (2, 2),
    (1, 1),
];

/// How often a rate fires in the samples until the counter wraps around, and in which of them first.
fn firings(rate: u8) -> (u32, u32)
    requires { rate < 32 }
{
    let mut clock = RateClock::new();
    let mut count = 0u32;
    let mut first = 0;
    for sample in 1..=30720u32 {
        clock.step();
        if clock.fires(rate) {
            if count == 0 {
                first = sample;
            }
            count = count.wrapping_add(1);
        }
    }
    (count, first)
}

#[test]
fn each_rate_fires_at_its_samples(rt: HostRuntime) {
    assert!(rt; firings(0) == (0, 0));
    for rate in 1..32u8 {
        let (period, wanted) = FIRINGS[usize::from(rate) - 1];
        let (count, first) = firings(rate);
        assert!(rt;
            period.wrapping_mul(count) == 30720 && first == wanted,
            "rate {rate}"
        );
    }
}

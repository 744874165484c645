// The digit whose kept sample is nearest a target.
ghost use Rattle.std.specs.Prelude.{◌≡◌, ◌<◌, nat_lt, if◌then◌else◌};
ghost use Rattle.brr_encode.specs.Greedy.{distance, nearest_digit, nearest_sample};
ghost use Rattle.brr_encode.specs.EncoderParts.{IsAt};

use brr_decode::kept_sample;

/// A digit, the sample that is kept of it, and how far that lies from its target.
#[derive(Clone, Copy)]
pub struct Choice {
    pub digit: i16,
    pub sample: i16,
    pub distance: u32,
}

/// How far two samples lie apart, 0 to 65,535.
#[tactic(auto, unfolding(crate::specs::Greedy::distance))]
pub fn distance(a: i16, b: i16) -> u32
    ensures value { result ≡ distance a b }
    ensures bound { result < 0x10000 }
{
    (i32::from(a) - i32::from(b)).unsigned_abs()
}

/// The digit at a place of the sixteen, as it fits a target.
fn digit_at(header: u8, place: u8, target: i16, p1: i16, p2: i16) -> Choice
    requires { place < 16 }
    ensures { IsAt header target p1 p2 place result }
{
    let digit = i16::from(place) - 8;
    let sample = kept_sample(header, digit, p1, p2);
    Choice {
        digit,
        sample,
        distance: distance(sample, target),
    }
}

/// The choice that is nearer its target, the first of two that are equally near.
fn nearer(first: Choice, second: Choice) -> Choice
    ensures { result ≡ (if nat_lt second.distance first.distance then second else first) }
{
    if second.distance < first.distance {
        second
    } else {
        first
    }
}

/// The digit whose kept sample is nearest the target, the smallest of those that are equally near.
pub fn nearest(header: u8, target: i16, p1: i16, p2: i16) -> Choice
    ensures digit { result.digit ≡ nearest_digit header target p1 p2 }
    ensures sample { result.sample ≡ nearest_sample header target p1 p2 }
    ensures distance { result.distance ≡ distance (nearest_sample header target p1 p2) target }
    ensures bound { result.distance < 0x10000 }
{
    let mut best = digit_at(header, 0, target, p1, p2);
    'places: for place in 1..16 {
        best = nearer(best, digit_at(header, place, target, p1, p2));
    }
    best
}

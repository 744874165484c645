// The header that costs least.
ghost use Rattle.std.specs.Prelude.{◌≡◌, ◌*◌, ◌<◌, ◌≤◌, length, true, false, None, Some, IfSome, IsSomeAnd, if◌then◌else◌};
ghost use Rattle.brr_encode.specs.Encoding.{header_at, header_count, best_header};
ghost use Rattle.brr_encode.specs.Greedy.{distance, greedy_squares};

use crate::choice::nearest;

/// The square of a distance.
pub fn squared(distance: u32) -> u64
    requires { distance < 0x10000 }
    ensures value { result ≡ distance * distance }
    ensures bound { result < 0x100000000 }
{
    u64::from(distance) * u64::from(distance)
}

/// Whether a sum has come to the limit, if there is one.
fn has_reached(limit: Option<u64>, sum: u64) -> bool
    ensures reached { result ≡ true → IsSomeAnd limit (λ limit. limit ≤ sum) }
    ensures below { result ≡ false → IfSome limit (λ limit. sum < limit) }
{
    match limit {
        Some(limit) => limit <= sum,
        None => false,
    }
}

/// What a header costs, where that is below the limit; p1 is the last kept sample and p2 the one before it.
fn squares_below(header: u8, targets: &[i16], p1: i16, p2: i16, limit: Option<u64>) -> Option<u64>
    requires { length targets.now ≤ 16 }
    ensures squares { IfSome result (λ squares. squares ≡ greedy_squares header p1 p2 targets.now) }
    ensures below { IfSome result (λ squares. IfSome limit (λ limit. squares < limit)) }
    ensures too_much { result ≡ None → IsSomeAnd limit (λ limit. limit ≤ greedy_squares header p1 p2 targets.now) }
{
    let mut last = p1;
    let mut before = p2;
    let mut sum = 0;
    if has_reached(limit, sum) {
        return None;
    }
    'samples: for target in targets {
        let choice = nearest(header, *target, last, before);
        sum += squared(choice.distance);
        if has_reached(limit, sum) {
            return None;
        }
        before = last;
        last = choice.sample;
    }
    Some(sum)
}

/// The header at a place of the order in which they are tried.
pub fn header_at(place: u8) -> u8
    requires { place < 52 }
    ensures header { result ≡ header_at place }
    ensures bound { result ≤ 0xcc }
{
    place % 13 * 0x10 + place / 13 * 4
}

/// How many headers a block tries.
pub fn header_count(first: bool) -> u8
    ensures count { result ≡ header_count first }
    ensures some { 0 < result }
    ensures bound { result ≤ 52 }
{
    if first { 13 } else { 52 }
}

/// The place of the cheapest header so far, and what it costs, if one was tried.
#[derive(Clone, Copy)]
struct Cheapest {
    place: u8,
    squares: Option<u64>,
}

/// The cheapest after the header at one more place was tried, of which the costs are reported where they are less.
fn with_tried(cheapest: Cheapest, place: u8, squares: Option<u64>) -> Cheapest
    ensures cheaper { IfSome squares (λ squares. result ≡ record { place = place; squares = Some squares }) }
    ensures same { squares ≡ None → result ≡ cheapest }
{
    match squares {
        Some(squares) => Cheapest {
            place,
            squares: Some(squares),
        },
        None => cheapest,
    }
}

/// The header that costs least, of several the first; p1 is the last kept sample and p2 the one before it.
pub fn best_header(first: bool, targets: &[i16], p1: i16, p2: i16) -> u8
    requires { length targets.now ≤ 16 }
    ensures best { result ≡ best_header first p1 p2 targets.now }
    ensures bound { result ≤ 0xcc }
{
    let mut cheapest = Cheapest {
        place: 0,
        squares: None,
    };
    'headers: for place in 0..header_count(first) {
        let squares = squares_below(header_at(place), targets, p1, p2, cheapest.squares);
        cheapest = with_tried(cheapest, place, squares);
    }
    header_at(cheapest.place)
}

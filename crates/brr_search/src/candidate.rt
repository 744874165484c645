// A candidate through the samples, one digit further on.
ghost use Rattle.std.specs.Prelude.{◌≡◌};
ghost use Rattle.brr_search.specs.Candidates.{gone_on, no_candidate, end_alike, digit_below, digit_above};

use brr_decode::kept_sample;
use brr_encode::distance;

/// A candidate through the samples: the last two that it keeps, what it costs from the first sample on, and what it chose in its block.
#[derive(Clone, Copy)]
pub struct Candidate {
    pub last: i16,
    pub before: i16,
    /// The sum of the squared differences, from the first sample on.
    pub squares: u64,
    pub header: u8,
    /// The last sixteen digits, four bits each, as the eight bytes of a block have them.
    pub digits: u64,
    /// The place of the candidate that it goes on from, among those that stayed after the block before.
    pub start: u8,
}

impl Candidate {
    /// The candidate before the first block.
    pub fn none() -> Candidate
        ensures { result ≡ no_candidate }
    {
        Candidate {
            last: 0,
            before: 0,
            squares: 0,
            header: 0,
            digits: 0,
            start: 0,
        }
    }
}

/// Whether two candidates end in the same two samples, so that what comes after them is the same.
pub fn end_alike(a: &Candidate, b: &Candidate) -> bool
    ensures { result ≡ end_alike a.now b.now }
{
    a.last == b.last && a.before == b.before
}

/// A candidate with one digit more, if it costs less than the limit.
#[tactic(auto, unfolding(crate::specs::Candidates::gone_on))]
pub fn go_on(limit: u64, target: i16, candidate: Candidate, digit: i16) -> Option<Candidate>
    ensures { result ≡ gone_on limit target candidate digit }
{
    let sample = kept_sample(candidate.header, digit, candidate.last, candidate.before);
    let far = u64::from(distance(sample, target));
    let digits = candidate.digits % 0x1000_0000_0000_0000 * 16
        + u64::from(digit.rem_euclid(16) as u8);
    match candidate.squares.checked_add(far * far) {
        Some(squares) if squares < limit => Some(Candidate {
            last: sample,
            before: candidate.last,
            squares,
            digits,
            ..candidate
        }),
        _ => None,
    }
}

/// The digit below a digit, if there is one.
pub fn digit_below(digit: i16) -> Option<i16>
    ensures { result ≡ digit_below digit }
{
    if digit > -8 { Some(digit - 1) } else { None }
}

/// The digit above a digit, if there is one.
pub fn digit_above(digit: i16) -> Option<i16>
    ensures { result ≡ digit_above digit }
{
    if digit < 7 { Some(digit + 1) } else { None }
}

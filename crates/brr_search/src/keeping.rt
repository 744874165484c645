// The candidates that stay: in the order of what they cost, and so many at most.
ghost use Rattle.std.specs.Prelude.{◌≡◌, ◌≤◌, length, IfSome, OnOk};
ghost use Rattle.brr_search.specs.Candidates.{place_from, keep, keep_digit, keep_nearest};

use crate::OutOfMemory;
use crate::candidate::{Candidate, digit_above, digit_below, end_alike, go_on};
use brr_encode::nearest;

/// The place of a candidate among others: behind those that cost no more; none if one of those ends in the same two samples.
fn place_among(candidate: &Candidate, others: &[Candidate]) -> Option<usize>
    ensures place { result ≡ place_from 0 candidate.now others.now }
    ensures within { IfSome result (λ place. place ≤ length others.now) }
{
    'others: for (place, other) in others.iter().enumerate() {
        if candidate.squares < other.squares {
            return Some(place);
        }
        if end_alike(candidate, other) {
            return None;
        }
    }
    Some(others.len())
}

/// Puts a candidate into its place among others, of which so many stay at most.
#[tactic(auto, unfolding(crate::specs::Candidates::keep))]
pub fn keep(
    candidates: &mut Vec<Candidate>,
    most: usize,
    candidate: Candidate,
) -> Result<(), OutOfMemory>
    ensures candidates { OnOk result (candidates.new.items ≡ keep most candidate candidates.old.items) }
    ensures few { OnOk result (length candidates.old.items ≤ most → length candidates.new.items ≤ most) }
{
    match place_among(&candidate, candidates) {
        Some(place) => {
            candidates.insert(place, candidate)?;
            candidates.truncate(most);
            Ok(())
        }
        None => Ok(()),
    }
}

/// Where candidates are kept: how many at most, and what each must cost less than.
#[derive(Clone, Copy)]
pub struct Bounds {
    pub most: usize,
    pub limit: u64,
}

/// Keeps the candidate that goes on from another by a digit, if there is one.
fn keep_digit(
    candidates: &mut Vec<Candidate>,
    bounds: Bounds,
    target: i16,
    candidate: Candidate,
    digit: Option<i16>,
) -> Result<(), OutOfMemory>
    ensures candidates { OnOk result (candidates.new.items ≡ keep_digit bounds.most bounds.limit target candidate digit candidates.old.items) }
    ensures few { OnOk result (length candidates.old.items ≤ bounds.most → length candidates.new.items ≤ bounds.most) }
{
    match digit {
        Some(digit) => match go_on(bounds.limit, target, candidate, digit) {
            Some(longer) => keep(candidates, bounds.most, longer),
            None => Ok(()),
        },
        None => Ok(()),
    }
}

/// Keeps the candidates that go on from another by the digit whose kept sample is nearest the target, and by the two beside it.
#[tactic(auto, unfolding(crate::specs::Candidates::keep_nearest))]
pub fn keep_nearest(
    candidates: &mut Vec<Candidate>,
    bounds: Bounds,
    target: i16,
    candidate: Candidate,
) -> Result<(), OutOfMemory>
    ensures candidates { OnOk result (candidates.new.items ≡ keep_nearest bounds.most bounds.limit target candidate candidates.old.items) }
    ensures few { OnOk result (length candidates.old.items ≤ bounds.most → length candidates.new.items ≤ bounds.most) }
{
    let digit = nearest(candidate.header, target, candidate.last, candidate.before).digit;
    keep_digit(candidates, bounds, target, candidate, Some(digit))?;
    keep_digit(candidates, bounds, target, candidate, digit_below(digit))?;
    keep_digit(candidates, bounds, target, candidate, digit_above(digit))
}

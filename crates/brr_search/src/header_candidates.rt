// The candidates through a block.
ghost use Rattle.std.specs.Prelude.{◌≡◌, ◌≤◌, [], length, OnOk};
ghost use Rattle.brr_search.specs.declared.options.TheConstants.{MAX_CANDIDATES};
ghost use Rattle.brr_search.specs.Beam.{after_target, after_targets, opened, keep_all, limit_of, best_candidates};

use crate::OutOfMemory;
use crate::candidate::Candidate;
use crate::keeping::{Bounds, keep, keep_nearest};
use brr_encode::header_at;

/// The candidates that stay after one target more.
fn pass_target(
    next: &mut Vec<Candidate>,
    candidates: &[Candidate],
    bounds: Bounds,
    target: i16,
) -> Result<(), OutOfMemory>
    ensures candidates { OnOk result (next.new.items ≡ after_target bounds.most bounds.limit target candidates.now []) }
    ensures few { OnOk result (length next.new.items ≤ bounds.most) }
{
    next.clear();
    'candidates: for candidate in candidates {
        keep_nearest(next, bounds, target, *candidate)?;
    }
    Ok(())
}

/// Two lists of candidates, before a target and after it.
#[derive(Drop)]
pub struct CandidateLists {
    pub candidates: Vec<Candidate>,
    pub next: Vec<Candidate>,
}

/// Takes the candidates through targets.
fn pass_targets(
    lists: &mut CandidateLists,
    bounds: Bounds,
    targets: &[i16],
) -> Result<(), OutOfMemory>
    ensures { OnOk result (lists.new.candidates.items ≡ after_targets bounds.most bounds.limit targets.now lists.old.candidates.items) }
{
    'targets: for target in targets {
        pass_target(&mut lists.next, &lists.candidates, bounds, *target)?;
        std::mem::swap(&mut lists.candidates, &mut lists.next);
    }
    Ok(())
}

/// Opens the candidates of a block under a header: each goes on from one of those before.
fn open_candidates(
    candidates: &mut Vec<Candidate>,
    header: u8,
    starts: &[Candidate],
) -> Result<(), OutOfMemory>
    requires { length starts.now ≤ MAX_CANDIDATES }
    ensures { OnOk result (candidates.new.items ≡ opened header 0 starts.now) }
{
    candidates.clear();
    'starts: for (place, start) in starts.iter().enumerate() {
        candidates.push(Candidate {
            header,
            start: place as u8,
            ..*start
        })?;
    }
    Ok(())
}

/// What a candidate must cost less than to stay among others.
fn limit_of(candidates: &[Candidate], most: usize) -> u64
    ensures { result ≡ limit_of most candidates.now }
{
    match candidates.get(most.saturating_sub(1)) {
        Some(candidate) => candidate.squares,
        None => u64::MAX,
    }
}

/// Keeps candidates one after another.
fn keep_all(
    kept: &mut Vec<Candidate>,
    candidates: &[Candidate],
    most: usize,
) -> Result<(), OutOfMemory>
    ensures candidates { OnOk result (kept.new.items ≡ keep_all most candidates.now kept.old.items) }
    ensures few { OnOk result (length kept.old.items ≤ most → length kept.new.items ≤ most) }
{
    'candidates: for candidate in candidates {
        keep(kept, most, *candidate)?;
    }
    Ok(())
}

/// The candidates that stay after a block of targets, of those that go on from others under the first so many headers.
pub fn best_candidates(
    best: &mut Vec<Candidate>,
    lists: &mut CandidateLists,
    most: usize,
    starts: &[Candidate],
    targets: &[i16],
    count: u8,
) -> Result<(), OutOfMemory>
    requires starts { length starts.now ≤ MAX_CANDIDATES }
    requires count { count ≤ 52 }
    ensures candidates { OnOk result (best.new.items ≡ best_candidates most starts.now targets.now count) }
    ensures few { OnOk result (length best.new.items ≤ most) }
{
    best.clear();
    'headers: for place in 0..count {
        let bounds = Bounds {
            most,
            limit: limit_of(best, most),
        };
        open_candidates(&mut lists.candidates, header_at(place), starts)?;
        pass_targets(lists, bounds, targets)?;
        keep_all(best, &lists.candidates, most)?;
    }
    Ok(())
}

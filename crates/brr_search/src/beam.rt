// The blocks along the cheapest of several candidates.
ghost use Rattle.std.specs.Prelude.{◌≡◌, ◌≤◌, ◌%◌, ◌/◌, ◌∷◌, ℕ, [], length, reverse, slice_get, IfOk, OnOk};
ghost use Rattle.brr_encode.specs.Encoding.{max_samples};
ghost use Rattle.brr_search.specs.declared.options.TheConstants.{MAX_CANDIDATES};
ghost use Rattle.brr_search.specs.Candidates.{no_candidate};
ghost use Rattle.brr_search.specs.Beam.{best_candidates, fronts, blocks_through};
ghost use Rattle.brr_search.specs.Links.{blocks_along};

use crate::OutOfMemory;
use crate::candidate::Candidate;
use crate::header_candidates::{CandidateLists, best_candidates};
use crate::links::{Row, row_of, trace};
use brr_encode::{end_bits, header_count, stands_alone};
use std::alloc::Global;

/// A search: the candidates that stayed after the last block, room for those of the next one, and the rows of links of all blocks.
#[derive(Drop)]
struct Search {
    candidates: Vec<Candidate>,
    best: Vec<Candidate>,
    lists: CandidateLists,
    rows: Vec<Row>,
}

/// A search before the first of so many blocks, with room for so many candidates.
fn open(alloc: Global, most: usize, blocks: usize) -> Result<Search, OutOfMemory>
    requires { most ≤ MAX_CANDIDATES }
    ensures candidates { IfOk result (λ search. search.candidates.items ≡ no_candidate ∷ []) }
    ensures rows { IfOk result (λ search. search.rows.items ≡ []) }
{
    let mut candidates = Vec::with_capacity(alloc, most + 1)?;
    candidates.push(Candidate::none())?;
    Ok(Search {
        candidates,
        best: Vec::with_capacity(alloc, most + 1)?,
        lists: CandidateLists {
            candidates: Vec::with_capacity(alloc, most + 1)?,
            next: Vec::with_capacity(alloc, most + 1)?,
        },
        rows: Vec::with_capacity(alloc, blocks)?,
    })
}

/// Takes a search through a block of targets: so many headers are tried, and the one that is taken takes end and loop bits.
fn pass_block(
    alloc: Global,
    search: &mut Search,
    most: usize,
    targets: &[i16],
    count: u8,
    flags: u8,
) -> Result<(), OutOfMemory>
    requires starts { length search.old.candidates.items ≤ MAX_CANDIDATES }
    requires count { count ≤ 52 }
    requires flags { flags ≤ 3 }
    ensures candidates { OnOk result (search.new.candidates.items ≡ best_candidates most search.old.candidates.items targets.now count) }
    ensures few { OnOk result (length search.new.candidates.items ≤ most) }
    ensures fronts { OnOk result ((place : ℕ) → blocks_along (reverse search.new.rows.items) place
        ≡ fronts (blocks_along (reverse search.old.rows.items)) flags search.new.candidates.items place) }
{
    best_candidates(
        &mut search.best,
        &mut search.lists,
        most,
        &search.candidates,
        targets,
        count,
    )?;
    let row = row_of(alloc, &search.best, flags)?;
    search.rows.push(row)?;
    std::mem::swap(&mut search.candidates, &mut search.best);
    Ok(())
}

/// The blocks of whole blocks of targets along the cheapest of so many candidates.
pub fn search_blocks(
    alloc: Global,
    most: usize,
    loop_block: usize,
    targets: &[i16],
    looped: bool,
) -> Result<Vec<u8>, OutOfMemory>
    requires most { most ≤ MAX_CANDIDATES }
    requires whole { length targets.now % 16 ≡ 0 }
    requires few { length targets.now ≤ max_samples }
    ensures { IfOk result (λ blocks.
        blocks.items ≡ blocks_through most (length targets.now / 16) 0 loop_block looped (no_candidate ∷ []) (λ _. []) targets.now) }
{
    let mut search = open(alloc, most, targets.len() / 16)?;
    let mut index = 0;
    let mut rest = targets;
    'each: while let Some((block, tail)) = rest.split_first_chunk::<16>() {
        let count = header_count(stands_alone(index, loop_block));
        let flags = end_bits(tail.is_empty(), looped);
        pass_block(alloc, &mut search, most, block, count, flags)?;
        index += 1;
        rest = tail;
    }
    trace(alloc, search.rows)
}

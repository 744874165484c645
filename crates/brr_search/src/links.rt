// The blocks of candidates, each linked to the candidate that it goes on from.
ghost use Rattle.std.specs.Prelude.{◌≡◌, ◌≤◌, ◌<◌, ◌++◌, All, [], map, reverse, slice_get, vec_len, MatchOption, IfSome, IfOk};
ghost use Rattle.brr_search.specs.Links.{TakesFlags, link_of, blocks_along};

use crate::OutOfMemory;
use crate::candidate::Candidate;
use std::alloc::Global;

/// The block of a candidate, and the place of the candidate that it goes on from, among those that stayed after the block before.
#[derive(Clone, Copy)]
pub struct Link {
    pub start: u8,
    pub block: [u8; 9],
}

/// The links of the candidates that stayed after a block.
#[derive(Drop)]
pub struct Row {
    pub links: Vec<Link>,
}

/// The link of a candidate, whose header takes end and loop bits.
fn link_of(candidate: &Candidate, flags: u8) -> Link
    requires room { TakesFlags candidate.now }
    requires flags { flags ≤ 3 }
    ensures { result ≡ link_of flags candidate.now }
{
    let [a, b, c, d, e, f, g, h] = candidate.digits.to_be_bytes();
    Link {
        start: candidate.start,
        block: [candidate.header + flags, a, b, c, d, e, f, g, h],
    }
}

/// The links of candidates.
pub fn row_of(alloc: Global, candidates: &[Candidate], flags: u8) -> Result<Row, OutOfMemory>
    requires room { All TakesFlags candidates.now }
    requires flags { flags ≤ 3 }
    ensures { IfOk result (λ row. row.links.items ≡ map (link_of flags) candidates.now) }
{
    let mut links = Vec::with_capacity(alloc, candidates.len())?;
    'candidates: for candidate in candidates {
        links.push(link_of(candidate, flags))?;
    }
    Ok(Row { links })
}

/// The link at a place of a row.
fn link_at(row: &Row, place: usize) -> Option<Link>
    ensures { result ≡ slice_get row.now.links.items place }
{
    match row.links.get(place) {
        Some(link) => Some(*link),
        None => None,
    }
}

/// Takes the last row away, and gives its link at a place.
fn take_link(rows: &mut Vec<Row>, place: usize) -> Option<Link>
    ensures blocks { let here = blocks_along (reverse rows.old.items) place in let before = blocks_along (reverse rows.new.items) in
        MatchOption result (here ≡ []) (λ link. here ≡ before link.start ++ link.block) }
    ensures fewer { IfSome result (λ _. vec_len rows.new < vec_len rows.old) }
{
    match rows.pop() {
        Some(row) => link_at(&row, place),
        None => None,
    }
}

/// The blocks of the first candidate, with those before them.
pub fn trace(alloc: Global, mut rows: Vec<Row>) -> Result<Vec<u8>, OutOfMemory>
    ensures { IfOk result (λ blocks. blocks.items ≡ blocks_along (reverse rows.items) 0) }
{
    let mut blocks = Vec::new(alloc);
    let mut place = 0;
    'rows: while let Some(link) = take_link(&mut rows, place) {
        let mut block = link.block;
        block.reverse();
        blocks.extend_from_slice(&block)?;
        place = usize::from(link.start);
    }
    blocks.reverse();
    Ok(blocks)
}

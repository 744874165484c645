// The list of cuts that a text says.
ghost use Rattle.std.specs.Prelude.{◌≡◌, ◌+◌, ◌<◌, ◌≤◌, ◌∷◌, ◌++◌, [], Some, None, Ok, length, IfOk, IfErr, IfSome, OnOk, if◌then◌else◌};
ghost use Rattle.num_fix.specs.Limits.{max_frames};
ghost use Rattle.cut_form.specs.TextLines.{line_words};
ghost use Rattle.cut_form.specs.CutList.{max_cuts, cut_of_numbers, cut_of_words, cut_list};
ghost use Rattle.cut_form.specs.Slices.{cut_samples};
ghost use Rattle.cut_text.specs.Cuts.{EndWithinHour, next_cut, fits_after};
ghost use Rattle.cut_text.specs.Reading.{Reports, OneMore, IsWrongAfter, number_bound};

use crate::lines::{first_line, number_in};
use crate::{TextRefusal, add};
use cut_form::{Cut, MAX_FRAMES};
use std::alloc::Global;
use std::marker::Model;
use text_form::first_part;

/// The most cuts.
const MAX_CUTS: usize = 1000;

/// Up to 1,000 cuts. Each ends within an hour, and together they are an hour at most.
#[derive(Drop)]
pub struct CutList {
    cuts: Vec<Cut>,
    samples: u32,
}

impl Model for CutList {
    ghost use Rattle.std.specs.Prelude.{List};
    ghost use Rattle.cut_form.specs.declared.cut.Cut.{Cut};
    ghost use Rattle.cut_text.specs.Cuts.{IsListed};

    ghost Value = { List Cut };

    ghost view = { λ l. l.cuts.items };

    ghost invariant = { λ l. IsListed l.cuts.items l.samples };
}

impl CutList {
    /// No cuts.
    fn new(alloc: Global) -> CutList
        ensures { result ≡ [] }
    {
        CutList {
            cuts: Vec::new(alloc),
            samples: 0,
        }
    }

    /// The cuts in their order, each of which ends within an hour.
    pub fn as_slice(&self) -> &[Cut]
        ensures cuts { result.now ≡ self.now }
        ensures few { length result.now ≤ max_cuts }
        ensures within { EndWithinHour result.now }
    {
        self.cuts.as_slice()
    }

    /// How many frames the cuts have together, an hour at most.
    pub fn samples(&self) -> u32
        ensures samples { result ≡ cut_samples self.now }
        ensures few { result ≤ max_frames }
    {
        self.samples
    }

    /// Whether a cut may stand after those of the list.
    fn fits_after(&self, cut: Cut) -> bool
        requires start { cut.start < number_bound }
        requires count { cut.count < number_bound }
        ensures { result ≡ fits_after self.now cut }
    {
        cut.start + cut.count <= MAX_FRAMES
            && self.samples + cut.count <= MAX_FRAMES
            && self.cuts.len() < MAX_CUTS
    }

    /// Adds the cut of the next line.
    fn add_line(&mut self, line: &[u8]) -> Result<(), TextRefusal>
        ensures added { OnOk result (OneMore self.old self.new (next_cut self.old line.now)) }
        ensures wrong { IfErr result (λ refusal. IsWrongAfter self.old (next_cut self.old line.now) refusal) }
    {
        match cut_in(line) {
            Some(cut) if self.fits_after(cut) => {
                add(&mut self.cuts, cut)?;
                self.samples += cut.count;
                Ok(())
            }
            _ => Err(TextRefusal::Wrong(self.cuts.len() as u32 + 1)),
        }
    }
}

/// The cut of two numbers.
fn cut_of_numbers(start: Option<u32>, count: Option<u32>) -> Option<Cut>
    ensures { result ≡ cut_of_numbers start count }
{
    Some(Cut {
        start: start?,
        count: count?,
    })
}

/// The cut that a line says.
fn cut_in(line: &[u8]) -> Option<Cut>
    ensures cut { result ≡ cut_of_words (line_words line.now) }
    ensures start { IfSome result (λ cut. cut.start < number_bound) }
    ensures count { IfSome result (λ cut. cut.count < number_bound) }
{
    let (start, rest) = first_part(b' ', line);
    let (count, rest) = first_part(b' ', rest?);
    match rest {
        Some(_) => None,
        None => cut_of_numbers(number_in(start), number_in(count)),
    }
}

/// Reads the cuts that a text lists, one a line: the first sample and, after one space, how many frames.
pub fn read_cuts(alloc: Global, text: &[u8]) -> Result<CutList, TextRefusal>
    ensures cuts { IfOk result (λ cuts. cut_list text.now ≡ Ok cuts) }
    ensures wrong { IfErr result (λ refusal. Reports refusal (cut_list text.now)) }
{
    let mut list = CutList::new(alloc);
    let mut rest = text;
    'lines: while let Some((line, after)) = first_line(rest) {
        list.add_line(line)?;
        rest = after;
    }
    Ok(list)
}

//! The table and the interpolation.

ghost use Rattle.std.specs.Prelude.{◌≡◌, ◌<◌, ◌⊎◌, IfOk, IfErr, MatchOption};
ghost use Rattle.gauss_table.specs.Factors.{AreFractions, AreFactors};
ghost use Rattle.gauss_table.specs.Inside.{AreItsFactors};
ghost use Rattle.gauss_table.specs.Interpolation.{mix};
ghost use Rattle.gauss_table.specs.Quads.{AreQuads};
ghost use Rattle.gauss_table.specs.StraightTable.{straight_table, straight_weight};
ghost use Rattle.gauss_table.specs.Weights.{weights_in};

use crate::factors::{Factors, are_fractions, factors_of};
use crate::quad::{Quad, quads_of};
use crate::taps::Taps;
use crate::{OutOfMemory, TableRefusal};
use byteorder::{ByteOrder, LittleEndian};
use std::alloc::Global;
use std::marker::Model;

/// 512 signed weights. A voice takes four of them at each sample, by the place of its position
/// between two of its samples (Anomie's S-DSP Doc, "Gaussian Interpolation").
#[derive(Drop)]
pub struct GaussTable {
    weights: Box<[i16; 512]>,
    /// The four weights of each place, side by side.
    quads: Box<[Quad; 256]>,
    /// Their factors, where each weight is from 0 to 2,047.
    factors: Option<Box<[Factors; 256]>>,
}

impl Model for GaussTable {
    ghost use Rattle.std.specs.Prelude.{List, ℤ};
    ghost use Rattle.gauss_table.specs.Inside.{IsTable};

    ghost Value = { List ℤ };

    ghost view = { λ t. t.weights.value };

    ghost invariant = { IsTable };
}

/// Entry `i` of the table of straight lines.
fn straight_weight(i: u16) -> i16
    requires { i < 512 }
    ensures { result ≡ straight_weight i }
{
    if i < 256 {
        0
    } else {
        (8 * (i - 256) + 4) as i16
    }
}

/// The factors of these weights, where each weight is from 0 to 2,047.
fn kept_factors(
    alloc: Global,
    weights: &[i16; 512],
) -> Result<Option<Box<[Factors; 256]>>, OutOfMemory>
    ensures { IfOk result (λ factors. AreItsFactors weights.now factors) }
{
    if !are_fractions(weights) {
        return Ok(None);
    }
    Ok(Some(Box::new(alloc, factors_of(weights))?))
}

impl GaussTable {
    /// The table of these weights.
    fn from_weights(alloc: Global, weights: [i16; 512]) -> Result<GaussTable, OutOfMemory>
        ensures { IfOk result (λ table. table ≡ weights) }
    {
        let quads = quads_of(&weights);
        let factors = kept_factors(alloc, &weights)?;
        let weights = Box::new(alloc, weights)?;
        let quads = Box::new(alloc, quads)?;
        Ok(GaussTable {
            weights,
            quads,
            factors,
        })
    }

    /// Reads a table of 1,024 bytes: 512 numbers, the low byte of each first.
    pub fn read(alloc: Global, bytes: &[u8]) -> Result<GaussTable, TableRefusal>
        ensures table { IfOk result (λ table. weights_in bytes.now ≡ Ok table) }
        ensures refused { IfErr (weights_in bytes.now) (λ refusal. result ≡ Err refusal) }
        ensures causes { IfErr result (λ refusal. (weights_in bytes.now ≡ Err refusal) ⊎ (refusal ≡ TableRefusal.OutOfMemory)) }
    {
        if bytes.len() != 1024 {
            return Err(TableRefusal::Length(bytes.len()));
        }
        let mut weights = [0; 512];
        LittleEndian::read_i16_into(bytes, &mut weights);
        Ok(GaussTable::from_weights(alloc, weights)?)
    }

    /// The table of straight lines: entry i is 0 for i below 256, and entry 256 + j is 8j + 4.
    pub fn straight(alloc: Global) -> Result<GaussTable, OutOfMemory>
        ensures { IfOk result (λ table. table ≡ straight_table) }
    {
        let mut weights = [0; 512];
        for i in 0..512u16 {
            weights[usize::from(i)] = straight_weight(i);
        }
        GaussTable::from_weights(alloc, weights)
    }

    /// The weights of all places between two samples.
    pub fn quads(&self) -> &[Quad; 256]
        ensures { AreQuads self.now result.now }
    {
        &self.quads
    }

    /// The factors of the weights of all places, where each weight is from 0 to 2,047.
    pub fn factors(&self) -> Option<&[Factors; 256]>
        ensures { MatchOption result (¬ AreFractions self.now) (λ factors. AreFactors self.now factors.now) }
    {
        self.factors.as_deref()
    }

    /// The interpolation of four samples, oldest first, at place `i` of 256 between the middle two.
    pub fn mix(&self, i: u8, x0: i16, x1: i16, x2: i16, x3: i16) -> i16
        ensures { result ≡ mix self.now i x0 x1 x2 x3 }
    {
        Taps::at(self.quads(), i, x0, x1, x2, x3).mixed()
    }
}

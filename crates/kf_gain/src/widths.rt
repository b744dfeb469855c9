ghost use Rattle.std.specs.Prelude.{◌≡◌, ◌≤◌, ◌<◌, ◌*◌, ◌^◌, ◌↔◌, ℕ, max, map, IfOk, OnOk, IsErrOf, IsTrue, unsigned_abs};
ghost use Rattle.kf_frac.specs.Fractions.{limit};
ghost use Rattle.kf_hyper.specs.Views.{inners_of, scale_of};
ghost use Rattle.kf_gain.specs.Gains.{Table};
ghost use Rattle.kf_gain.specs.Vulnerabilities.{IsWidth, greatest, gains_of, width as width_of};
ghost use Rattle.kf_gain.specs.Views.{gain_tree, table_tree};

use crate::{Gain, GainEntry, GainFault, GainTable};
use kf_hyper::Hyper;
use kf_value::Mem;
use std::alloc::Global;

/// The greatest number that a fraction's part may be.
const LIMIT: u128 = i128::MAX as u128;

// The greatest of `most` and the absolute values of the gains.
fn greatest_of(most: u128, gains: &[GainEntry]) -> u128
    ensures { result ≡ max most (greatest (map (λ e. e.gain) gains.now)) }
{
    let mut most = most;
    for entry in gains {
        most = most.max(entry.gain.unsigned_abs());
    }
    most
}

// The greatest absolute value of a table's gains.
fn greatest_gain(table: &GainTable) -> u128
    ensures { result ≡ greatest (gains_of (table_tree table.now)) }
{
    let mut most = table.rest.unsigned_abs();
    for action in table.actions.as_slice() {
        most = greatest_of(most, action.gains.as_slice());
    }
    most
}

fn table_width(table: &GainTable) -> u128
    ensures { result ≡ width_of (Table (table_tree table.now)) 0 }
{
    table.over.max(2 * greatest_gain(table))
}

// The width of a gain on a hyper.
fn width(alloc: Global, h: &Hyper, g: &Gain) -> Result<u128, Mem>
    ensures { IfOk result (IsWidth (gain_tree g.now) (inners_of h.now)) }
{
    h.has_shape();
    match g {
        Gain::Bayes => Ok(1),
        Gain::Tries(_) => Ok(1),
        Gain::Guessing => {
            let average = h.average(alloc)?;
            Ok(average.entries().as_slice().len() as u128)
        }
        Gain::Table(table) => Ok(table_width(table)),
    }
}

// Whether the product is at most the limit.
fn within(scale: u128, width: u128) -> bool
    ensures { IsTrue result ↔ (scale * width ≤ limit) }
{
    match scale.checked_mul(width) {
        Some(product) => product <= LIMIT,
        None => false,
    }
}

/// `Wide` exactly where the scale times the gain's width passes 2^127 - 1.
pub fn guarded(alloc: Global, h: &Hyper, g: &Gain) -> Result<(), GainFault>
    ensures narrow { OnOk result ((m : ℕ) × IsWidth (gain_tree g.now) (inners_of h.now) m × (scale_of h.now * m ≤ limit)) }
    ensures wide { IsErrOf result GainFault.Wide → (m : ℕ) × IsWidth (gain_tree g.now) (inners_of h.now) m × (limit < scale_of h.now * m) }
{
    let width = width(alloc, h, g)?;
    if !within(h.scale(), width) {
        return Err(GainFault::Wide);
    }
    Ok(())
}

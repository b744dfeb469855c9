//! The Bayes capacity of a grid.

ghost use Rattle.std.specs.Prelude.{◌≡◌, ◌<◌, ◌≤◌, ◌↔◌, IfOk, IsErr, SomeIff, pos, sum_by};
ghost use Rattle.kf_frac.specs.Fractions.{limit};
ghost use Rattle.kf_frac.specs.Parts.{IsFraction};
ghost use Rattle.kf_capacity.specs.Grids.{capacity_of};
ghost use Rattle.kf_capacity.specs.Views.{grid_tree};
ghost use Rattle.kf_capacity.specs.Vulnerabilities.{greatest as greatest_of};

use crate::column::GridColumn;
use crate::pair_sums::sum_of_pairs;
use crate::{Grid, LIMIT};
use kf_frac::{Frac, Wide, make};

// The greatest of some numbers; 0 of none.
fn greatest(numbers: &[u128]) -> u128
    ensures { result ≡ greatest_of numbers.now }
{
    let mut most = 0;
    for n in numbers {
        most = most.max(*n);
    }
    most
}

// The sum of the columns' greatest numbers, unless it passes the limit.
fn sum_of_greatest(columns: &[GridColumn]) -> Option<u128>
    ensures { SomeIff result (sum_by greatest_of columns.now ≤ limit) (sum_by greatest_of columns.now) }
{
    let mut sum: u128 = 0;
    for column in columns {
        let most = greatest(column.as_slice());
        match sum.checked_add(most) {
            Some(more) if more <= LIMIT => sum = more,
            _ => return None,
        }
    }
    Some(sum)
}

// The sum of the greatest numbers of all columns, unless it passes the limit.
fn sum_of_all(g: &Grid) -> Option<u128>
    ensures { SomeIff result (capacity_of (grid_tree g.now) ≤ limit) (capacity_of (grid_tree g.now)) }
{
    match &g.others {
        Some(others) => sum_of_pairs(g.columns.as_slice(), others.as_slice()),
        None => sum_of_greatest(g.columns.as_slice()),
    }
}

/// The Bayes capacity of a grid: by how much a look at its columns can multiply the vulnerability of the secrets at most, whatever their
/// distribution and the gain (Alvim et al. 2020). It is the sum of the columns' greatest cells, over the denominator.
///
/// `Wide` exactly where that sum passes 2^127 - 1.
pub fn capacity(g: &Grid) -> Result<Frac, Wide>
    ensures is { IfOk result (λ f. IsFraction f (pos (capacity_of (grid_tree g.now))) (grid_tree g.now).over) }
    ensures wide { IsErr result ↔ (limit < capacity_of (grid_tree g.now)) }
{
    let sum = sum_of_all(g).ok_or(Wide)?;
    make(sum as i128, g.over)
}

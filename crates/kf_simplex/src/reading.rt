ghost use Rattle.std.specs.Prelude.{◌≡◌, ◌≢◌, ℕ, ◌+◌, ◌*◌, ◌<◌, ◌≤◌, ◌*ℤ◌, ◌<ℤ◌, pos, slice_index, IfOk};
ghost use Rattle.kf_frac.specs.Views.{num_of, den_of};
ghost use Rattle.kf_simplex.specs.Answers.{AreMultipliersOf, IsSolutionOf};
ghost use Rattle.kf_simplex.specs.Cells.{AllNarrow, IsNarrowNumber};
ghost use Rattle.kf_simplex.specs.Flat.{cell, tableau_of};
ghost use Rattle.kf_simplex.specs.Turns.{sizes};

use crate::row::number_at;
use crate::table::Table;
use crate::{FracList, NumberList};
use kf_frac::{Frac, make};
use std::alloc::{AllocError, Global};

impl Table {
    // A basic unknown is its row's right side over its entry there; another is 0.
    pub(crate) fn solution(&self, alloc: Global) -> Result<FracList, AllocError>
        requires narrow { (i : ℕ) → AllNarrow (cell self.now.rows.items i) }
        requires positive { (i : ℕ) → i < self.now.equations → slice_index self.now.basis.items i < self.now.unknowns
            → pos 0 <ℤ cell self.now.rows.items i (slice_index self.now.basis.items i) }
        requires distinct { (i k : ℕ) → i < k → k < self.now.equations → slice_index self.now.basis.items k ≢ slice_index self.now.basis.items i }
        ensures { let s = sizes self.now.unknowns self.now.equations in
            IfOk result (λ xs. IsSolutionOf s (tableau_of s (cell self.now.rows.items) self.now.basis.items) xs) }
    {
        let zero = quotient(0, 1);
        let mut values = Vec::with_capacity(alloc, self.unknowns)?;
        for _j in 0..self.unknowns {
            values.push(zero)?;
        }
        for i in 0..self.equations {
            let column = self.basis[i];
            if column < self.unknowns {
                let right = self.cell(i, self.unknowns + self.equations);
                values[column] = quotient(right, self.cell(i, column));
            }
        }
        Ok(FracList::new(values))
    }

    // The number in a row of an equation, or in the objective row below them.
    fn cell(&self, row: usize, column: usize) -> i128
        requires row { row ≤ self.now.equations }
        ensures { result ≡ cell self.now.rows.items row column }
    {
        number_at(&self.rows[row], column)
    }

    // The objective row's entries at the artificial columns.
    pub(crate) fn multipliers(&self, alloc: Global) -> Result<NumberList, AllocError>
        requires { (i : ℕ) → AllNarrow (cell self.now.rows.items i) }
        ensures { let s = sizes self.now.unknowns self.now.equations in
            IfOk result (λ ys. AreMultipliersOf s (tableau_of s (cell self.now.rows.items) self.now.basis.items) ys) }
    {
        let mut numbers = Vec::with_capacity(alloc, self.equations)?;
        for k in 0..self.equations {
            numbers.push(self.cell(self.equations, self.unknowns + k) as i64)?;
        }
        Ok(NumberList::new(numbers))
    }
}

// `num / den`, of narrow numbers.
fn quotient(num: i128, den: i128) -> Frac
    requires positive { pos 0 <ℤ den }
    requires num { IsNarrowNumber num }
    requires den { IsNarrowNumber den }
    ensures { num_of result *ℤ den ≡ num *ℤ pos (den_of result) }
{
    make(num, den as u128).unwrap()
}

ghost use Rattle.std.specs.Prelude.{◌≡◌, ◌*◌, ◌<◌, ◌^◌, All, [], length, slice_index, slice_index_or, unwrap_or};
ghost use Rattle.std.proofs.Props.{props};
ghost use Rattle.kf_capacity.specs.Composing.{ProductsFit, columns_with};
ghost use Rattle.kf_capacity.specs.Shapes.{IsGrid};

use crate::column::{GridColumn, GridColumnList};

/// A grid with its columns one by one.
#[derive(Drop)]
pub(crate) struct ListedGrid {
    pub(crate) over: u128,
    pub(crate) rows: usize,
    pub(crate) columns: GridColumnList,
    pub ghost grid: { IsGrid (record { over = over; rows = rows; columns = columns }) } by { Prim.hlevel props },
}

/// A channel matrix in whole numbers over one denominator: the numbers of each secret sum to the denominator, and a column may be
/// all 0.
#[derive(Drop)]
pub struct Grid {
    pub(crate) over: u128,
    pub(crate) rows: usize,
    pub(crate) columns: GridColumnList,
    // where there are others, a column is the products of one of `columns` with one of these, and none is made;
    // `counted`: so many columns fit a `usize`; `fit`: no product passes the limit
    pub(crate) others: Option<GridColumnList>,
    pub ghost grid: { IsGrid (record { over = over; rows = rows; columns = columns_with columns others }) } by { Prim.hlevel props },
    pub ghost counted: { length columns * length (unwrap_or others []) < 2 ^ 64 } by { Prim.hlevel props },
    pub ghost fit: { All (λ column. All (λ other. ProductsFit column other) (unwrap_or others [])) columns } by { Prim.hlevel props },
}

impl ListedGrid {
    ghost use Rattle.std.specs.Prelude.{◌≡◌};
    ghost use Rattle.kf_capacity.specs.Views.{grid_tree, listed_tree};

    pub(crate) fn into_grid(self) -> Grid
        ensures { grid_tree result ≡ listed_tree self }
    {
        Grid {
            over: self.over,
            rows: self.rows,
            columns: self.columns,
            others: None,
        }
    }
}

impl Grid {
    ghost use Rattle.std.specs.Prelude.{◌≡◌, ◌<◌, ◌≤◌, length, slice_index, slice_index_or, [], ◌∷◌};
    ghost use Rattle.kf_frac.specs.Fractions.{limit};
    ghost use Rattle.kf_capacity.specs.Views.{grid_tree};

    /// The denominator, 1 to 2^127 - 1.
    pub fn over(&self) -> u128
        ensures is { result ≡ (grid_tree self.now).over }
        ensures some { 1 ≤ result }
        ensures narrow { result ≤ limit }
    {
        self.over
    }

    /// How many secrets there are.
    pub fn rows(&self) -> usize
        ensures { result ≡ (grid_tree self.now).rows }
    {
        self.rows
    }

    /// How many columns there are.
    pub fn columns(&self) -> usize
        ensures { result ≡ length (grid_tree self.now).columns }
    {
        match &self.others {
            Some(others) => self.columns.as_slice().len() * others.as_slice().len(),
            None => self.columns.as_slice().len(),
        }
    }

    /// The number of the secret `i` in the column `j`, both from 0.
    pub fn cell(&self, i: usize, j: usize) -> u128
        requires secret { i < (grid_tree self.now).rows }
        requires column { j < length (grid_tree self.now).columns }
        ensures { result ≡ slice_index (slice_index_or (grid_tree self.now).columns j []) i }
    {
        let columns = self.columns.as_slice();
        match &self.others {
            Some(others) => {
                let others = others.as_slice();
                let many = others.len();
                number_at(columns, j / many, i) * number_at(others, j % many, i)
            }
            None => number_at(columns, j, i),
        }
    }
}

// The number of the secret `i` in the column `j`.
fn number_at(columns: &[GridColumn], j: usize, i: usize) -> u128
    requires column { j < length columns.now }
    requires secret { i < length (slice_index_or columns.now j []) }
    ensures { result ≡ slice_index (slice_index_or columns.now j []) i }
{
    columns[j].as_slice()[i]
}

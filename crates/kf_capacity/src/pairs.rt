//! Two channels side by side.

ghost use Rattle.std.specs.Prelude.{◌≡◌, ◌≢◌, ◌*◌, ◌<◌, ◌≤◌, ◌^◌, length, min, Ok, Err, IfOk, IfErr};
ghost use Rattle.kf_frac.specs.Fractions.{limit};
ghost use Rattle.kf_capacity.specs.declared.error.ParallelFault.TheVariants as fault;
ghost use Rattle.kf_capacity.specs.Composing.{parallel_fault};
ghost use Rattle.kf_capacity.specs.Compositions.{IsParallel, parallel_grid};
ghost use Rattle.kf_capacity.specs.Views.{channel_tree, grid_tree, listed_tree};

use crate::channel_grid::listed_grid;
use crate::grid::ListedGrid;
use crate::product::product;
use crate::secrets::same_secrets;
use crate::{Grid, GridFault, LIMIT, ParallelFault, grid_laws};
use kf_channel::Channel;
use kf_value::same_target;
use std::alloc::Global;

/// The most cells that a composed channel may have.
const MOST_CELLS: u128 = 4_000_000;

impl From<GridFault> for ParallelFault {
    ghost use Rattle.kf_capacity.specs.Composing.{BecomesParallel};

    ghost from_gives = { λ found e. BecomesParallel found e };

    fn from(found: GridFault) -> Self {
        match found {
            GridFault::Wide => ParallelFault::Wide,
            GridFault::Mem => ParallelFault::Mem,
        }
    }
}

/// Two channels about the same secrets, of which both traces are seen, each drawn on its own (Alvim et al. 2020, parallel composition).
/// Each column of the first stands with each of the second, and the first one's are counted more slowly.
///
/// Where targets or secrets differ, or there are too many cells, that comes before `Wide`, which comes where the product of the two
/// denominators passes 2^127 - 1.
pub fn parallel(alloc: Global, c: &Channel, d: &Channel) -> Result<Grid, ParallelFault>
    ensures is { IfOk result (λ g. IsParallel (channel_tree c.now) (channel_tree d.now) (Ok (grid_tree g))) }
    ensures err { IfErr result (λ e. e ≢ fault.Mem → IsParallel (channel_tree c.now) (channel_tree d.now) (Err (parallel_fault e))) }
{
    if !same_target(c.target(), d.target()) {
        return Err(ParallelFault::Targets);
    }
    if !same_secrets(c, d) {
        return Err(ParallelFault::Rows);
    }
    let count = count_cells(c.rows(), c.columns(), d.columns());
    if count > MOST_CELLS {
        return Err(ParallelFault::Cells { count });
    }
    let g = listed_grid(alloc, c)?;
    let h = listed_grid(alloc, d)?;
    let grid = both_seen(g, h)?;
    Ok(grid)
}

// The grid of two channels side by side, whose columns aren't made.
fn both_seen(g: ListedGrid, h: ListedGrid) -> Result<Grid, ParallelFault>
    requires rows { g.rows ≡ h.rows }
    requires few { length g.columns * length h.columns < 2 ^ 64 }
    ensures is { IfOk result (λ both. grid_tree both ≡ parallel_grid (listed_tree g) (listed_tree h)) }
    ensures narrow { IfOk result (λ both. both.over ≤ limit) }
    ensures err { IfErr result (λ e. (e ≡ fault.Wide) × (limit < g.over * h.over)) }
{
    let Some(over) = product(g.over, h.over) else {
        return Err(ParallelFault::Wide);
    };
    grid_laws();
    Ok(Grid {
        over,
        rows: g.rows,
        columns: g.columns,
        others: Some(h.columns),
    })
}

// How many cells there are for so many secrets and columns, or 2^127 - 1 where there are more than that.
fn count_cells(rows: usize, columns: usize, others: usize) -> u128
    ensures { result ≡ min limit (rows * columns * others) }
{
    match (rows as u128 * columns as u128).checked_mul(others as u128) {
        Some(cells) => cells.min(LIMIT),
        None => LIMIT,
    }
}

//! The grid of a channel.

ghost use Rattle.std.specs.Prelude.{◌≡◌, ◌<◌, ◌≤◌, ◌↔◌, map, Ok, Err, IfOk};
ghost use Rattle.kf_channel.specs.Views.{rows_of, secrets_of};
ghost use Rattle.kf_frac.specs.Fractions.{limit};
ghost use Rattle.kf_capacity.specs.declared.error.GridFault.TheVariants as fault;
ghost use Rattle.kf_capacity.specs.Divided.{divided};
ghost use Rattle.kf_capacity.specs.Grids.{channel_grid, denominator};
ghost use Rattle.kf_capacity.specs.Views.{IsGridOf, channel_tree, grid_tree, listed_tree};

use crate::divided::{DividedSecret, divided_secrets};
use crate::grid::ListedGrid;
use crate::multiples::{denominator_of, multiple_of};
use crate::scales::{scaled_columns, scales};
use crate::{Grid, GridFault};
use kf_channel::{Channel, rows_sum_to_one};
use kf_value::Mem;
use std::alloc::Global;

/// A channel in whole numbers over the least common denominator of its cells.
///
/// `Wide` exactly where that denominator passes 2^127 - 1.
pub fn grid_of(alloc: Global, c: &Channel) -> Result<Grid, GridFault>
    ensures is { IfOk result (λ g. IsGridOf (channel_tree c.now) (Ok (grid_tree g))) }
    ensures wide { (result ≡ Err fault.Wide) ↔ (limit < denominator (channel_tree c.now)) }
{
    match listed_grid(alloc, c) {
        Ok(grid) => Ok(grid.into_grid()),
        Err(found) => Err(found),
    }
}

/// The same with its columns one by one.
pub(crate) fn listed_grid(alloc: Global, c: &Channel) -> Result<ListedGrid, GridFault>
    ensures is { IfOk result (λ g. IsGridOf (channel_tree c.now) (Ok (listed_tree g))) }
    ensures wide { (result ≡ Err fault.Wide) ↔ (limit < denominator (channel_tree c.now)) }
{
    match divided_secrets(alloc, c) {
        Ok(secrets) => divided_grid(alloc, c, secrets.as_slice()),
        Err(_) => Err(fault_by_cells(c)),
    }
}

// Why a channel has no grid where there is no memory for its secrets: the denominator is found cell by cell.
fn fault_by_cells(c: &Channel) -> GridFault
    ensures { (result ≡ fault.Wide) ↔ (limit < denominator (channel_tree c.now)) }
{
    match denominator_of(c) {
        Some(_) => GridFault::Mem,
        None => GridFault::Wide,
    }
}

// The grid of a channel with these secrets.
fn divided_grid(
    alloc: Global,
    c: &Channel,
    secrets: &[DividedSecret],
) -> Result<ListedGrid, GridFault>
    requires { secrets.now ≡ map (divided (rows_of c.now)) (secrets_of c.now) }
    ensures is { IfOk result (λ g. IsGridOf (channel_tree c.now) (Ok (listed_tree g))) }
    ensures wide { (result ≡ Err fault.Wide) ↔ (limit < denominator (channel_tree c.now)) }
{
    let Some(over) = multiple_of(secrets) else {
        return Err(GridFault::Wide);
    };
    match grid_over(alloc, c, secrets, over) {
        Ok(grid) => Ok(grid),
        Err(_) => Err(GridFault::Mem),
    }
}

// The grid over this denominator.
fn grid_over(
    alloc: Global,
    c: &Channel,
    secrets: &[DividedSecret],
    over: u128,
) -> Result<ListedGrid, Mem>
    requires secrets { secrets.now ≡ map (divided (rows_of c.now)) (secrets_of c.now) }
    requires over { over ≡ denominator (channel_tree c.now) }
    requires narrow { over ≤ limit }
    ensures { IfOk result (λ g. listed_tree g ≡ channel_grid (channel_tree c.now)) }
{
    let scales = scales(alloc, secrets, over)?;
    let columns = scaled_columns(alloc, scales.as_slice(), c.traces())?;
    // so the numbers of each secret sum to `over`
    rows_sum_to_one();
    Ok(ListedGrid {
        over,
        rows: c.rows(),
        columns,
    })
}

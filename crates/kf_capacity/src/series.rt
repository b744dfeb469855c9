//! One channel behind another.

ghost use Rattle.std.specs.Prelude.{◌≡◌, ◌≢◌, ◌*◌, ◌<◌, ◌≤◌, ℕ, All, map, length, Ok, Err, IfOk, IfErr};
ghost use Rattle.std.specs.List.{range_with_len};
ghost use Rattle.kf_frac.specs.Fractions.{limit};
ghost use Rattle.kf_capacity.specs.declared.error.CascadeFault.TheVariants as fault;
ghost use Rattle.kf_capacity.specs.Composing.{cascade_fault};
ghost use Rattle.kf_capacity.specs.Compositions.{IsCascade, cascade_grid, through};
ghost use Rattle.kf_capacity.specs.Views.{channel_tree, grid_tree, listed_tree};

use crate::channel_grid::listed_grid;
use crate::column::{GridColumn, GridColumnList};
use crate::grid::ListedGrid;
use crate::places::trace_places;
use crate::product::{product, short_product};
use crate::{CascadeFault, Grid, GridFault, grid_laws};
use kf_channel::Channel;
use kf_value::Mem;
use std::alloc::Global;

impl From<GridFault> for CascadeFault {
    ghost use Rattle.kf_capacity.specs.Composing.{BecomesCascade};

    ghost from_gives = { λ found e. BecomesCascade found e };

    fn from(found: GridFault) -> Self {
        match found {
            GridFault::Wide => CascadeFault::Wide,
            GridFault::Mem => CascadeFault::Mem,
        }
    }
}

/// The first channel, and what it shows as the secret of the second one: the product of the two matrices (Alvim et al. 2020, cascades).
///
/// `Fit` exactly where some trace of the first isn't the values of a secret of the second; else `Wide` where the product of the two
/// denominators passes 2^127 - 1.
pub fn cascade(alloc: Global, c: &Channel, d: &Channel) -> Result<Grid, CascadeFault>
    ensures is { IfOk result (λ g. IsCascade (channel_tree c.now) (channel_tree d.now) (Ok (grid_tree g))) }
    ensures err { IfErr result (λ e. e ≢ fault.Mem → IsCascade (channel_tree c.now) (channel_tree d.now) (Err (cascade_fault e))) }
{
    let Some(places) = trace_places(alloc, c, d)? else {
        return Err(CascadeFault::Fit);
    };
    let g = listed_grid(alloc, c)?;
    let h = listed_grid(alloc, d)?;
    let grid = one_behind(alloc, &g, places.as_slice(), &h)?;
    Ok(grid.into_grid())
}

// The grid of the second channel behind the first, whose columns are the secrets at these places.
fn one_behind(
    alloc: Global,
    g: &ListedGrid,
    places: &[usize],
    h: &ListedGrid,
) -> Result<ListedGrid, CascadeFault>
    requires many { length places.now ≡ length g.now.columns }
    requires within { All (λ place. place < h.now.rows) places.now }
    ensures is { IfOk result (λ made. listed_tree made ≡ cascade_grid (listed_tree g.now) places.now (listed_tree h.now)) }
    ensures narrow { IfOk result (λ made. made.over ≤ limit) }
    ensures err { IfErr result (λ e. e ≢ fault.Mem → (e ≡ fault.Wide) × (limit < g.now.over * h.now.over)) }
{
    let Some(over) = product(g.over, h.over) else {
        return Err(CascadeFault::Wide);
    };
    let columns = columns_behind(alloc, g, places, h)?;
    grid_laws();
    Ok(ListedGrid {
        over,
        rows: g.rows,
        columns,
    })
}

// The columns of the second grid behind the first one's columns.
fn columns_behind(
    alloc: Global,
    g: &ListedGrid,
    places: &[usize],
    h: &ListedGrid,
) -> Result<GridColumnList, Mem>
    requires many { length places.now ≡ length g.now.columns }
    requires within { All (λ place. place < h.now.rows) places.now }
    requires narrow { g.now.over * h.now.over ≤ limit }
    ensures { IfOk result (λ made. made ≡ map (λ column. map (through g.now.columns places.now column) (range_with_len 0 g.now.rows)) h.now.columns) }
{
    let columns = g.columns.as_slice();
    let mut made = Vec::new(alloc);
    for column in h.columns.as_slice() {
        made.push(column_behind(alloc, g.rows, columns, places, column.as_slice())?)?;
    }
    Ok(GridColumnList::new(made))
}

// A column of the second grid behind the first one's columns.
fn column_behind(
    alloc: Global,
    rows: usize,
    columns: &[GridColumn],
    places: &[usize],
    column: &[u128],
) -> Result<GridColumn, Mem>
    requires long { All (λ first. length first ≡ rows) columns.now }
    requires within { All (λ place. place < length column.now) places.now }
    requires fits { (i : ℕ) → i < rows → through columns.now places.now column.now i ≤ limit }
    ensures { IfOk result (λ made. made ≡ map (through columns.now places.now column.now) (range_with_len 0 rows)) }
{
    let mut items = Vec::new(alloc);
    for i in 0..rows {
        items.push(number_behind(columns, places, column, i))?;
    }
    Ok(GridColumn::new(items))
}

// The number of one secret in it.
fn number_behind(columns: &[GridColumn], places: &[usize], column: &[u128], i: usize) -> u128
    requires long { All (λ first. i < length first) columns.now }
    requires within { All (λ place. place < length column.now) places.now }
    requires fits { through columns.now places.now column.now i ≤ limit }
    ensures { result ≡ through columns.now places.now column.now i }
{
    let mut sum = 0;
    for (first, place) in columns.iter().zip(places) {
        sum += short_product(first.as_slice()[i], column[*place]);
    }
    sum
}

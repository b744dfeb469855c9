//! One channel or another.

ghost use Rattle.std.specs.Prelude.{◌≡◌, ◌≢◌, ◌++◌, ◌<◌, ◌≤◌, All, map, Ok, Err, IfOk, IfErr, OnOk};
ghost use Rattle.kf_frac.specs.Fractions.{limit};
ghost use Rattle.kf_capacity.specs.declared.error.ChoiceFault.TheVariants as fault;
ghost use Rattle.kf_capacity.specs.Composing.{TimesFit};
ghost use Rattle.kf_capacity.specs.Composing.{choice_fault};
ghost use Rattle.kf_capacity.specs.Compositions.{IsChoice, choice_grid, times};
ghost use Rattle.kf_capacity.specs.Views.{channel_tree, grid_tree, listed_tree};

use crate::channel_grid::listed_grid;
use crate::column::{GridColumn, GridColumnList};
use crate::grid::ListedGrid;
use crate::product::product;
use crate::secrets::same_secrets;
use crate::{ChoiceFault, Grid, GridFault, grid_laws};
use kf_channel::Channel;
use kf_frac::lcm;
use kf_value::{Mem, same_target};
use std::alloc::Global;

impl From<GridFault> for ChoiceFault {
    ghost use Rattle.kf_capacity.specs.Composing.{BecomesChoice};

    ghost from_gives = { λ found e. BecomesChoice found e };

    fn from(found: GridFault) -> Self {
        match found {
            GridFault::Wide => ChoiceFault::Wide,
            GridFault::Mem => ChoiceFault::Mem,
        }
    }
}

/// With probability `num / den` the first channel, else the second one, and it is seen which (Alvim et al. 2020, visible choice). The
/// first one's columns stand before the second one's.
///
/// Where targets or secrets differ, that comes before `Wide`, which comes where the least common multiple of the two denominators, times
/// `den`, passes 2^127 - 1.
pub fn choice(
    alloc: Global,
    c: &Channel,
    d: &Channel,
    num: u32,
    den: u32,
) -> Result<Grid, ChoiceFault>
    requires some { 0 < num }
    requires part { num < den }
    ensures is { IfOk result (λ g. IsChoice num den (channel_tree c.now) (channel_tree d.now) (Ok (grid_tree g))) }
    ensures err { IfErr result (λ e. e ≢ fault.Mem → IsChoice num den (channel_tree c.now) (channel_tree d.now) (Err (choice_fault e))) }
{
    if !same_target(c.target(), d.target()) {
        return Err(ChoiceFault::Targets);
    }
    if !same_secrets(c, d) {
        return Err(ChoiceFault::Rows);
    }
    let g = listed_grid(alloc, c)?;
    let h = listed_grid(alloc, d)?;
    let grid = one_seen(alloc, &g, &h, num, den)?;
    Ok(grid.into_grid())
}

// The grid of the first channel with probability `num / den`, else of the second one.
fn one_seen(
    alloc: Global,
    g: &ListedGrid,
    h: &ListedGrid,
    num: u32,
    den: u32,
) -> Result<ListedGrid, ChoiceFault>
    requires rows { g.now.rows ≡ h.now.rows }
    requires part { num < den }
    ensures is { IfOk result (λ either. listed_tree either ≡ choice_grid num den (listed_tree g.now) (listed_tree h.now)) }
    ensures narrow { IfOk result (λ either. either.over ≤ limit) }
    ensures err { IfErr result (λ e. e ≢ fault.Mem → (e ≡ fault.Wide) × (limit < (choice_grid num den (listed_tree g.now) (listed_tree h.now)).over)) }
{
    let Some(common) = lcm(g.over, h.over) else {
        return Err(ChoiceFault::Wide);
    };
    let Some(over) = product(common, u128::from(den)) else {
        return Err(ChoiceFault::Wide);
    };
    let mut columns = Vec::new(alloc);
    let first = common / g.over * u128::from(num);
    push_times(alloc, g.columns.as_slice(), first, &mut columns)?;
    let second = common / h.over * u128::from(den - num);
    push_times(alloc, h.columns.as_slice(), second, &mut columns)?;
    grid_laws();
    Ok(ListedGrid {
        over,
        rows: g.rows,
        columns: GridColumnList::new(columns),
    })
}

// Adds the columns, each times the factor.
fn push_times(
    alloc: Global,
    columns: &[GridColumn],
    factor: u128,
    made: &mut Vec<GridColumn>,
) -> Result<(), Mem>
    requires { All (TimesFit factor) columns.now }
    ensures { OnOk result (made.new.items ≡ made.old.items ++ map (times factor) columns.now) }
{
    for column in columns {
        made.push(scaled(alloc, column.as_slice(), factor)?)?;
    }
    Ok(())
}

// A column times a number.
fn scaled(alloc: Global, column: &[u128], factor: u128) -> Result<GridColumn, Mem>
    requires { TimesFit factor column.now }
    ensures { IfOk result (λ made. made ≡ times factor column.now) }
{
    let mut items = Vec::new(alloc);
    for n in column {
        items.push(n * factor)?;
    }
    Ok(GridColumn::new(items))
}

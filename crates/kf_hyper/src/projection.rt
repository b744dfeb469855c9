ghost use Rattle.std.specs.Prelude.{◌≡◌, ◌<◌, ◌^◌, ◌==◌, All, IfOk, length, map};
ghost use Rattle.std.specs.List.{IsDistinct};
ghost use Rattle.kf_value.specs.Types.{product};
ghost use Rattle.kf_value.specs.Shapes.{shape_types, shape_sizes, shape_size};
ghost use Rattle.kf_column.specs.Columns.{weight_at, total};
ghost use Rattle.kf_column.specs.Shapes.{IsBelow};
ghost use Rattle.kf_column.specs.Joint.{mass};
ghost use Rattle.kf_column.specs.Projection.{at_places, projected as projected_store, weight_through};

use crate::unsorted::gathered;
use crate::{Column, ColumnList, Columns, Entry};
use kf_value::{Mem, Shape, SlotList};
use std::alloc::Global;

// The number of a store's values at the slots.
fn projected(shape: &Shape, slots: &[u8], store: u64) -> u64
    requires store { store < shape_size shape.now }
    requires places { All (λ i. i < length (shape_types shape.now)) slots.now }
    requires apart { IsDistinct (λ i j. i == j) slots.now }
    ensures number { result ≡ projected_store (shape_sizes shape.now) slots.now store }
    ensures below { result < product (at_places slots.now (shape_sizes shape.now)) }
{
    let mut number = 0;
    for slot in slots {
        let i = usize::from(*slot);
        number = number * u64::from(shape.size(i)) + u64::from(shape.slot(store, i));
    }
    number
}

// A column of stores as one of the numbers of their values at the slots.
fn projected_column(
    alloc: Global,
    column: &Column,
    shape: &Shape,
    slots: &[u8],
) -> Result<Column, Mem>
    requires fits { total column.now < 2 ^ 128 }
    requires stores { IsBelow (shape_size shape.now) column.now }
    requires places { All (λ i. i < length (shape_types shape.now)) slots.now }
    requires apart { IsDistinct (λ i j. i == j) slots.now }
    ensures weights { IfOk result (λ new. weight_at new ≡ weight_through (projected_store (shape_sizes shape.now) slots.now) column.now) }
    ensures below { IfOk result (λ new. IsBelow (product (at_places slots.now (shape_sizes shape.now))) new) }
    ensures total { IfOk result (λ new. total new ≡ total column.now) }
{
    let whole = column.entries().as_slice();
    let mut entries = Vec::with_capacity(alloc, whole.len())?;
    for entry in whole {
        entries.push(Entry {
            value: projected(shape, slots, entry.value),
            weight: entry.weight,
        })?;
    }
    Ok(gathered(entries))
}

/// The joint matrix about the variables at `slots` alone.
///
/// Each store is replaced by the number of its values there, the first slot most significant; within a column the
/// weights of equal numbers are added.
pub fn project(
    alloc: Global,
    columns: &Columns,
    shape: &Shape,
    slots: &SlotList,
) -> Result<Columns, Mem>
    requires stores { All (IsBelow (shape_size shape.now)) columns.now.columns }
    requires places { All (λ i. i < length (shape_types shape.now)) slots.now }
    requires apart { IsDistinct (λ i j. i == j) slots.now }
    ensures scale { IfOk result (λ joint. joint.scale ≡ columns.now.scale) }
    ensures weights { IfOk result (λ joint. map weight_at joint.columns
        ≡ map (weight_through (projected_store (shape_sizes shape.now) slots.now)) columns.now.columns) }
    ensures below { IfOk result (λ joint. All (IsBelow (product (at_places slots.now (shape_sizes shape.now)))) joint.columns) }
    ensures mass { IfOk result (λ joint. mass joint.columns ≡ mass columns.now.columns) }
{
    let whole = columns.columns().as_slice();
    let mut list = Vec::with_capacity(alloc, whole.len())?;
    for column in whole {
        list.push(projected_column(alloc, column, shape, slots.as_slice())?)?;
    }
    Ok(Columns::new(columns.scale(), ColumnList::new(list)))
}

//! What a column becomes where a variable is forgotten: it takes one and the same value in every store.

ghost use Rattle.std.specs.Prelude.{◌≡◌, ◌<◌, ◌^◌, [], ◌∷◌, All, length, map, OnOk};
ghost use Rattle.kf_value.specs.Forms.{IsWellFormed};
ghost use Rattle.kf_value.specs.Shapes.{shape_size, shape_types};
ghost use Rattle.kf_value.specs.Views.{value_tree};
ghost use Rattle.kf_column.specs.Columns.{total as column_total};
ghost use Rattle.kf_column.specs.Shapes.{IsBelow};
ghost use Rattle.kf_run.specs.Forgetting.{forgetting};
ghost use Rattle.kf_run.specs.Ways.{Adds, HasRows, along};

use crate::column_spread::add_column;
use kf_hyper::{Column, Columns, Entry};
use kf_support::moved;
use kf_value::{Mem, Shape, Value};
use std::alloc::Global;

/// Whether two stores of the column differ in the variable at `slot`.
fn column_varies(shape: &Shape, slot: usize, column: &Column) -> bool
    requires variable { slot < length (shape_types shape.now) }
    requires below { IsBelow (shape_size shape.now) column.now }
{
    let entries = column.entries().as_slice();
    let first = shape.slot(entries[0].value, slot);
    for entry in entries {
        if shape.slot(entry.value, slot) != first {
            return true;
        }
    }
    false
}

/// Whether two stores of one column differ in the variable at `slot`. The first column where they do is the last that is looked at.
pub fn varies(shape: &Shape, slot: usize, columns: &Columns) -> bool
    requires variable { slot < length (shape_types shape.now) }
    requires below { All (IsBelow (shape_size shape.now)) columns.now.columns }
{
    for column in columns.columns().as_slice() {
        if column_varies(shape, slot, column) {
            return true;
        }
    }
    false
}

/// Adds the store in which the variable has the value, with the weight.
fn forget_entry(
    shape: &Shape,
    slot: usize,
    value: &Value,
    entry: Entry,
    behind: &mut Vec<Entry>,
) -> Result<(), Mem>
    requires variable { slot < length (shape_types shape.now) }
    requires formed { IsWellFormed (value_tree value.now) }
    requires store { entry.value < shape_size shape.now }
    requires some { 0 < entry.weight }
    ensures added { OnOk result (Adds (forgetting (shape_types shape.now) slot (value_tree value.now)) (entry ∷ []) (map (along []) behind.old.items) (map (along []) behind.new.items)) }
    ensures below { OnOk result (IsBelow (shape_size shape.now) behind.old.items → IsBelow (shape_size shape.now) behind.new.items) }
{
    let store = moved(shape, slot, entry.value, value).unwrap_or(entry.value);
    behind.push(Entry {
        value: store,
        weight: entry.weight,
    })?;
    Ok(())
}

/// Adds the column of the stores in which the variable has the value.
pub fn forget_column(
    alloc: Global,
    shape: &Shape,
    slot: usize,
    value: &Value,
    column: &Column,
    list: &mut Vec<Column>,
) -> Result<(), Mem>
    requires variable { slot < length (shape_types shape.now) }
    requires formed { IsWellFormed (value_tree value.now) }
    requires below { IsBelow (shape_size shape.now) column.now }
    requires fits { column_total column.now < 2 ^ 128 }
    ensures { OnOk result (HasRows (forgetting (shape_types shape.now) slot (value_tree value.now)) (shape_size shape.now) column.now list.old.items list.new.items) }
{
    let entries = column.entries().as_slice();
    let mut behind = Vec::with_capacity(alloc, entries.len())?;
    for entry in entries {
        forget_entry(shape, slot, value, *entry, &mut behind)?;
    }
    add_column(behind, list)?;
    Ok(())
}

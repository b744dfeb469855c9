//! Columns of one posterior added up.

ghost use Rattle.std.specs.Prelude.{◌≡◌, true, All, IfOk, map};
ghost use Rattle.kf_column.specs.Averages.{joint_column};
ghost use Rattle.kf_hyper.specs.ClassViews.{inner_of, class_of};
ghost use Rattle.kf_column.specs.Classes.{IsWhole};
ghost use Rattle.kf_column.specs.Merged.{AreMerged};

use crate::class::Class;
use crate::classes::classes_of;
use crate::{Column, ColumnList, Columns, EntryList};
use kf_frac::quotient;
use kf_value::Mem;
use std::alloc::Global;

// Whether there is at most one column, and so nothing to merge. Each column has an entry.
fn is_alone(columns: &[Column]) -> bool
    ensures { result ≡ true → AreMerged columns.now columns.now }
{
    match columns {
        [] => true,
        [column] => !column.entries().as_slice().is_empty(),
        _ => false,
    }
}

// The list of a class, multiplied up to the class's total.
fn multiplied(class: Class) -> Column
    requires { IsWhole (class_of class) }
    ensures { result ≡ joint_column (inner_of class) }
{
    let times = quotient(class.total, class.whole);
    if times == 1 {
        return class.inner;
    }
    let mut entries = class.inner.into_entries();
    for i in 0..entries.len() {
        entries[i].weight *= times;
    }
    Column::new(EntryList::new(entries))
}

// One column for each class.
fn summed(alloc: Global, classes: Vec<Class>) -> Result<Vec<Column>, Mem>
    requires { All IsWhole (map class_of classes.items) }
    ensures { IfOk result (λ columns. columns.items ≡ map joint_column (map inner_of classes.items)) }
{
    let mut columns = Vec::with_capacity(alloc, classes.len())?;
    for class in classes {
        columns.push(multiplied(class))?;
    }
    Ok(columns)
}

/// One column for each class of proportional columns: the sum of the class, over the same scale.
///
/// They ascend by their lists without common factor. The one error is want of memory. A caller that needs its columns no more spares the
/// copy by `merge_owned`.
pub fn merge(alloc: Global, columns: &Columns) -> Result<Columns, Mem>
    ensures merged { IfOk result (λ merged. AreMerged columns.now.columns merged.columns) }
    ensures scale { IfOk result (λ merged. merged.scale ≡ columns.now.scale) }
{
    let copied = columns.copy(alloc)?;
    merge_owned(alloc, copied)
}

/// The same of columns that are given away: what they hold is changed in place.
pub fn merge_owned(alloc: Global, columns: Columns) -> Result<Columns, Mem>
    ensures merged { IfOk result (λ merged. AreMerged columns.columns merged.columns) }
    ensures scale { IfOk result (λ merged. merged.scale ≡ columns.scale) }
{
    let (scale, list) = columns.into_parts();
    if is_alone(list.as_slice()) {
        return Ok(Columns::new(scale, ColumnList::new(list)));
    }
    let classes = classes_of(alloc, list)?;
    let merged = summed(alloc, classes)?;
    Ok(Columns::new(scale, ColumnList::new(merged)))
}

//! Classes of proportional columns.

ghost use Rattle.std.specs.Prelude.{◌≡◌, ◌≤◌, List, IfOk, map, sum_by};
ghost use Rattle.std.specs.Ordering.{is_lt};
ghost use Rattle.std.specs.List.Sorted.{IsSortedBy};
ghost use Rattle.kf_frac.specs.Fractions.{limit};
ghost use Rattle.kf_column.specs.declared.entry.Entry.{Entry};
ghost use Rattle.kf_column.specs.Joint.{mass};
ghost use Rattle.kf_column.specs.Classes.{ClassesOf, AreAscending};
ghost use Rattle.kf_column.specs.Shapes.{list_order};
ghost use Rattle.kf_hyper.specs.ClassViews.{class_of};

use crate::Column;
use crate::class::Class;
use crate::reduction::reduced;
use kf_value::Mem;
use std::alloc::Global;
use std::cmp::Ordering;

// By the first entry that differs, its value before its weight.
fn compare(a: &Class, b: &Class) -> Ordering
    ensures { result ≡ list_order a.now.inner b.now.inner }
{
    a.inner
        .entries()
        .as_slice()
        .cmp(b.inner.entries().as_slice())
}

// The class of each column.
fn single_classes(alloc: Global, columns: Vec<Column>) -> Result<Vec<Class>, Mem>
    requires { mass columns.items ≤ limit }
    ensures { IfOk result (λ classes. ClassesOf columns.items (map class_of classes.items)) }
{
    let mut classes = Vec::with_capacity(alloc, columns.len())?;
    for column in columns {
        classes.push(reduced(column))?;
    }
    Ok(classes)
}

// Adds up the totals of classes with one inner, which stand side by side.
fn join_equals(classes: &mut Vec<Class>)
    requires fits { sum_by (λ c. c.total) classes.old.items ≤ limit }
    requires sorted { IsSortedBy (λ a b. is_lt (list_order a.inner b.inner)) classes.old.items }
    ensures kept { (columns : List (List Entry)) → ClassesOf columns (map class_of classes.old.items) → ClassesOf columns (map class_of classes.new.items) }
    ensures ordered { AreAscending (map class_of classes.new.items) }
{
    let mut last = 0;
    for i in 1..classes.len() {
        if compare(&classes[i], &classes[last]).is_eq() {
            classes[last].total += classes[i].total;
        } else {
            last += 1;
            classes.swap(last, i);
        }
    }
    classes.truncate(last + 1);
}

/// The classes of proportional columns, each with its list without common factor and its total, ascending by these lists.
pub fn classes_of(alloc: Global, columns: Vec<Column>) -> Result<Vec<Class>, Mem>
    requires fits { mass columns.items ≤ limit }
    ensures classes { IfOk result (λ classes. ClassesOf columns.items (map class_of classes.items)) }
    ensures ordered { IfOk result (λ classes. AreAscending (map class_of classes.items)) }
{
    let mut classes = single_classes(alloc, columns)?;
    classes.sort_unstable_by(|a, b| compare(a, b));
    join_equals(&mut classes);
    Ok(classes)
}

//! What goes from a column's stores, as columns.

ghost use Rattle.std.specs.Prelude.{◌≡◌, ◌<◌, ◌≤◌, ◌^◌, ℕ, List, [], All, Bool, flat_map, map, length, IfOk, OnOk};
ghost use Rattle.std.specs.List.{AllByRecursion as Each};
ghost use Rattle.kf_value.specs.Values.{ValueTree};
ghost use Rattle.kf_column.specs.declared.entry.Entry.{Entry as EntryTree};
ghost use Rattle.kf_column.specs.Columns.{total};
ghost use Rattle.kf_column.specs.Shapes.{IsBelow};
ghost use Rattle.kf_core.specs.Runs.{Run};
ghost use Rattle.kf_run.specs.Groups.{AreSame, Ascend, ways_in};
ghost use Rattle.kf_run.specs.Spreading.{IsFront, Rise};
ghost use Rattle.kf_run.specs.Ways.{Way, HasRows, IsShared, along, leaked, way_total};

use crate::leak_groups::{Group, groups_of};
use crate::ways::Leak;
use kf_hyper::{Column, Entry, gathered};
use kf_value::{Mem, compare};
use std::alloc::Global;
use std::cmp::Ordering;

/// Adds the column of these weights, where there are any.
pub fn add_column(entries: Vec<Entry>, list: &mut Vec<Column>) -> Result<(), Mem>
    requires positive { All (λ e. 0 < e.weight) entries.items }
    requires fits { total entries.items < 2 ^ 128 }
    ensures { OnOk result ((from : ℕ → List Run) (size : ℕ) (column : List EntryTree) (trace : List ValueTree)
        → IsShared from column (map (along trace) entries.items) → IsBelow size entries.items → HasRows from size column list.old.items list.new.items) }
{
    if !entries.is_empty() {
        let column = gathered(entries);
        column.is_column();
        list.push(column)?;
    }
    Ok(())
}

/// How many at the front leak the first one's value.
fn front_of(leaks: &[Leak]) -> usize
    requires some { 0 < length leaks.now }
    requires sorted { Rise leaks.now }
    ensures some { 0 < result }
    ensures within { result ≤ length leaks.now }
    ensures front { IsFront leaks.now result }
{
    let first = &leaks[0].value;
    for (i, leak) in leaks.iter().enumerate() {
        if compare(first, &leak.value) != Ordering::Equal {
            return i;
        }
    }
    leaks.len()
}

/// The stores with their weights.
fn entries_of(alloc: Global, leaks: &[Leak]) -> Result<Vec<Entry>, Mem>
    ensures { IfOk result (λ entries. entries.items ≡ map (λ l. record { value = l.to; weight = l.weight }) leaks.now) }
{
    let mut entries = Vec::with_capacity(alloc, leaks.len())?;
    for leak in leaks {
        entries.push(Entry {
            value: leak.to,
            weight: leak.weight,
        })?;
    }
    Ok(entries)
}

/// Adds one column for each value that is leaked, in order. The leaks are sorted by their values.
fn add_sorted(alloc: Global, mut leaks: Vec<Leak>, list: &mut Vec<Column>) -> Result<(), Mem>
    requires positive { All (λ l. 0 < l.weight) leaks.items }
    requires fits { way_total (map leaked leaks.items) < 2 ^ 128 }
    ensures { OnOk result ((from : ℕ → List Run) (size : ℕ) (column : List EntryTree)
        → IsShared from column (map leaked leaks.items) → All (λ l. l.to < size) leaks.items → HasRows from size column list.old.items list.new.items) }
{
    leaks.sort_unstable_by(|a, b| compare(&a.value, &b.value));
    let sorted = leaks.as_slice();
    let mut at = 0;
    while at < sorted.len() {
        let rest = &sorted[at..];
        let count = front_of(rest);
        let entries = entries_of(alloc, &rest[..count])?;
        let column = gathered(entries);
        column.is_column();
        list.push(column)?;
        at += count;
    }
    Ok(())
}

/// Adds one column for each group, in order.
fn add_groups(groups: Vec<Group>, list: &mut Vec<Column>) -> Result<(), Mem>
    requires ascend { Ascend groups.items }
    requires full { Each (λ g. g.entries.items ≡ [] → ⊥) groups.items }
    requires positive { Each (λ w. 0 < w.weight) (flat_map ways_in groups.items) }
    requires fits { way_total (flat_map ways_in groups.items) < 2 ^ 128 }
    ensures { OnOk result ((from : ℕ → List Run) (size : ℕ) (column : List EntryTree) (ways : List Way) → AreSame ways (flat_map ways_in groups.entry.items)
        → IsShared from column ways → Each (λ w. w.to < size) ways → HasRows from size column list.old.items list.new.items) }
{
    for mut group in groups {
        group.entries.shrink_to_fit();
        let column = gathered(group.entries);
        column.is_column();
        list.push(column)?;
    }
    Ok(())
}

/// Adds one column for each value that is leaked, in order.
///
/// Where the values are few, as they mostly are, nothing is sorted by them.
pub fn add_columns(alloc: Global, leaks: Vec<Leak>, list: &mut Vec<Column>) -> Result<(), Mem>
    requires positive { All (λ l. 0 < l.weight) leaks.items }
    requires fits { way_total (map leaked leaks.items) < 2 ^ 128 }
    ensures { OnOk result ((from : ℕ → List Run) (size : ℕ) (column : List EntryTree)
        → IsShared from column (map leaked leaks.items) → All (λ l. l.to < size) leaks.items → HasRows from size column list.old.items list.new.items) }
{
    if let Some(groups) = groups_of(alloc, &leaks)? {
        add_groups(groups, list)?;
        return Ok(());
    }
    add_sorted(alloc, leaks, list)?;
    Ok(())
}

//! Weights of values in any order, as a column.

ghost use Rattle.std.specs.Prelude.{◌≡◌, ◌+◌, ◌*◌, ◌<◌, ◌^◌, ℕ, Bool, OnOk};
ghost use Rattle.std.specs.List.Sorted.{IsNonDecreasingBy};
ghost use Rattle.kf_column.specs.Columns.{IsColumn, weight_at, total};
ghost use Rattle.kf_column.specs.Shapes.{IsBelow};
ghost use Rattle.kf_hyper.specs.Sums.{ArePositive, Gains, asked_weight, Gathers};

use crate::{Column, Entry, EntryList};
use kf_value::Mem;

// Entries whose values never fall, with the weights of equal values added up in place.
fn added(mut entries: Vec<Entry>) -> Vec<Entry>
    requires some { 0 < total entries.items }
    requires positive { ArePositive entries.items }
    requires fits { total entries.items < 2 ^ 128 }
    requires ascending { IsNonDecreasingBy (λ e. e.value) entries.items }
    ensures column { IsColumn result.items }
    ensures gathers { Gathers entries.items result.items }
{
    let mut last = 0;
    for i in 1..entries.len() {
        let entry = entries[i];
        if entry.value == entries[last].value {
            entries[last].weight += entry.weight;
        } else {
            last += 1;
            entries[last] = entry;
        }
    }
    entries.truncate(last + 1);
    entries
}

/// The column of these weights: values in ascending order, each once, with the weights of equal values added up.
///
/// The list may be in any order.
pub fn gathered(mut entries: Vec<Entry>) -> Column
    requires some { 0 < total entries.items }
    requires positive { ArePositive entries.items }
    requires fits { total entries.items < 2 ^ 128 }
    ensures weights { (asked : ℕ → Bool) → asked_weight asked result ≡ asked_weight asked entries.items }
    ensures total { total result ≡ total entries.items }
    ensures below { (size : ℕ) → IsBelow size entries.items → IsBelow size result }
{
    let before = entries.len();
    entries.sort_unstable_by_key(|entry| entry.value);
    let mut sums = added(entries);
    if sums.len() < before {
        sums.shrink_to_fit();
    }
    Column::new(EntryList::new(sums))
}

/// Puts so many times each of the entries behind the list.
pub(crate) fn push_times(list: &mut Vec<Entry>, entries: &[Entry], times: u128) -> Result<(), Mem>
    requires some { 0 < times }
    requires positive { ArePositive entries.now }
    requires fits { total list.old.items + times * total entries.now < 2 ^ 128 }
    ensures gains { OnOk result (Gains (λ x. times * weight_at entries.now x) (times * total entries.now) list.old.items list.new.items) }
    ensures positive { OnOk result (ArePositive list.old.items → ArePositive list.new.items) }
    ensures below { OnOk result ((size : ℕ) → IsBelow size entries.now → IsBelow size list.old.items → IsBelow size list.new.items) }
{
    for entry in entries {
        list.push(Entry {
            value: entry.value,
            weight: times * entry.weight,
        })?;
    }
    Ok(())
}

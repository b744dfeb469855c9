//! Weights of values, added up.

ghost use Rattle.std.specs.Prelude.{◌≡◌, ◌+◌, ◌*◌, ◌<◌, ◌^◌, IfOk, OnOk};
ghost use Rattle.kf_cert.specs.Cells.{AreAscending};
ghost use Rattle.kf_column.specs.Columns.{weight_at, total};
ghost use Rattle.kf_hyper.specs.Sums.{summed, ArePositive, Gains, weight_alone};

use kf_hyper::Entry;
use kf_value::Mem;
use std::alloc::Global;
use std::collections::BTreeMap;

// Adds a weight at a value.
fn add(sums: &mut BTreeMap<u64, u128>, value: u64, weight: u128) -> Result<(), Mem>
    requires some { 0 < weight }
    requires fits { total (summed sums.old.entries) + weight < 2 ^ 128 }
    ensures gains { OnOk result (Gains (weight_alone value weight) weight (summed sums.old.entries) (summed sums.new.entries)) }
    ensures positive { OnOk result (ArePositive (summed sums.old.entries) → ArePositive (summed sums.new.entries)) }
{
    let before = sums.get(&value).copied().unwrap_or(0);
    sums.insert(value, before + weight)?;
    Ok(())
}

/// Adds so many times each entry's weight at its value.
pub(super) fn add_all(
    sums: &mut BTreeMap<u64, u128>,
    entries: &[Entry],
    times: u128,
) -> Result<(), Mem>
    requires some { 0 < times }
    requires positive { ArePositive entries.now }
    requires fits { total (summed sums.old.entries) + times * total entries.now < 2 ^ 128 }
    ensures gains { OnOk result (Gains (λ x. times * weight_at entries.now x) (times * total entries.now)
        (summed sums.old.entries) (summed sums.new.entries)) }
    ensures positive { OnOk result (ArePositive (summed sums.old.entries) → ArePositive (summed sums.new.entries)) }
{
    for entry in entries {
        add(sums, entry.value, times * entry.weight)?;
    }
    Ok(())
}

/// The sums as entries, in the order of their values.
pub(super) fn entries_of(alloc: Global, sums: BTreeMap<u64, u128>) -> Result<Vec<Entry>, Mem>
    requires { ArePositive (summed sums.entries) }
    ensures kept { IfOk result (λ entries. entries.items ≡ summed sums.entries) }
    ensures ascending { IfOk result (λ entries. AreAscending entries.items) }
{
    let mut entries = Vec::new(alloc);
    for (value, weight) in sums {
        entries.push(Entry { value, weight })?;
    }
    Ok(entries)
}

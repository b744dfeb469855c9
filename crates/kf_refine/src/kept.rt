//! The values whose weights the equations are about.

ghost use Rattle.std.specs.Prelude.{◌≡◌, ◌+◌, ◌*◌, ◌/◌, ◌<◌, ◌^◌, [], ◌∷◌, ℕ, ◌==◌, length, IfOk, OnOk, IsSome, if◌then◌else◌};
ghost use Rattle.kf_column.specs.Columns.{IsColumn, total};
ghost use Rattle.kf_column.specs.Classes.{IsCommonFactor, IsReduced};
ghost use Rattle.kf_hyper.specs.Sums.{ArePositive};
ghost use Rattle.kf_hyper.specs.Views.{inner_at, inners_of};
ghost use Rattle.kf_refine.specs.Equations.{AreKept};
ghost use Rattle.kf_refine.specs.Rows.{AreFilled, AreSmallest, Grows, found, row_at, row_from, shares};
ghost use Rattle.kf_refine.specs.Views.{hyper_tree};

use kf_frac::gcd;
use kf_hyper::{Entry, Hyper};
use kf_value::Mem;
use std::alloc::Global;
use std::collections::{BTreeMap, BTreeSet};

/// The values of weight, ascending, but for those whose weights stand in one ratio with a smaller one's.
pub(crate) fn kept(alloc: Global, a: &Hyper, b: &Hyper) -> Result<Vec<u64>, Mem>
    ensures { IfOk result (λ values. AreKept (hyper_tree a.now) (hyper_tree b.now) values.items) }
{
    // The inners of both are numbered in one sequence.
    a.count().checked_add(b.count()).ok_or(Mem)?;
    let mut rows = BTreeMap::new(alloc);
    push_inners(alloc, &mut rows, a, 0)?;
    push_inners(alloc, &mut rows, b, a.count() as u64)?;
    smallest(alloc, &rows)
}

// Puts the joint weights of a hyper's inners, numbered from `first` on, behind the rows of the values.
fn push_inners(
    alloc: Global,
    rows: &mut BTreeMap<u64, Vec<Entry>>,
    h: &Hyper,
    first: u64,
) -> Result<(), Mem>
    requires { first + length (inners_of h.now) < 2 ^ 64 }
    ensures rows { OnOk result (Grows (row_from first (inners_of h.now)) rows.old.entries rows.new.entries) }
    ensures filled { OnOk result (AreFilled rows.old.entries → AreFilled rows.new.entries) }
{
    for i in 0..h.count() {
        let times = share(h, i);
        let number = first + i as u64;
        push_shares(alloc, rows, number, times, h.inner(i).entries().as_slice())?;
    }
    Ok(())
}

// How often the weights of an inner go into those of its class.
fn share(h: &Hyper, i: usize) -> u128
    requires { i < length (inners_of h.now) }
    ensures is { result ≡ (inner_at h.now i).total / total (inner_at h.now i).entries }
    ensures some { 0 < result }
    ensures fits { result * total (inner_at h.now i).entries < 2 ^ 128 }
{
    h.total(i) / h.inner(i).total()
}

// Puts so many times the weights of an inner's entries behind the rows of the values.
fn push_shares(
    alloc: Global,
    rows: &mut BTreeMap<u64, Vec<Entry>>,
    number: u64,
    times: u128,
    entries: &[Entry],
) -> Result<(), Mem>
    requires some { 0 < times }
    requires positive { ArePositive entries.now }
    requires fits { times * total entries.now < 2 ^ 128 }
    ensures rows { OnOk result (Grows (shares number times entries.now) rows.old.entries rows.new.entries) }
    ensures filled { OnOk result (AreFilled rows.old.entries → AreFilled rows.new.entries) }
{
    for entry in entries {
        let weight = times * entry.weight;
        push(
            alloc,
            rows,
            entry.value,
            Entry {
                value: number,
                weight,
            },
        )?;
    }
    Ok(())
}

// Puts an entry behind the row of a value.
fn push(
    alloc: Global,
    rows: &mut BTreeMap<u64, Vec<Entry>>,
    value: u64,
    entry: Entry,
) -> Result<(), Mem>
    requires { 0 < entry.weight }
    ensures rows { OnOk result (Grows (λ x. if value == x then entry ∷ [] else []) rows.old.entries rows.new.entries) }
    ensures filled { OnOk result (AreFilled rows.old.entries → AreFilled rows.new.entries) }
{
    match rows.get_mut(&value) {
        Some(row) => row.push(entry)?,
        None => {
            let mut row = Vec::with_capacity(alloc, 2)?;
            row.push(entry)?;
            rows.insert(value, row)?;
        }
    }
    Ok(())
}

// The values with rows, ascending, but for those whose rows stand in one ratio with a smaller one's.
fn smallest(alloc: Global, rows: &BTreeMap<u64, Vec<Entry>>) -> Result<Vec<u64>, Mem>
    requires { (x : ℕ) → IsSome (found rows.now.entries x) → IsColumn (row_at rows.now.entries x) }
    ensures { IfOk result (λ values. AreSmallest rows.now.entries values.items) }
{
    let mut seen = BTreeSet::new(alloc);
    let mut values = Vec::new(alloc);
    for (value, row) in rows {
        if seen.insert(reduced(alloc, row.as_slice())?)? {
            values.push(*value)?;
        }
    }
    Ok(values)
}

// The entries with their weights divided by the greatest number that divides all.
fn reduced(alloc: Global, entries: &[Entry]) -> Result<Vec<Entry>, Mem>
    requires { IsColumn entries.now }
    ensures { IfOk result (λ inner. IsReduced entries.now inner.items) }
{
    let factor = common_factor(entries);
    let mut inner = Vec::new(alloc);
    for entry in entries {
        inner.push(Entry {
            value: entry.value,
            weight: entry.weight / factor,
        })?;
    }
    Ok(inner)
}

// The greatest number that divides every weight.
fn common_factor(entries: &[Entry]) -> u128
    ensures { IsCommonFactor result entries.now }
{
    let mut factor = 0;
    for entry in entries {
        factor = gcd(factor, entry.weight);
    }
    factor
}

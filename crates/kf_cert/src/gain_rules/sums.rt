//! Sums of what actions gain beyond the `rest` of their table.

ghost use Rattle.std.specs.Prelude.{◌≡◌, ◌≤◌, ◌<◌, ◌+◌, ◌*◌, ◌==◌, ℕ, None, pos, ◌+ℤ◌, ◌*ℤ◌, ◌≤ℤ◌, All, OnOk, unsigned_abs, if◌then◌else◌};
ghost use Rattle.std.specs.BTreeMap.{get};
ghost use Rattle.std.specs.Ordering.{nat_cmp};
ghost use Rattle.kf_cert.specs.NamedGains.{sum_at, AreBelow, amount_at, size_at};
ghost use Rattle.kf_frac.specs.Fractions.{limit};

use super::excess::Excess;
use kf_value::Mem;
use std::collections::BTreeMap;

/// A gain, so many times.
pub(super) fn times(weight: u128, gain: i128) -> i128
    requires narrow { weight ≤ limit }
    requires fits { weight * unsigned_abs gain ≤ limit }
    ensures { result ≡ pos weight *ℤ gain }
{
    weight as i128 * gain
}

// The sum of an action; 0 where it has none.
fn sum_of(sums: &BTreeMap<usize, i128>, action: usize) -> i128
    ensures { result ≡ sum_at sums.now action }
{
    sums.get(&action).copied().unwrap_or(0)
}

// Adds an amount to the sum of an action.
fn add(sums: &mut BTreeMap<usize, i128>, action: usize, amount: i128) -> Result<(), Mem>
    requires { unsigned_abs (sum_at sums.old action) + unsigned_abs amount ≤ limit }
    ensures sums { OnOk result ((k : ℕ) → sum_at sums.new k ≡ sum_at sums.old k +ℤ (if action == k then amount else pos 0)) }
    ensures below { OnOk result ((count : ℕ) → action < count → AreBelow count sums.old → AreBelow count sums.new) }
{
    let sum = sum_of(sums, action) + amount;
    sums.insert(action, sum)?;
    Ok(())
}

/// Adds so many times what actions gain at one value.
pub(super) fn add_all(
    sums: &mut BTreeMap<usize, i128>,
    excesses: &[Excess],
    weight: u128,
) -> Result<(), Mem>
    requires narrow { weight ≤ limit }
    requires fits { (k : ℕ) → unsigned_abs (sum_at sums.old k) + weight * size_at excesses.now k ≤ limit }
    ensures sums { OnOk result ((k : ℕ) → sum_at sums.new k ≡ sum_at sums.old k +ℤ pos weight *ℤ amount_at excesses.now k) }
    ensures below { OnOk result ((count : ℕ) → All (λ e. e.action < count) excesses.now → AreBelow count sums.old → AreBelow count sums.new) }
{
    for excess in excesses {
        add(sums, excess.action, times(weight, excess.amount))?;
    }
    Ok(())
}

// The sum of some action: 0 where one of so many has none.
fn some_sum(sums: &BTreeMap<usize, i128>, count: usize) -> i128
    requires some { 0 < count }
    requires below { AreBelow count sums.now }
    ensures reached { (k : ℕ) × (k < count) × (result ≡ sum_at sums.now k) }
    ensures idle { (k : ℕ) → k < count → get nat_cmp sums.now k ≡ None → pos 0 ≤ℤ result }
{
    if sums.len() < count {
        0
    } else {
        sum_of(sums, 0)
    }
}

/// The greatest of the sums of so many actions; an action that has none counts as 0.
pub(super) fn greatest_sum(sums: BTreeMap<usize, i128>, count: usize) -> i128
    requires some { 0 < count }
    requires below { AreBelow count sums }
    ensures reached { (k : ℕ) × (k < count) × (result ≡ sum_at sums k) }
    ensures best { (k : ℕ) → k < count → sum_at sums k ≤ℤ result }
{
    let mut greatest = some_sum(&sums, count);
    for (_, sum) in sums {
        greatest = greatest.max(sum);
    }
    greatest
}

//! What the actions of a gain table gain at the values that they name, beyond the table's `rest`.

ghost use Rattle.std.specs.Prelude.{◌≡◌, ◌≤◌, ◌<◌, ◌*◌, ◌==◌, ℕ, ◌-ℤ◌, ◌++◌, All, IfOk, OnOk, sum_by, unsigned_abs, if◌then◌else◌};
ghost use Rattle.std.specs.List.Sorted.{IsNonDecreasingBy};
ghost use Rattle.kf_cert.specs.NamedGains.{action_excesses, AreExcesses};
ghost use Rattle.kf_cert.specs.declared.gain_rules.excess.Excess.{Excess};
ghost use Rattle.kf_frac.specs.Fractions.{limit};
ghost use Rattle.kf_gain.specs.Views.{table_tree};
ghost use Rattle.kf_gain.specs.Vulnerabilities.{greatest, gains_of};

use kf_gain::{GainEntry, GainTable};
use kf_value::Mem;
use std::alloc::Global;

/// What an action gains at a value that it names, beyond the table's `rest`.
#[derive(Clone, Copy)]
pub(super) struct Excess {
    /// The number of a target value, from 0.
    pub value: u64,
    /// The action, from 0.
    pub action: usize,
    /// Over the table's `over`; below 0 where the action gains less than `rest`.
    pub amount: i128,
}

// Adds those of one action, in the order of its gains.
fn add_action(
    excesses: &mut Vec<Excess>,
    rest: i128,
    action: usize,
    gains: &[GainEntry],
) -> Result<(), Mem>
    requires { All (λ e. unsigned_abs (e.gain -ℤ rest) ≤ limit) gains.now }
    ensures { OnOk result (excesses.new.items ≡ excesses.old.items ++ action_excesses rest action gains.now) }
{
    for entry in gains {
        excesses.push(Excess {
            value: entry.value,
            action,
            amount: entry.gain - rest,
        })?;
    }
    Ok(())
}

/// Those of all actions, in the order of their values.
pub(super) fn excesses(alloc: Global, table: &GainTable) -> Result<Vec<Excess>, Mem>
    requires { 2 * greatest (gains_of (table_tree table.now)) ≤ limit }
    ensures { IfOk result (λ made. AreExcesses (table_tree table.now) made.items) }
{
    let mut excesses = Vec::new(alloc);
    let actions = table.actions.as_slice();
    for action in 0..actions.len() {
        let gains = actions[action].gains.as_slice();
        add_action(&mut excesses, table.rest, action, gains)?;
    }
    excesses.sort_unstable_by_key(|excess| excess.value);
    Ok(excesses)
}

/// Those at one value.
pub(super) fn at_value(excesses: &[Excess], value: u64) -> &[Excess]
    requires { IsNonDecreasingBy (λ e. e.value) excesses.now }
    ensures sums { (f : Excess → ℕ) → sum_by f result.now ≡ sum_by (λ e. if e.value == value then f e else 0) excesses.now }
    ensures each { (count : ℕ) → All (λ e. e.action < count) excesses.now → All (λ e. e.action < count) result.now }
{
    let start = excesses.partition_point(|excess| excess.value < value);
    let behind = &excesses[start..];
    let end = behind.partition_point(|excess| excess.value <= value);
    &behind[..end]
}

ghost use Rattle.std.specs.Prelude.{◌≡◌, ◌≤◌, ◌<◌, ◌*◌, ◌*ℤ◌, [], ◌∷◌, pos, map, length, slice_index_or, unsigned_abs};
ghost use Rattle.std.specs.List.Sorted.{IsStrictlyIncreasing};
ghost use Rattle.kf_frac.specs.Fractions.{limit};
ghost use Rattle.kf_column.specs.Columns.{total};
ghost use Rattle.kf_gain.specs.Gains.{Table, gain_at as gain_of};
ghost use Rattle.kf_gain.specs.Worth.{IsVulnerability, gained as sum_gained};
ghost use Rattle.kf_gain.specs.Vulnerabilities.{greatest, gains_of};
ghost use Rattle.kf_gain.specs.Views.{table_tree};

use crate::{GainEntry, GainTable};
use kf_hyper::Entry;

// The gain of an action at a value.
fn gain_at(rest: i128, gains: &[GainEntry], value: u64) -> i128
    requires { IsStrictlyIncreasing (map (λ e. e.value) gains.now) }
    ensures { result ≡ gain_of rest gains.now value }
{
    match gains.binary_search_by_key(&value, |entry| entry.value) {
        Ok(place) => gains[place].gain,
        Err(_) => rest,
    }
}

// A gain, so many times.
pub fn times(weight: u128, gain: i128) -> i128
    requires narrow { weight ≤ limit }
    requires fits { weight * unsigned_abs gain ≤ limit }
    ensures { result ≡ pos weight *ℤ gain }
{
    weight as i128 * gain
}

// What an action gains from a column.
fn gained(rest: i128, gains: &[GainEntry], entries: &[Entry]) -> i128
    requires ascending { IsStrictlyIncreasing (map (λ e. e.value) gains.now) }
    requires narrow { total entries.now ≤ limit }
    requires fits { total entries.now * greatest (rest ∷ map (λ e. e.gain) gains.now) ≤ limit }
    ensures { result ≡ sum_gained rest gains.now entries.now }
{
    let mut sum = 0;
    for entry in entries {
        sum += times(entry.weight, gain_at(rest, gains, entry.value));
    }
    sum
}

/// What the action `k` of a table, from 0, gains from a column, over the column's total times the table's `over`.
pub fn action_gain(table: &GainTable, k: usize, entries: &[Entry]) -> i128
    requires action { k < length (table_tree table.now).actions }
    requires narrow { total entries.now ≤ limit }
    requires fits { total entries.now * greatest (gains_of (table_tree table.now)) ≤ limit }
    ensures { result ≡ sum_gained table.now.rest (slice_index_or table.now.actions k (record { name = []; gains = [] })).gains entries.now }
{
    let action = &table.actions.as_slice()[k];
    gained(table.rest, action.gains.as_slice(), entries)
}

// What the best action of a table gains from a column.
pub fn best_action(table: &GainTable, entries: &[Entry]) -> i128
    requires narrow { total entries.now ≤ limit }
    requires fits { total entries.now * greatest (gains_of (table_tree table.now)) ≤ limit }
    ensures { IsVulnerability (Table (table_tree table.now)) entries.now result }
{
    let actions = table.actions.as_slice();
    let mut best = gained(table.rest, actions[0].gains.as_slice(), entries);
    for action in actions {
        best = best.max(gained(table.rest, action.gains.as_slice(), entries));
    }
    best
}

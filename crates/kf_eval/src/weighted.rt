//! Lists of values with their weights: a weight more, and lowest terms.

ghost use Rattle.std.specs.Prelude.{◌≡◌, [], ◌∷◌, ◌<◌, ◌+◌, ◌++◌, ◌^◌, map, true, OnOk};
ghost use Rattle.std.specs.List.{All};
ghost use Rattle.std.specs.List.Sorted.{IsStrictlySortedBy};
ghost use Rattle.kf_value.specs.Values.{order};
ghost use Rattle.kf_value.specs.Views.{value_tree};
ghost use Rattle.kf_core.specs.Choices as core;
ghost use Rattle.kf_core.specs.Choices.{common_factor as factor_of, lowest, total};
ghost use Rattle.kf_eval.specs.Choices.{weighted_tree};
ghost use Rattle.kf_eval.specs.Gathering.{added};

use crate::choice::Weighted;
use kf_frac::gcd;
use kf_value::{Mem, Value, compare};

/// Adds a weight at its value in an ascending list.
pub fn add(items: &mut Vec<Weighted>, item: Weighted) -> Result<(), Mem>
    requires ascending { IsStrictlySortedBy order (map (λ w. w.value) (map weighted_tree items.old.items)) }
    requires within { total (map weighted_tree items.old.items) + item.weight < 2 ^ 127 }
    ensures { OnOk result (map weighted_tree items.new.items ≡ added (weighted_tree item) (map weighted_tree items.old.items)) }
{
    if ends_before(items, &item.value) {
        items.push(item)?;
        return Ok(());
    }
    match items.binary_search_by(|held| compare(&held.value, &item.value)) {
        Ok(place) => items[place].weight += item.weight,
        Err(place) => items.insert(place, item)?,
    }
    Ok(())
}

/// Whether the last of the values comes before this one.
fn ends_before(items: &[Weighted], value: &Value) -> bool
    requires ascending { IsStrictlySortedBy order (map (λ w. w.value) (map weighted_tree items.now)) }
    ensures { result ≡ true → (w : core.Weighted) → w.value ≡ value_tree value.now
        → added w (map weighted_tree items.now) ≡ map weighted_tree items.now ++ w ∷ [] }
{
    match items.last() {
        Some(last) => compare(&last.value, value).is_lt(),
        None => false,
    }
}

/// The same weights over their greatest common divisor.
pub fn in_lowest_terms(mut items: Vec<Weighted>) -> Vec<Weighted>
    requires { All (λ w. 0 < w.weight) (map weighted_tree items.items) }
    ensures { map weighted_tree result.items ≡ lowest (map weighted_tree items.items) }
{
    let factor = common_factor(&items);
    if factor == 1 {
        return items;
    }
    for item in items.iter_mut() {
        item.weight /= factor;
    }
    items
}

/// The greatest number that divides all weights.
fn common_factor(items: &[Weighted]) -> u128
    ensures { result ≡ factor_of (map weighted_tree items.now) }
{
    let mut factor = 0;
    for item in items {
        factor = gcd(factor, item.weight);
        if factor == 1 {
            return 1;
        }
    }
    factor
}

//! Stores parted by the values that they leak.

ghost use Rattle.std.specs.Prelude.{◌≡◌, ◌+◌, ◌*◌, ◌^◌, ◌<◌, length, map, IfSome, OnOk};
ghost use Rattle.std.specs.List.{All};
ghost use Rattle.std.specs.List.Sorted.{IsBinarySearchResult, IsSearchInRange};
ghost use Rattle.kf_value.specs.Forms.{IsWellFormed};
ghost use Rattle.kf_value.specs.Shapes.{shape_size, shape_types};
ghost use Rattle.kf_value.specs.Values.{order};
ghost use Rattle.kf_value.specs.Views.{value_tree};
ghost use Rattle.kf_core.specs.Choices.{total};
ghost use Rattle.kf_eval.specs.Choices.{weighted_tree};
ghost use Rattle.kf_support.specs.Moves.{store_behind as lead_of};
ghost use Rattle.kf_traces.specs.Traced.{with_part, with_shares};
ghost use Rattle.kf_traces.specs.Views.{part_of, parts_sum, PartsBelow, PartsAscend};

use crate::weights::Weights;
use kf_eval::Weighted;
use kf_support::store_behind;
use kf_value::{Mem, Shape, Value, compare};
use std::alloc::Global;
use std::cmp::Ordering;

/// A value that is leaked, and the stores behind it, each with its weight.
#[derive(Drop)]
pub struct Part {
    pub value: Value,
    pub stores: Weights,
}

/// The place of the part of a value, or else the one where it is to go. The place `first` is looked at before the others.
fn place_of(parts: &[Part], value: &Value, first: usize) -> Result<usize, usize>
    ensures within { IsSearchInRange result (length parts.now) }
    ensures found { IsBinarySearchResult (λ p. order (value_tree p.value) (value_tree value.now)) parts.now result }
{
    match parts.get(first) {
        Some(part) if compare(&part.value, value) == Ordering::Equal => Ok(first),
        _ => parts.binary_search_by(|part| compare(&part.value, value)),
    }
}

/// Adds weight on a store in the part of a value.
///
/// The part at `first` is tried before a search.
pub fn add_part(
    alloc: Global,
    parts: &mut Vec<Part>,
    first: usize,
    value: &Value,
    store: u64,
    weight: u128,
) -> Result<(), Mem>
    requires ascending { PartsAscend (map part_of parts.old.items) }
    requires within { parts_sum (map part_of parts.old.items) + weight < 2 ^ 127 }
    ensures { OnOk result (map part_of parts.new.items ≡ with_part (map part_of parts.old.items) (value_tree value.now) store weight) }
{
    match place_of(parts.as_slice(), value, first) {
        Ok(place) => parts[place].stores.add_weight(store, weight)?,
        Err(place) => {
            let mut stores = Weights::new(alloc);
            stores.add_weight(store, weight)?;
            let value = value.copy(alloc)?;
            parts.insert(place, Part { value, stores })?;
        }
    }
    Ok(())
}

/// Adds the shares of a store, so many times as each choice weighs, each to the store behind the choice.
///
/// `into` is the place of the variable that takes the value; without one the store stays. A value that isn't of the
/// variable's type leads nowhere. The parts of earlier stores mostly have the same values in the same order, so that a
/// choice finds its part with no search.
pub fn add_shares(
    alloc: Global,
    shape: &Shape,
    into: Option<usize>,
    parts: &mut Vec<Part>,
    store: u64,
    share: u128,
    choices: &[Weighted],
) -> Result<(), Mem>
    requires variable { IfSome into (λ slot. slot < length (shape_types shape.now)) }
    requires store { store < shape_size shape.now }
    requires formed { All (λ w. IsWellFormed w.value) (map weighted_tree choices.now) }
    requires ascending { PartsAscend (map part_of parts.old.items) }
    requires below { PartsBelow (shape_size shape.now) (map part_of parts.old.items) }
    requires within { parts_sum (map part_of parts.old.items) + share * total (map weighted_tree choices.now) < 2 ^ 127 }
    ensures shares { OnOk result (map part_of parts.new.items
        ≡ with_shares (lead_of (shape_types shape.now) into) (map part_of parts.old.items) store share (map weighted_tree choices.now)) }
    ensures below { OnOk result (PartsBelow (shape_size shape.now) (map part_of parts.new.items)) }
{
    for (i, choice) in choices.iter().enumerate() {
        if let Some(after) = store_behind(shape, into, store, &choice.value) {
            add_part(alloc, parts, i, &choice.value, after, share * choice.weight)?;
        }
    }
    Ok(())
}

//! Which secrets of a channel the traces of another one are.

ghost use Rattle.std.specs.Prelude.{◌≡◌, map, true, false, IfOk, MatchOption};
ghost use Rattle.std.specs.List.Sorted.{IsStrictlySortedBy};
ghost use Rattle.kf_value.specs.Views.{value_tree, value_trees};
ghost use Rattle.kf_column.specs.Traces.{trace_order};
ghost use Rattle.kf_capacity.specs.Compositions.{secret_values, place_of, fits, places};
ghost use Rattle.kf_capacity.specs.Views.{channel_tree};

use crate::values::compare_lists;
use kf_channel::Channel;
use kf_value::{Mem, Value, ValueList, values_at};
use std::alloc::Global;

/// For each trace of the first channel the place of its values among the second one's secrets; `None` where some trace has no place.
pub(crate) fn trace_places(
    alloc: Global,
    c: &Channel,
    d: &Channel,
) -> Result<Option<Vec<usize>>, Mem>
    ensures { IfOk result (λ found. MatchOption found (fits (channel_tree c.now) (channel_tree d.now) ≡ false)
        (λ list. (fits (channel_tree c.now) (channel_tree d.now) ≡ true) × (list.items ≡ places (channel_tree c.now) (channel_tree d.now)))) }
{
    let lists = secret_lists(alloc, d)?;
    let mut places = Vec::new(alloc);
    for j in 0..c.columns() {
        let Some(place) = place_of(lists.as_slice(), c.trace(j).as_slice()) else {
            return Ok(None);
        };
        places.push(place)?;
    }
    Ok(Some(places))
}

// The values of each secret, one for each item of the target.
fn secret_lists(alloc: Global, d: &Channel) -> Result<Vec<ValueList>, Mem>
    ensures values { IfOk result (λ lists. map value_trees lists.items ≡ secret_values (channel_tree d.now)) }
    ensures ascending { IfOk result (λ lists. IsStrictlySortedBy trace_order (map value_trees lists.items)) }
{
    let items = d.target().items.as_slice();
    let mut lists = Vec::new(alloc);
    for i in 0..d.rows() {
        lists.push(values_at(alloc, items, d.secret(i))?)?;
    }
    Ok(lists)
}

// The place of the list that is equal to these values.
fn place_of(lists: &[ValueList], values: &[Value]) -> Option<usize>
    requires { IsStrictlySortedBy trace_order (map value_trees lists.now) }
    ensures { result ≡ place_of (map value_trees lists.now) (map value_tree values.now) }
{
    lists
        .binary_search_by(|held| compare_lists(held.as_slice(), values))
        .ok()
}

//! Sets from the members that a literal lists.

ghost use Rattle.std.specs.Prelude.{◌≡◌, ◌≤◌, true, length, map, IfOk, IfSome, OnOk};
ghost use Rattle.std.specs.List.Sorted.{IsStrictlySortedBy};
ghost use Rattle.kf_value.specs.Values.{order};
ghost use Rattle.kf_value.specs.Views.{value_tree};
ghost use Rattle.kf_ops.specs.Values.{inserted};
ghost use Rattle.kf_core.specs.Evaluation.{set_of as members_of};
ghost use Rattle.kf_eval.specs.Insertion.{with_value_at};

use kf_value::{Mem, Value, compare};
use std::alloc::Global;

/// Whether each value comes before the next.
fn ascend(values: &[Value]) -> bool
    ensures { result ≡ true → members_of (map value_tree values.now) ≡ map value_tree values.now }
{
    values.is_sorted_by(|one, other| compare(one, other).is_lt())
}

/// The members in ascending order, each once.
pub fn set_of(alloc: Global, mut members: Vec<Value>) -> Result<Vec<Value>, Mem>
    ensures { IfOk result (λ set. map value_tree set.items ≡ members_of (map value_tree members.items)) }
{
    if ascend(&members) {
        return Ok(members);
    }
    let mut set = Vec::with_capacity(alloc, members.len())?;
    while let Some(member) = members.pop() {
        insert(&mut set, member)?;
    }
    Ok(set)
}

/// Puts a value where it stands in an ascending list, unless the list has it.
fn insert(set: &mut Vec<Value>, value: Value) -> Result<(), Mem>
    requires { IsStrictlySortedBy order (map value_tree set.old.items) }
    ensures { OnOk result (map value_tree set.new.items ≡ inserted (value_tree value) (map value_tree set.old.items)) }
{
    if let Some(place) = place_in(set, &value) {
        set.insert(place, value)?;
    }
    Ok(())
}

/// Where the value is to be put into an ascending list, or `None` where the list has it.
fn place_in(set: &[Value], value: &Value) -> Option<usize>
    requires { IsStrictlySortedBy order (map value_tree set.now) }
    ensures within { IfSome result (λ place. place ≤ length set.now) }
    ensures whole { inserted (value_tree value.now) (map value_tree set.now) ≡ with_value_at result (value_tree value.now) (map value_tree set.now) }
{
    set.binary_search_by(|held| compare(held, value)).err()
}

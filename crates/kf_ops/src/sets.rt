//! Sets as ascending lists.

ghost use Rattle.std.specs.Prelude.{◌≡◌, ◌++◌, ◌∷◌, [], map, if◌then◌else◌, Ok, IfOk, OnOk, MatchOption};
ghost use Rattle.std.specs.List.Sorted.{IsStrictlySortedBy};
ghost use Rattle.kf_value.specs.Values.{Set, order, parts, elements as elements_in};
ghost use Rattle.kf_value.specs.Forms.{IsWellFormed};
ghost use Rattle.kf_value.specs.Views.{value_tree};
ghost use Rattle.kf_ops.specs.Answers.{Answers};
ghost use Rattle.kf_ops.specs.Values.{is_in};
ghost use Rattle.kf_ops.specs.Merging.{IsNext, is_kept, kept_of};
ghost use Rattle.kf_ops.specs.Sets.{are_in};

use crate::arguments::elements;
use crate::fault::OpFault;
use kf_value::{Mem, Value, ValueList, compare};
use std::alloc::Global;
use std::cmp::Ordering;

/// Which elements of two sets make the result.
#[derive(Clone, Copy)]
pub enum Kept {
    /// All.
    Either,
    /// Those of the first that aren't in the second.
    First,
    Both,
}

/// Whether the value is one of the list.
pub fn contains(elements: &[Value], value: &Value) -> bool
    ensures { result ≡ is_in (value_tree value.now) (map value_tree elements.now) }
{
    for element in elements {
        if compare(value, element) == Ordering::Equal {
            return true;
        }
    }
    false
}

/// The least element of two ascending lists, and what is left of them after it.
#[derive(Clone, Copy)]
struct Next<'a> {
    /// In the first list alone, `Less`, in both, `Equal`, or in the second alone, `Greater`.
    side: Ordering,
    value: &'a Value,
    xs: &'a [Value],
    ys: &'a [Value],
}

fn next_of<'a>(xs: &'a [Value], ys: &'a [Value]) -> Option<Next<'a>>
    ensures { MatchOption result ((xs.now ≡ []) × (ys.now ≡ [])) (λ n. IsNext (map value_tree xs.now) (map value_tree ys.now)
        n.side (value_tree n.value.now) (map value_tree n.xs.now) (map value_tree n.ys.now)) }
{
    match (xs, ys) {
        ([], []) => None,
        ([x, rest @ ..], []) => Some(Next {
            side: Ordering::Less,
            value: x,
            xs: rest,
            ys,
        }),
        ([], [y, rest @ ..]) => Some(Next {
            side: Ordering::Greater,
            value: y,
            xs,
            ys: rest,
        }),
        ([x, after_x @ ..], [y, after_y @ ..]) => match compare(x, y) {
            Ordering::Less => Some(Next {
                side: Ordering::Less,
                value: x,
                xs: after_x,
                ys,
            }),
            Ordering::Equal => Some(Next {
                side: Ordering::Equal,
                value: x,
                xs: after_x,
                ys: after_y,
            }),
            Ordering::Greater => Some(Next {
                side: Ordering::Greater,
                value: y,
                xs,
                ys: after_y,
            }),
        },
    }
}

/// Whether elements of this side are kept.
fn keeps(kept: Kept, side: Ordering) -> bool
    ensures { result ≡ is_kept kept side }
{
    match kept {
        Kept::Either => true,
        Kept::First => side == Ordering::Less,
        Kept::Both => side == Ordering::Equal,
    }
}

/// A copy of the value at the end, if it is kept.
fn push_kept(alloc: Global, list: &mut Vec<Value>, value: &Value, is_kept: bool) -> Result<(), Mem>
    ensures { OnOk result (map value_tree list.new.items ≡ map value_tree list.old.items ++ (if is_kept then value_tree value.now ∷ [] else [])) }
{
    if is_kept {
        list.push(value.copy(alloc)?)?;
    }
    Ok(())
}

/// The kept elements of two ascending lists, ascending, in one pass over both.
fn merge(alloc: Global, xs: &[Value], ys: &[Value], kept: Kept) -> Result<Vec<Value>, Mem>
    requires first { IsStrictlySortedBy order (map value_tree xs.now) }
    requires second { IsStrictlySortedBy order (map value_tree ys.now) }
    ensures { IfOk result (λ m. map value_tree m.items ≡ kept_of kept (map value_tree xs.now) (map value_tree ys.now)) }
{
    let mut merged = Vec::new(alloc);
    let mut left = xs;
    let mut right = ys;
    while let Some(next) = next_of(left, right) {
        push_kept(alloc, &mut merged, next.value, keeps(kept, next.side))?;
        left = next.xs;
        right = next.ys;
    }
    Ok(merged)
}

/// The set of the kept elements of two sets.
pub fn combined(alloc: Global, a: &Value, b: &Value, kept: Kept) -> Result<Value, OpFault>
    requires first { IsWellFormed (value_tree a.now) }
    requires second { IsWellFormed (value_tree b.now) }
    ensures { Answers result (Ok (Set (parts (kept_of kept (elements_in (value_tree a.now)) (elements_in (value_tree b.now)))))) }
{
    let merged = merge(alloc, elements(a), elements(b), kept)?;
    Ok(Value::Set(ValueList::new(merged)))
}

/// Whether no element of the first ascending list is missing in the second, in one pass over both.
fn has_all(xs: &[Value], ys: &[Value]) -> bool
    requires first { IsStrictlySortedBy order (map value_tree xs.now) }
    requires second { IsStrictlySortedBy order (map value_tree ys.now) }
    ensures { result ≡ are_in (map value_tree xs.now) (map value_tree ys.now) }
{
    let mut wanted = xs;
    let mut there = ys;
    while let Some(next) = next_of(wanted, there) {
        if next.side == Ordering::Less {
            return false;
        }
        wanted = next.xs;
        there = next.ys;
    }
    true
}

/// Whether each element of the first set is in the second.
pub fn is_subset(a: &Value, b: &Value) -> bool
    requires first { IsWellFormed (value_tree a.now) }
    requires second { IsWellFormed (value_tree b.now) }
    ensures { result ≡ are_in (elements_in (value_tree a.now)) (elements_in (value_tree b.now)) }
{
    has_all(elements(a), elements(b))
}

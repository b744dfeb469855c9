ghost use Rattle.std.specs.Prelude.{◌≡◌, ◌≤◌, ◌<◌, ◌^◌, ◌-◌, ◌++◌, ◌∷◌, [], min, List, length, map, slice_get, None, Some, OnOk, OnErr, IfOk};
ghost use Rattle.std.specs.List.{All};
ghost use Rattle.kf_value.specs.Sizes.{fault_of, HasSize, HasNumber};
ghost use Rattle.kf_value.specs.Values.{ValueTree, Tuple, parts};
ghost use Rattle.kf_value.specs.Types.{count};
ghost use Rattle.kf_value.specs.Texts.{text, separated};
ghost use Rattle.kf_value.specs.Written.{ended};
ghost use Rattle.kf_value.specs.Targets.{target_values, target_value_text};
ghost use Rattle.kf_value.specs.Numbers.{target_size, IsNumberOf};
ghost use Rattle.kf_value.specs.TypeViews.{type_tree, item_of};
ghost use Rattle.kf_value.specs.Views.{value_tree, value_trees, items_of};

use crate::nth::value_at;
use crate::readings::candidate;
use crate::sizes::known_size;
use crate::{Mem, Target, TargetItem, Ty, Value, ValueList};
use itoa::Buffer;
use std::alloc::Global;

/// Appends the text of a value: `true`, `-7`, `(1, true)`, `{0, 2}`, `{}`. After `Mem` `out` is as before.
pub fn print_value(alloc: Global, v: &Value, out: &mut Vec<u8>) -> Result<(), Mem>
    ensures printed { OnOk result (out.new.items ≡ out.old.items ++ text (value_tree v.now)) }
    ensures kept { OnErr result (out.new.items ≡ out.old.items) }
{
    let mut bytes = Vec::new(alloc);
    write_value(v, &mut bytes)?;
    out.extend_from_slice(&bytes)?;
    Ok(())
}

/// Appends the text of the target's value with the number `n`. After `Mem` `out` is as before.
pub fn print_target(alloc: Global, target: &Target, n: u64, out: &mut Vec<u8>) -> Result<(), Mem>
    requires { n < target_size (items_of target.now) }
    ensures printed { OnOk result (out.new.items ≡ out.old.items ++ target_value_text (items_of target.now) n) }
    ensures kept { OnErr result (out.new.items ≡ out.old.items) }
{
    let mut bytes = Vec::new(alloc);
    write_target(alloc, target, n, &mut bytes)?;
    out.extend_from_slice(&bytes)?;
    Ok(())
}

/// Appends the text of the target's value with the number `n`. After `Mem` `out` may have a part of it.
pub fn write_target(alloc: Global, target: &Target, n: u64, out: &mut Vec<u8>) -> Result<(), Mem>
    requires { n < target_size (items_of target.now) }
    ensures printed { OnOk result (out.new.items ≡ out.old.items ++ target_value_text (items_of target.now) n) }
{
    let items = target.items.as_slice();
    if items.len() == 1 {
        write_nth(alloc, &items[0].ty, n as u32, out)
    } else {
        write_in_parentheses(alloc, items, n, out)
    }
}

#[cycle(write_value)]
#[tactic(auto, using(crate::proofs::Trees::shown_values))]
fn write_value(v: &Value, out: &mut Vec<u8>) -> Result<(), Mem>
    ensures { OnOk result (out.new.items ≡ out.old.items ++ text (value_tree v.now)) }
{
    match v {
        Value::Bool(truth) => write_bytes(if *truth { b"true" } else { b"false" }, out),
        Value::Int(whole) => write_bytes(Buffer::new().format(*whole).as_bytes(), out),
        Value::Tuple(parts) => write_between(b'(', parts.as_slice(), b')', out),
        Value::Set(elements) => write_between(b'{', elements.as_slice(), b'}', out),
    }
}

fn write_bytes(bytes: &[u8], out: &mut Vec<u8>) -> Result<(), Mem>
    ensures { OnOk result (out.new.items ≡ out.old.items ++ bytes.now) }
{
    out.extend_from_slice(bytes)?;
    Ok(())
}

/// Writes the texts of the values with a comma and a space between them, after an opening byte and before a closing one.
#[cycle(write_value)]
fn write_between(opening: u8, values: &[Value], closing: u8, out: &mut Vec<u8>) -> Result<(), Mem>
    ensures { OnOk result (out.new.items ≡ out.old.items ++ opening ∷ separated (map text (map value_tree values.now)) ++ closing ∷ []) }
{
    out.push(opening)?;
    write_separated(values, out)?;
    out.push(closing)?;
    Ok(())
}

/// Writes the texts of the values with a comma and a space between them.
#[cycle(write_value)]
fn write_separated(values: &[Value], out: &mut Vec<u8>) -> Result<(), Mem>
    ensures { OnOk result (out.new.items ≡ out.old.items ++ separated (map text (map value_tree values.now))) }
{
    let [first, others @ ..] = values else {
        return Ok(());
    };
    write_value(first, out)?;
    for value in others {
        out.extend_from_slice(b", ")?;
        write_value(value, out)?;
    }
    Ok(())
}

/// Writes the text of the type's value with the number `n`.
fn write_nth(alloc: Global, ty: &Ty, n: u32, out: &mut Vec<u8>) -> Result<(), Mem>
    requires sized { HasSize (type_tree ty.now) }
    requires below { n < count (type_tree ty.now) }
    ensures { OnOk result ((v : ValueTree) → HasNumber (type_tree ty.now) v n → out.new.items ≡ out.old.items ++ text v) }
{
    let value = value_at(alloc, ty, n)?;
    write_value(&value, out)
}

/// Writes the texts of the values at place `n` of the items' lists of values: behind the last one `end`, and behind each
/// other one a comma and a space. The last item's number is the last digit of `n`, so each item takes one division.
#[cycle(write_items)]
fn write_items(
    alloc: Global,
    items: &[TargetItem],
    n: u64,
    end: &[u8],
    out: &mut Vec<u8>,
) -> Result<(), Mem>
    requires sized { All (λ i. fault_of (item_of i).ty ≡ None) items.now }
    requires below { n < target_size (map item_of items.now) }
    ensures { OnOk result ((vs : List ValueTree) → slice_get (target_values (map item_of items.now)) n ≡ Some vs
        → out.new.items ≡ out.old.items ++ ended end.now (map text vs)) }
{
    let [front @ .., last] = items else {
        return Ok(());
    };
    let size = u64::from(known_size(&last.ty));
    let before = n / size;
    write_items(alloc, front, before, b", ", out)?;
    write_nth(alloc, &last.ty, (n - before * size) as u32, out)?;
    out.extend_from_slice(end)?;
    Ok(())
}

fn write_in_parentheses(
    alloc: Global,
    items: &[TargetItem],
    n: u64,
    out: &mut Vec<u8>,
) -> Result<(), Mem>
    requires some { 1 ≤ length items.now }
    requires sized { All (λ i. fault_of (item_of i).ty ≡ None) items.now }
    requires below { n < target_size (map item_of items.now) }
    ensures { OnOk result ((vs : List ValueTree) → slice_get (target_values (map item_of items.now)) n ≡ Some vs
        → out.new.items ≡ out.old.items ++ text (Tuple (parts vs))) }
{
    out.push(b'(')?;
    write_items(alloc, items, n, b")", out)
}

/// The values at place `n`, from 0, of all lists of values, one for each item, in their order.
pub fn values_at(alloc: Global, items: &[TargetItem], n: u64) -> Result<ValueList, Mem>
    requires sized { All (λ i. fault_of (item_of i).ty ≡ None) items.now }
    requires below { n < target_size (map item_of items.now) }
    requires fits { target_size (map item_of items.now) ≤ 2 ^ 63 }
    ensures { IfOk result (λ vs. slice_get (target_values (map item_of items.now)) n ≡ Some (value_trees vs)) }
{
    let mut values = Vec::with_capacity(alloc, items.len())?;
    let mut weight = value_count(items);
    for item in items {
        let size = u64::from(known_size(&item.ty));
        weight /= size;
        values.push(value_at(alloc, &item.ty, (n / weight % size) as u32)?)?;
    }
    Ok(ValueList::new(values))
}

/// The number of the items' values, or as much of it as 64 bits hold.
fn value_count(items: &[TargetItem]) -> u64
    requires { All (λ i. fault_of (item_of i).ty ≡ None) items.now }
    ensures { result ≡ min (target_size (map item_of items.now)) (2 ^ 64 - 1) }
{
    let mut count: u64 = 1;
    for item in items {
        count = count.saturating_mul(u64::from(known_size(&item.ty)));
    }
    count
}

/// The number of the target's value that prints as the text, or `None` where no value does.
///
/// It reads the text once along the target's types, an element of a set at most once for each value of the set's base,
/// and prints the value that it found.
pub fn number_of(alloc: Global, target: &Target, text: &str) -> Result<Option<u64>, Mem>
    ensures { IfOk result (λ found. IsNumberOf (items_of target.now) text.now found) }
{
    let items = target.items.as_slice();
    let Some(n) = candidate(items, text.as_bytes()) else {
        return Ok(None);
    };
    if n >= value_count(items) {
        return Ok(None);
    }
    let mut printed = Vec::new(alloc);
    print_target(alloc, target, n, &mut printed)?;
    if printed.as_slice() == text.as_bytes() {
        Ok(Some(n))
    } else {
        Ok(None)
    }
}

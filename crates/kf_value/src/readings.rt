//! The number that a text may have among the values of a type, read along the type. Each value's text has the value's
//! number; another text may have one too, so the caller compares.

ghost use Rattle.std.specs.Prelude.{◌≡◌, ◌≢◌, ◌<◌, ◌≤◌, ◌^◌, ◌+◌, ◌*◌, ◌++◌, ◌∷◌, ℕ, true, List, map, length, None, Some, IsTrue};
ghost use Rattle.std.specs.List.{All, list_all};
ghost use Rattle.kf_value.specs.Values.{ValueTree};
ghost use Rattle.kf_value.specs.Texts.{text};
ghost use Rattle.kf_value.specs.Types.{type_parts, Boolean, Range, TupleOf, SetOf, values, count, in_bounds};
ghost use Rattle.kf_value.specs.Sizes.{fault_of, HasSize, HasNumber};
ghost use Rattle.kf_value.specs.Targets.{target_value_text};
ghost use Rattle.kf_value.specs.Numbers.{target_size};
ghost use Rattle.kf_value.specs.Readings.{is_numeric, Stops, IsLeft, IsRead, row, further, ReadsValues, ReadsRows, ReadsParts};
ghost use Rattle.kf_value.specs.TypeViews.{type_tree, item_of};

use crate::numbers::number_in_range;
use crate::sizes::known_size;
use crate::{TargetItem, Ty};

/// The number that the text may have among the values of the items.
pub(crate) fn candidate(items: &[TargetItem], bytes: &[u8]) -> Option<u64>
    requires sized { All (λ i. fault_of (item_of i).ty ≡ None) items.now }
    requires fits { target_size (map item_of items.now) ≤ 2 ^ 63 }
    ensures { (n : ℕ) → n < target_size (map item_of items.now) → target_value_text (map item_of items.now) n ≡ bytes.now → result ≡ Some n }
{
    let (n, _) = if items.len() == 1 {
        read_value(&items[0].ty, bytes)?
    } else {
        read_items(items, bytes.strip_prefix(b"(")?)?
    };
    Some(n)
}

/// Mixed radix over the sizes of the items' types, the first one most significant.
fn read_items<'a>(items: &[TargetItem], bytes: &'a [u8]) -> Option<(u64, &'a [u8])>
    requires sized { All (λ i. fault_of (item_of i).ty ≡ None) items.now }
    requires fits { target_size (map item_of items.now) ≤ 2 ^ 63 }
    ensures { ReadsRows (map (λ i. (item_of i).ty) items.now) bytes.now result }
{
    let mut n = 0;
    let mut rest = bytes;
    for item in items {
        (n, rest) = read_part(&item.ty, n, rest)?;
    }
    Some((n, rest))
}

/// The number of the value with which the text begins, and what follows it.
#[cycle(read_value)]
#[tactic(auto, using(crate::proofs::Trees::constructors))]
fn read_value<'a>(ty: &Ty, bytes: &'a [u8]) -> Option<(u64, &'a [u8])>
    requires { HasSize (type_tree ty.now) }
    ensures { ReadsValues (type_tree ty.now) bytes.now result }
{
    match ty {
        Ty::Bool => read_truth(bytes),
        Ty::Int { lo, hi } => read_whole(*lo, *hi, bytes),
        Ty::Tuple(types) => read_tuple(types.as_slice(), bytes),
        Ty::Set(base) => read_set(base, bytes),
    }
}

fn read_truth(bytes: &[u8]) -> Option<(u64, &[u8])>
    ensures { ReadsValues Boolean bytes.now result }
{
    match bytes.strip_prefix(b"true") {
        Some(rest) => Some((1, rest)),
        None => Some((0, bytes.strip_prefix(b"false")?)),
    }
}

fn read_whole(lo: i64, hi: i64, bytes: &[u8]) -> Option<(u64, &[u8])>
    requires { IsTrue (in_bounds lo hi) }
    ensures { ReadsValues (Range lo hi) bytes.now result }
{
    let (front, rest) = bytes.split_at(numeric_length(bytes));
    let whole = str::from_utf8(front).ok()?.parse::<i64>().ok()?;
    Some((u64::from(number_in_range(lo, hi, whole)?), rest))
}

/// How many digits and signs the text begins with.
fn numeric_length(bytes: &[u8]) -> usize
    ensures within { result ≤ length bytes.now }
    ensures front { (ds r : List ℕ) → list_all is_numeric ds ≡ true → Stops r → bytes.now ≡ ds ++ r → result ≡ length ds }
{
    for i in 0..bytes.len() {
        if !is_numeric(bytes[i]) {
            return i;
        }
    }
    bytes.len()
}

fn is_numeric(byte: u8) -> bool
    ensures { result ≡ is_numeric byte }
{
    byte.is_ascii_digit() || byte == b'-'
}

#[cycle(read_value)]
fn read_tuple<'a>(types: &[Ty], bytes: &'a [u8]) -> Option<(u64, &'a [u8])>
    requires { HasSize (TupleOf (type_parts (map type_tree types.now))) }
    ensures { ReadsValues (TupleOf (type_parts (map type_tree types.now))) bytes.now result }
{
    let (n, rest) = read_parts(types, bytes.strip_prefix(b"(")?)?;
    Some((n, rest.strip_prefix(b")")?))
}

/// Mixed radix over the sizes of the types, the first one most significant.
#[cycle(read_value)]
fn read_parts<'a>(types: &[Ty], bytes: &'a [u8]) -> Option<(u64, &'a [u8])>
    requires { HasSize (TupleOf (type_parts (map type_tree types.now))) }
    ensures { ReadsRows (map type_tree types.now) bytes.now result }
{
    let mut n = 0;
    let mut rest = bytes;
    for ty in types {
        (n, rest) = read_part(ty, n, rest)?;
    }
    Some((n, rest))
}

/// One more digit behind the number `n` of the parts before, and what follows the part and its comma.
#[cycle(read_value)]
fn read_part<'a>(ty: &Ty, n: u64, bytes: &'a [u8]) -> Option<(u64, &'a [u8])>
    requires { HasSize (type_tree ty.now) }
    ensures { (k : ℕ) (v : ValueTree) (vs : List ValueTree) (r : List ℕ) → HasNumber (type_tree ty.now) v k → bytes.now ≡ text v ++ further vs 41 r
        → n * count (type_tree ty.now) + k < 2 ^ 64 → IsRead result (n * count (type_tree ty.now) + k) (row vs 41 r) }
{
    let (k, rest) = read_value(ty, bytes)?;
    let size = u64::from(known_size(ty));
    Some((n.saturating_mul(size).saturating_add(k), past_comma(rest)))
}

/// The text behind the comma and the space with which it may begin.
fn past_comma(bytes: &[u8]) -> &[u8]
    ensures { (vs : List ValueTree) (c : ℕ) (r : List ℕ) → c ≢ 44 → bytes.now ≡ further vs c r → result.now ≡ row vs c r }
{
    match bytes.strip_prefix(b", ") {
        Some(rest) => rest,
        None => bytes,
    }
}

#[cycle(read_value)]
fn read_set<'a>(base: &Ty, bytes: &'a [u8]) -> Option<(u64, &'a [u8])>
    requires { HasSize (SetOf (type_tree base.now)) }
    ensures { ReadsValues (SetOf (type_tree base.now)) bytes.now result }
{
    let (n, rest) = read_elements(base, bytes.strip_prefix(b"{")?);
    Some((n, rest.strip_prefix(b"}")?))
}

/// An element with the number k weighs `2^k`.
#[cycle(read_value)]
fn read_elements<'a>(base: &Ty, bytes: &'a [u8]) -> (u64, &'a [u8])
    requires { HasSize (SetOf (type_tree base.now)) }
    ensures { ReadsParts (values (type_tree base.now)) bytes.now result }
{
    let mut n = 0;
    let mut rest = bytes;
    for k in 0..known_size(base) {
        if let Some(after) = past_element(base, k, rest) {
            n += 1 << k;
            rest = past_comma(after);
        }
    }
    (n, rest)
}

/// What follows the element with the number `k`, if the text begins with it.
#[cycle(read_value)]
fn past_element<'a>(base: &Ty, k: u32, bytes: &'a [u8]) -> Option<&'a [u8]>
    requires { HasSize (type_tree base.now) }
    ensures taken { (v : ValueTree) (r : List ℕ) → HasNumber (type_tree base.now) v k → Stops r → bytes.now ≡ text v ++ r → IsLeft result r }
    ensures passed { (j : ℕ) (v : ValueTree) (r : List ℕ) → HasNumber (type_tree base.now) v j → j ≢ k → Stops r → bytes.now ≡ text v ++ r
        → result ≡ None }
    ensures closed { (r : List ℕ) → bytes.now ≡ 125 ∷ r → result ≡ None }
{
    if bytes.first() == Some(&b'}') {
        return None;
    }
    let (found, rest) = read_value(base, bytes)?;
    if found == u64::from(k) {
        Some(rest)
    } else {
        None
    }
}

ghost use Rattle.std.specs.Prelude.{◌<◌, map, IfSome, IsTrue};
ghost use Rattle.kf_value.specs.Values.{Whole, Tuple, Set, parts as value_parts};
ghost use Rattle.kf_value.specs.Forms.{IsWellFormed};
ghost use Rattle.kf_value.specs.Types.{type_parts, Range, TupleOf, SetOf, count, values, in_bounds};
ghost use Rattle.kf_value.specs.Sizes.{HasSize, IsPlaceIn};
ghost use Rattle.kf_value.specs.TypeViews.{type_tree};
ghost use Rattle.kf_value.specs.Views.{value_tree};

use crate::sizes::known_size;
use crate::{Ty, Value};

/// The number of a value in its type: its place, from 0, among the type's values in their order. `None` where the value
/// is not of the type.
#[cycle(number)]
#[tactic(auto, using(crate::proofs::Trees::constructors))]
pub fn number(ty: &Ty, v: &Value) -> Option<u32>
    requires sized { HasSize (type_tree ty.now) }
    requires formed { IsWellFormed (value_tree v.now) }
    ensures place { IsPlaceIn (values (type_tree ty.now)) (value_tree v.now) result }
    ensures below { IfSome result (λ n. n < count (type_tree ty.now)) }
{
    match (ty, v) {
        (Ty::Bool, Value::Bool(truth)) => Some(u32::from(*truth)),
        (Ty::Int { lo, hi }, Value::Int(whole)) => number_in_range(*lo, *hi, *whole),
        (Ty::Tuple(types), Value::Tuple(parts)) => {
            number_of_parts(types.as_slice(), parts.as_slice())
        }
        (Ty::Set(base), Value::Set(elements)) => number_of_elements(base, elements.as_slice()),
        _ => None,
    }
}

/// The place in the range.
pub(crate) fn number_in_range(lo: i64, hi: i64, whole: i64) -> Option<u32>
    requires { IsTrue (in_bounds lo hi) }
    ensures place { IsPlaceIn (values (Range lo hi)) (Whole whole) result }
    ensures below { IfSome result (λ n. n < count (Range lo hi)) }
{
    if lo <= whole && whole <= hi {
        Some((whole - lo) as u32)
    } else {
        None
    }
}

/// Mixed radix over the sizes of the types, the first one most significant.
#[cycle(number)]
fn number_of_parts(types: &[Ty], parts: &[Value]) -> Option<u32>
    requires sized { HasSize (TupleOf (type_parts (map type_tree types.now))) }
    requires formed { IsWellFormed (Tuple (value_parts (map value_tree parts.now))) }
    ensures place { IsPlaceIn (values (TupleOf (type_parts (map type_tree types.now)))) (Tuple (value_parts (map value_tree parts.now))) result }
    ensures below { IfSome result (λ n. n < count (TupleOf (type_parts (map type_tree types.now)))) }
{
    if types.len() != parts.len() {
        return None;
    }
    let mut n = 0;
    for i in 0..types.len() {
        let ty = &types[i];
        let part = &parts[i];
        n = n * known_size(ty) + number(ty, part)?;
    }
    Some(n)
}

/// An element with the number k weighs `2^k`.
#[cycle(number)]
fn number_of_elements(base: &Ty, elements: &[Value]) -> Option<u32>
    requires sized { HasSize (SetOf (type_tree base.now)) }
    requires formed { IsWellFormed (Set (value_parts (map value_tree elements.now))) }
    ensures place { IsPlaceIn (values (SetOf (type_tree base.now))) (Set (value_parts (map value_tree elements.now))) result }
    ensures below { IfSome result (λ n. n < count (SetOf (type_tree base.now))) }
{
    let mut n = 0;
    for element in elements {
        n += 1 << number(base, element)?;
    }
    Some(n)
}

ghost use Rattle.std.specs.Prelude.{◌<◌, map, IfOk, IsTrue};
ghost use Rattle.kf_value.specs.Values.{Tuple, Set, parts as value_parts};
ghost use Rattle.kf_value.specs.Forms.{IsWellFormed};
ghost use Rattle.kf_value.specs.Types.{type_parts, TupleOf, SetOf, count};
ghost use Rattle.kf_value.specs.Sizes.{well_formed, HasSize, HasNumber};
ghost use Rattle.kf_value.specs.TypeViews.{type_tree};
ghost use Rattle.kf_value.specs.Views.{value_tree, value_trees};

use crate::sizes::{known_product, known_size};
use crate::{Mem, Ty, Value, ValueList};
use std::alloc::Global;

/// The value of the type with the number `n`, counted from 0.
#[cycle(value_at)]
#[tactic(auto, using(crate::proofs::Trees::constructors, crate::proofs::Finding::formed_value))]
pub fn value_at(alloc: Global, ty: &Ty, n: u32) -> Result<Value, Mem>
    requires sized { HasSize (type_tree ty.now) }
    requires below { n < count (type_tree ty.now) }
    ensures place { IfOk result (λ v. HasNumber (type_tree ty.now) (value_tree v) n) }
    ensures formed { IsTrue (well_formed (type_tree ty.now)) → IfOk result (λ v. IsWellFormed (value_tree v)) }
{
    match ty {
        Ty::Bool => Ok(Value::Bool(n == 1)),
        Ty::Int { lo, .. } => Ok(Value::Int(*lo + i64::from(n))),
        Ty::Tuple(types) => Ok(Value::Tuple(parts_at(alloc, types.as_slice(), n)?)),
        Ty::Set(base) => Ok(Value::Set(elements_at(alloc, base, n)?)),
    }
}

/// The digits of `n` in mixed radix over the sizes, as values.
#[cycle(value_at)]
fn parts_at(alloc: Global, types: &[Ty], n: u32) -> Result<ValueList, Mem>
    requires sized { HasSize (TupleOf (type_parts (map type_tree types.now))) }
    requires below { n < count (TupleOf (type_parts (map type_tree types.now))) }
    ensures { IfOk result (λ vs. HasNumber (TupleOf (type_parts (map type_tree types.now))) (Tuple (value_parts (value_trees vs))) n) }
{
    let mut parts = Vec::new(alloc);
    let mut weight = known_product(types);
    for ty in types {
        let size = known_size(ty);
        weight /= size;
        parts.push(value_at(alloc, ty, n / weight % size)?)?;
    }
    Ok(ValueList::new(parts))
}

/// The base's values at the places where `n` has a binary 1.
#[cycle(value_at)]
fn elements_at(alloc: Global, base: &Ty, n: u32) -> Result<ValueList, Mem>
    requires sized { HasSize (SetOf (type_tree base.now)) }
    requires below { n < count (SetOf (type_tree base.now)) }
    ensures { IfOk result (λ vs. HasNumber (SetOf (type_tree base.now)) (Set (value_parts (value_trees vs))) n) }
{
    let mut elements = Vec::new(alloc);
    let mut left = n;
    for k in 0..known_size(base) {
        if left % 2 == 1 {
            elements.push(value_at(alloc, base, k)?)?;
        }
        left /= 2;
    }
    Ok(ValueList::new(elements))
}

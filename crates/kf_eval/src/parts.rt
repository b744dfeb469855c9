//! What values hold, and what a store gives a variable.

ghost use Rattle.std.specs.Prelude.{◌≡◌, ◌<◌, length, slice_get, Some, IfOk, IfSome};
ghost use Rattle.kf_value.specs.Forms.{IsWellFormed};
ghost use Rattle.kf_value.specs.Shapes.{shape_types, shape_size};
ghost use Rattle.kf_value.specs.Values.{Truth, Whole};
ghost use Rattle.kf_value.specs.Views.{value_tree};
ghost use Rattle.kf_ops.specs.Rows.{operators as rows};
ghost use Rattle.kf_core.specs.Runs.{store_at};
ghost use Rattle.kf_core.specs.Evaluation.{operator_at as operator_of, part_of};
ghost use Rattle.kf_eval.specs.Kinds.{HasPart};

use kf_ops::{Op, operator_at};
use kf_value::{Mem, Shape, Ty, Value, value_at};
use std::alloc::Global;

/// The operator of a row of the table.
pub fn code_at(row: usize) -> Op
    requires { row < length rows }
    ensures { operator_of row ≡ Some result }
{
    operator_at(row)
}

/// A part of a tuple, counted from 0.
pub fn part_at(alloc: Global, value: &Value, k: usize) -> Result<Value, Mem>
    requires { HasPart (value_tree value.now) k }
    ensures { IfOk result (λ part. value_tree part ≡ part_of k (value_tree value.now)) }
{
    match value {
        Value::Tuple(parts) => parts.as_slice()[k].copy(alloc),
        _ => unreachable!(),
    }
}

/// The value of the variable at `i` in a store.
pub fn value_in(alloc: Global, shape: &Shape, store: u64, i: usize) -> Result<Value, Mem>
    requires store { store < shape_size shape.now }
    requires within { i < length (shape_types shape.now) }
    ensures value { IfOk result (λ v. slice_get (store_at (shape_types shape.now) store) i ≡ Some (value_tree v)) }
    ensures formed { IfOk result (λ v. IsWellFormed (value_tree v)) }
{
    let ty = &shape.types().as_slice()[i];
    value_at(alloc, ty, shape.slot(store, i))
}

/// The whole number that the variable at `i` holds in a store, where it is of such a type.
pub(crate) fn whole_in_slot(shape: &Shape, store: u64, i: usize) -> Option<i64>
    requires store { store < shape_size shape.now }
    requires within { i < length (shape_types shape.now) }
    ensures { IfSome result (λ z. slice_get (store_at (shape_types shape.now) store) i ≡ Some (Whole z)) }
{
    match &shape.types().as_slice()[i] {
        Ty::Int { lo, .. } => Some(*lo + i64::from(shape.slot(store, i))),
        Ty::Bool | Ty::Tuple(_) | Ty::Set(_) => None,
    }
}

/// The truth that the variable at `i` holds in a store, where it is of that type.
pub(crate) fn truth_in_slot(shape: &Shape, store: u64, i: usize) -> Option<bool>
    requires store { store < shape_size shape.now }
    requires within { i < length (shape_types shape.now) }
    ensures { IfSome result (λ b. slice_get (store_at (shape_types shape.now) store) i ≡ Some (Truth b)) }
{
    match &shape.types().as_slice()[i] {
        Ty::Bool => Some(shape.slot(store, i) == 1),
        Ty::Int { .. } | Ty::Tuple(_) | Ty::Set(_) => None,
    }
}

//! The value of an expression in a store.

ghost use Rattle.std.specs.Prelude.{◌≡◌, ◌<◌, List, length, map, IfOk, MatchResult, Ok};
ghost use Rattle.kf_value.specs.Values.{ValueTree};
ghost use Rattle.kf_value.specs.Forms.{IsWellFormed, HasKind};
ghost use Rattle.kf_value.specs.Kinds.{KindTree};
ghost use Rattle.kf_value.specs.Shapes.{shape_types, shape_size};
ghost use Rattle.kf_value.specs.Numbers.{IsStore};
ghost use Rattle.kf_value.specs.Views.{value_tree};
ghost use Rattle.kf_core.specs.Runs.{store_at};
ghost use Rattle.kf_core.specs.Exs.{Apply, SetOf, Tuple};
ghost use Rattle.kf_core.specs.Views.{ex_tree};
ghost use Rattle.kf_core.specs.Evaluation.{ev, evs, all_values, operated, operator_at};
ghost use Rattle.kf_core.specs.Checked.{Kinded};
ghost use Rattle.kf_core.specs.Each.{exs as exs_tree};
ghost use Rattle.kf_ops.specs.Fitting.{FitsRow};
ghost use Rattle.kf_ops.specs.Places.{IsRow};
ghost use Rattle.kf_ops.specs.Rows.{Row};
ghost use Rattle.kf_ops.specs.Values.{applied};
ghost use Rattle.kf_ops.specs.declared.row.Op.TheVariants as op;
ghost use Rattle.kf_eval.specs.Answers.{Answers, IsFaultOf, at_all};
ghost use Rattle.kf_eval.specs.Kinds.{shape_kinds, IsKinded, AreKinded};

use crate::fault::EvalError;
use crate::parts::{code_at, part_at, value_in};
use crate::scalars::scalar_of;
use crate::sets::set_of;
use kf_core::{Ex, evaluation_laws};
use kf_ops::{Op, apply};
use kf_value::{Shape, Value, ValueList, is_true};
use std::alloc::Global;

/// The value of a checked expression in a store, named by its number in the shape.
///
/// Arguments are evaluated from left to right, and the first fault decides. `or`, `and` and `cond` evaluate only what
/// decides.
pub fn eval(alloc: Global, e: &Ex, shape: &Shape, store: u64) -> Result<Value, EvalError>
    requires store { store < shape_size shape.now }
    requires kinded { (k : KindTree) × Kinded (shape_kinds shape.now) (ex_tree e.now) k }
    ensures value { (s : List ValueTree) → IsStore (shape_types shape.now) store s → Answers result (ev s (ex_tree e.now)) }
    ensures kind { (k : KindTree) → Kinded (shape_kinds shape.now) (ex_tree e.now) k
        → IfOk result (λ v. HasKind (value_tree v) k × IsWellFormed (value_tree v)) }
{
    evaluation_laws();
    match scalar_of(e, shape, store) {
        Some(value) => Ok(value),
        None => value_of(alloc, e, shape, store),
    }
}

#[cycle(eval)]
fn value_of(alloc: Global, e: &Ex, shape: &Shape, store: u64) -> Result<Value, EvalError>
    requires store { store < shape_size shape.now }
    requires kinded { IsKinded (shape_kinds shape.now) (ex_tree e.now) }
    ensures { Answers result (ev (store_at (shape_types shape.now) store) (ex_tree e.now)) }
{
    match e {
        Ex::Const(value) => value.copy(alloc).map_err(EvalError::from),
        Ex::Slot(i) => value_in(alloc, shape, store, usize::from(*i)).map_err(EvalError::from),
        Ex::Apply { row, args } => {
            operation(alloc, usize::from(*row), args.as_slice(), shape, store)
        }
        Ex::Tuple(parts) => tuple(alloc, parts.as_slice(), shape, store),
        Ex::SetOf(members) => set(alloc, members.as_slice(), shape, store),
        Ex::Part { of, k } => {
            evaluation_laws();
            let whole = value_of(alloc, of, shape, store)?;
            part_at(alloc, &whole, *k as usize).map_err(EvalError::from)
        }
    }
}

#[cycle(eval)]
fn tuple(alloc: Global, parts: &[Ex], shape: &Shape, store: u64) -> Result<Value, EvalError>
    requires store { store < shape_size shape.now }
    requires kinded { IsKinded (shape_kinds shape.now) (Tuple (exs_tree (map ex_tree parts.now))) }
    ensures { Answers result (ev (store_at (shape_types shape.now) store) (Tuple (exs_tree (map ex_tree parts.now)))) }
{
    let values = values_of(alloc, parts, shape, store)?;
    Ok(Value::Tuple(ValueList::new(values)))
}

#[cycle(eval)]
fn set(alloc: Global, members: &[Ex], shape: &Shape, store: u64) -> Result<Value, EvalError>
    requires store { store < shape_size shape.now }
    requires kinded { IsKinded (shape_kinds shape.now) (SetOf (exs_tree (map ex_tree members.now))) }
    ensures { Answers result (ev (store_at (shape_types shape.now) store) (SetOf (exs_tree (map ex_tree members.now)))) }
{
    let values = values_of(alloc, members, shape, store)?;
    Ok(Value::Set(ValueList::new(set_of(alloc, values)?)))
}

/// The values from left to right.
#[cycle(eval)]
#[tactic(auto, using(crate::proofs::Checking::item_kinded))]
fn values_of(alloc: Global, exs: &[Ex], shape: &Shape, store: u64) -> Result<Vec<Value>, EvalError>
    requires store { store < shape_size shape.now }
    requires kinded { AreKinded (shape_kinds shape.now) (map ex_tree exs.now) }
    ensures { let defined = all_values (evs (store_at (shape_types shape.now) store) (exs_tree (map ex_tree exs.now))) in
        MatchResult result (λ vs. defined ≡ Ok (map value_tree vs.items)) (IsFaultOf defined) }
{
    let mut values = Vec::with_capacity(alloc, exs.len())?;
    for ex in exs {
        values.push(value_of(alloc, ex, shape, store)?)?;
    }
    Ok(values)
}

/// The operator of a row at its arguments.
#[cycle(eval)]
fn operation(
    alloc: Global,
    row: usize,
    args: &[Ex],
    shape: &Shape,
    store: u64,
) -> Result<Value, EvalError>
    requires store { store < shape_size shape.now }
    requires kinded { IsKinded (shape_kinds shape.now) (Apply row (exs_tree (map ex_tree args.now))) }
    ensures { Answers result (ev (store_at (shape_types shape.now) store) (Apply row (exs_tree (map ex_tree args.now)))) }
{
    match code_at(row) {
        Op::Or => or(alloc, args, shape, store),
        Op::And => and(alloc, args, shape, store),
        Op::Cond => cond(alloc, args, shape, store),
        _ => strict(alloc, row, args, shape, store),
    }
}

/// The operator of a row at these values.
fn apply_row(alloc: Global, row: usize, values: &[Value]) -> Result<Value, EvalError>
    requires { FitsRow row (map value_tree values.now) }
    ensures { (r : Row) → IsRow row r → Answers result (applied r.code (map value_tree values.now)) }
{
    Ok(apply(alloc, row, values)?)
}

/// An operator that needs all its arguments.
#[cycle(eval)]
fn strict(
    alloc: Global,
    row: usize,
    args: &[Ex],
    shape: &Shape,
    store: u64,
) -> Result<Value, EvalError>
    requires store { store < shape_size shape.now }
    requires kinded { IsKinded (shape_kinds shape.now) (Apply row (exs_tree (map ex_tree args.now))) }
    ensures { Answers result (at_all (operator_at row) (evs (store_at (shape_types shape.now) store) (exs_tree (map ex_tree args.now)))) }
{
    evaluation_laws();
    match args {
        [x] => {
            let a = value_of(alloc, x, shape, store)?;
            apply_row(alloc, row, &[a])
        }
        [x, y] => {
            let a = value_of(alloc, x, shape, store)?;
            let b = value_of(alloc, y, shape, store)?;
            apply_row(alloc, row, &[a, b])
        }
        _ => {
            let values = values_of(alloc, args, shape, store)?;
            apply_row(alloc, row, &values)
        }
    }
}

/// The second argument is evaluated only where the first is false.
#[cycle(eval)]
fn or(alloc: Global, args: &[Ex], shape: &Shape, store: u64) -> Result<Value, EvalError>
    requires store { store < shape_size shape.now }
    requires two { length args.now ≡ 2 }
    requires kinded { AreKinded (shape_kinds shape.now) (map ex_tree args.now) }
    ensures { Answers result (operated op.Or (evs (store_at (shape_types shape.now) store) (exs_tree (map ex_tree args.now)))) }
{
    let first = value_of(alloc, &args[0], shape, store)?;
    if is_true(&first) {
        Ok(first)
    } else {
        value_of(alloc, &args[1], shape, store)
    }
}

/// The second argument is evaluated only where the first is true.
#[cycle(eval)]
fn and(alloc: Global, args: &[Ex], shape: &Shape, store: u64) -> Result<Value, EvalError>
    requires store { store < shape_size shape.now }
    requires two { length args.now ≡ 2 }
    requires kinded { AreKinded (shape_kinds shape.now) (map ex_tree args.now) }
    ensures { Answers result (operated op.And (evs (store_at (shape_types shape.now) store) (exs_tree (map ex_tree args.now)))) }
{
    let left = value_of(alloc, &args[0], shape, store)?;
    if is_true(&left) {
        value_of(alloc, &args[1], shape, store)
    } else {
        Ok(left)
    }
}

/// Only one of the second and the third argument is evaluated.
#[cycle(eval)]
fn cond(alloc: Global, args: &[Ex], shape: &Shape, store: u64) -> Result<Value, EvalError>
    requires store { store < shape_size shape.now }
    requires three { length args.now ≡ 3 }
    requires kinded { AreKinded (shape_kinds shape.now) (map ex_tree args.now) }
    ensures { Answers result (operated op.Cond (evs (store_at (shape_types shape.now) store) (exs_tree (map ex_tree args.now)))) }
{
    let test = value_of(alloc, &args[0], shape, store)?;
    if is_true(&test) {
        value_of(alloc, &args[1], shape, store)
    } else {
        value_of(alloc, &args[2], shape, store)
    }
}

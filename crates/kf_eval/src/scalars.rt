//! The values of expressions that are truths or whole numbers, with no use of memory.
//!
//! `None` always promises nothing: the value may be of another kind, or there may be a fault.

ghost use Rattle.std.specs.Prelude.{◌≡◌, ◌<◌, length, map, IfSome, Ok};
ghost use Rattle.kf_value.specs.Values.{Truth};
ghost use Rattle.kf_value.specs.Shapes.{shape_types, shape_size};
ghost use Rattle.kf_value.specs.Views.{value_tree};
ghost use Rattle.kf_core.specs.Runs.{store_at};
ghost use Rattle.kf_core.specs.Exs.{Apply};
ghost use Rattle.kf_core.specs.Results.{then_ok};
ghost use Rattle.kf_core.specs.Views.{ex_tree};
ghost use Rattle.kf_core.specs.Evaluation.{ev, evs, all_values, operated};
ghost use Rattle.kf_core.specs.Each.{exs as exs_tree};
ghost use Rattle.kf_ops.specs.Values.{applied};
ghost use Rattle.kf_ops.specs.declared.row.Op.TheVariants as op;
ghost use Rattle.kf_eval.specs.Answers.{Compares};
ghost use Rattle.kf_eval.specs.Kinds.{shape_kinds, IsKinded, AreKinded};
ghost use Rattle.kf_eval.specs.Scalars.{TellsTruth, TellsWhole};

use crate::parts::{code_at, truth_in_slot, whole_in_slot};
use crate::scalar::{truth_in, truth_of_truths, truth_of_wholes, whole_in, whole_of_wholes};
use kf_core::Ex;
use kf_ops::Op;
use kf_value::{Shape, Ty, Value};

/// The whole number that a checked expression has in a store.
#[cycle(whole_of)]
pub(crate) fn whole_of(e: &Ex, shape: &Shape, store: u64) -> Option<i64>
    requires store { store < shape_size shape.now }
    requires kinded { IsKinded (shape_kinds shape.now) (ex_tree e.now) }
    ensures { TellsWhole result (ev (store_at (shape_types shape.now) store) (ex_tree e.now)) }
{
    match e {
        Ex::Const(value) => whole_in(value),
        Ex::Slot(i) => whole_in_slot(shape, store, usize::from(*i)),
        Ex::Apply { row, args } => whole_at(usize::from(*row), args.as_slice(), shape, store),
        Ex::Tuple(_) | Ex::SetOf(_) | Ex::Part { .. } => None,
    }
}

/// The whole number that the operator of a row has at its arguments.
#[cycle(whole_of)]
fn whole_at(row: usize, args: &[Ex], shape: &Shape, store: u64) -> Option<i64>
    requires store { store < shape_size shape.now }
    requires kinded { IsKinded (shape_kinds shape.now) (Apply row (exs_tree (map ex_tree args.now))) }
    ensures { TellsWhole result (ev (store_at (shape_types shape.now) store) (Apply row (exs_tree (map ex_tree args.now)))) }
{
    let code = code_at(row);
    match code {
        Op::Cond => whole_cond(args, shape, store),
        Op::Add
        | Op::Subtract
        | Op::Multiply
        | Op::Div
        | Op::Mod
        | Op::Negate
        | Op::Min
        | Op::Max
        | Op::Abs => from_wholes(code, args, shape, store),
        _ => None,
    }
}

/// An operator that makes a whole number of whole numbers.
#[cycle(whole_of)]
fn from_wholes(code: Op, args: &[Ex], shape: &Shape, store: u64) -> Option<i64>
    requires store { store < shape_size shape.now }
    requires kinded { AreKinded (shape_kinds shape.now) (map ex_tree args.now) }
    ensures { TellsWhole result (then_ok (all_values (evs (store_at (shape_types shape.now) store) (exs_tree (map ex_tree args.now)))) (applied code)) }
{
    match args {
        [x] => {
            let a = whole_of(x, shape, store)?;
            whole_of_wholes(code, a, a)
        }
        [x, y] => {
            let a = whole_of(x, shape, store)?;
            let b = whole_of(y, shape, store)?;
            whole_of_wholes(code, a, b)
        }
        _ => None,
    }
}

/// Only one of the second and the third argument is evaluated.
#[cycle(whole_of)]
fn whole_cond(args: &[Ex], shape: &Shape, store: u64) -> Option<i64>
    requires store { store < shape_size shape.now }
    requires three { length args.now ≡ 3 }
    requires kinded { AreKinded (shape_kinds shape.now) (map ex_tree args.now) }
    ensures { TellsWhole result (operated op.Cond (evs (store_at (shape_types shape.now) store) (exs_tree (map ex_tree args.now)))) }
{
    if truth_of(&args[0], shape, store)? {
        whole_of(&args[1], shape, store)
    } else {
        whole_of(&args[2], shape, store)
    }
}

/// The truth that a checked expression has in a store.
#[cycle(whole_of)]
pub(crate) fn truth_of(e: &Ex, shape: &Shape, store: u64) -> Option<bool>
    requires store { store < shape_size shape.now }
    requires kinded { IsKinded (shape_kinds shape.now) (ex_tree e.now) }
    ensures { TellsTruth result (ev (store_at (shape_types shape.now) store) (ex_tree e.now)) }
{
    match e {
        Ex::Const(value) => truth_in(value),
        Ex::Slot(i) => truth_in_slot(shape, store, usize::from(*i)),
        Ex::Apply { row, args } => truth_at(usize::from(*row), args.as_slice(), shape, store),
        Ex::Tuple(_) | Ex::SetOf(_) | Ex::Part { .. } => None,
    }
}

/// The truth that the operator of a row has at its arguments.
#[cycle(whole_of)]
fn truth_at(row: usize, args: &[Ex], shape: &Shape, store: u64) -> Option<bool>
    requires store { store < shape_size shape.now }
    requires kinded { IsKinded (shape_kinds shape.now) (Apply row (exs_tree (map ex_tree args.now))) }
    ensures { TellsTruth result (ev (store_at (shape_types shape.now) store) (Apply row (exs_tree (map ex_tree args.now)))) }
{
    let code = code_at(row);
    match code {
        Op::Or => or(args, shape, store),
        Op::And => and(args, shape, store),
        Op::Cond => truth_cond(args, shape, store),
        Op::Not | Op::Xor | Op::Implies => from_truths(code, args, shape, store),
        Op::Less | Op::AtMost | Op::Greater | Op::AtLeast => {
            from_order(code, args, shape, store)
        }
        Op::Equal => are_same(args, shape, store),
        Op::NotEqual => match are_same(args, shape, store) {
            Some(same) => Some(!same),
            None => None,
        },
        Op::Elem => is_listed(args, shape, store),
        _ => None,
    }
}

/// An operator that makes a truth of truths, and needs all its arguments.
#[cycle(whole_of)]
fn from_truths(code: Op, args: &[Ex], shape: &Shape, store: u64) -> Option<bool>
    requires store { store < shape_size shape.now }
    requires kinded { AreKinded (shape_kinds shape.now) (map ex_tree args.now) }
    ensures { TellsTruth result (then_ok (all_values (evs (store_at (shape_types shape.now) store) (exs_tree (map ex_tree args.now)))) (applied code)) }
{
    match args {
        [x] => {
            let a = truth_of(x, shape, store)?;
            truth_of_truths(code, a, a)
        }
        [x, y] => {
            let a = truth_of(x, shape, store)?;
            let b = truth_of(y, shape, store)?;
            truth_of_truths(code, a, b)
        }
        _ => None,
    }
}

/// An operator that compares whole numbers.
#[cycle(whole_of)]
fn from_order(code: Op, args: &[Ex], shape: &Shape, store: u64) -> Option<bool>
    requires store { store < shape_size shape.now }
    requires kinded { AreKinded (shape_kinds shape.now) (map ex_tree args.now) }
    ensures { TellsTruth result (then_ok (all_values (evs (store_at (shape_types shape.now) store) (exs_tree (map ex_tree args.now)))) (applied code)) }
{
    match args {
        [x, y] => {
            let a = whole_of(x, shape, store)?;
            let b = whole_of(y, shape, store)?;
            truth_of_wholes(code, a, b)
        }
        _ => None,
    }
}

/// Whether two arguments are equal. Two tuples that are written out are compared part by part, so that neither is made.
#[cycle(whole_of)]
fn are_same(args: &[Ex], shape: &Shape, store: u64) -> Option<bool>
    requires store { store < shape_size shape.now }
    requires two { length args.now ≡ 2 }
    requires kinded { AreKinded (shape_kinds shape.now) (map ex_tree args.now) }
    ensures { IfSome result (Compares (evs (store_at (shape_types shape.now) store) (exs_tree (map ex_tree args.now)))) }
{
    let Ex::Tuple(left) = &args[0] else {
        return are_one(args, shape, store);
    };
    let Ex::Tuple(right) = &args[1] else {
        return None;
    };
    let xs = left.as_slice();
    let ys = right.as_slice();
    if xs.len() != ys.len() {
        return None;
    }
    let mut same = true;
    for i in 0..xs.len() {
        let x = &xs[i];
        let y = &ys[i];
        if is_whole(x, shape) {
            let a = whole_of(x, shape, store)?;
            let b = whole_of(y, shape, store)?;
            same &= a == b;
        } else {
            let first = truth_of(x, shape, store)?;
            let second = truth_of(y, shape, store)?;
            same &= first == second;
        }
    }
    Some(same)
}

/// Whether two arguments are one truth or one whole number.
#[cycle(whole_of)]
fn are_one(args: &[Ex], shape: &Shape, store: u64) -> Option<bool>
    requires store { store < shape_size shape.now }
    requires two { length args.now ≡ 2 }
    requires kinded { AreKinded (shape_kinds shape.now) (map ex_tree args.now) }
    ensures { IfSome result (Compares (evs (store_at (shape_types shape.now) store) (exs_tree (map ex_tree args.now)))) }
{
    let x = &args[0];
    let y = &args[1];
    if is_whole(x, shape) {
        let a = whole_of(x, shape, store)?;
        let b = whole_of(y, shape, store)?;
        Some(a == b)
    } else {
        let first = truth_of(x, shape, store)?;
        let second = truth_of(y, shape, store)?;
        Some(first == second)
    }
}

/// Whether a whole number is one of the members of a set that is written out, so that the set isn't made.
#[cycle(whole_of)]
fn is_listed(args: &[Ex], shape: &Shape, store: u64) -> Option<bool>
    requires store { store < shape_size shape.now }
    requires two { length args.now ≡ 2 }
    requires kinded { AreKinded (shape_kinds shape.now) (map ex_tree args.now) }
    ensures { IfSome result (λ found. operated op.Elem (evs (store_at (shape_types shape.now) store) (exs_tree (map ex_tree args.now))) ≡ Ok (Truth found)) }
{
    let Ex::SetOf(written) = &args[1] else {
        return None;
    };
    let value = whole_of(&args[0], shape, store)?;
    let mut found = false;
    for member in written.as_slice() {
        let other = whole_of(member, shape, store)?;
        found |= value == other;
    }
    Some(found)
}

/// The second argument is evaluated only where the first is false.
#[cycle(whole_of)]
fn or(args: &[Ex], shape: &Shape, store: u64) -> Option<bool>
    requires store { store < shape_size shape.now }
    requires two { length args.now ≡ 2 }
    requires kinded { AreKinded (shape_kinds shape.now) (map ex_tree args.now) }
    ensures { TellsTruth result (operated op.Or (evs (store_at (shape_types shape.now) store) (exs_tree (map ex_tree args.now)))) }
{
    if truth_of(&args[0], shape, store)? {
        Some(true)
    } else {
        truth_of(&args[1], shape, store)
    }
}

/// The second argument is evaluated only where the first is true.
#[cycle(whole_of)]
fn and(args: &[Ex], shape: &Shape, store: u64) -> Option<bool>
    requires store { store < shape_size shape.now }
    requires two { length args.now ≡ 2 }
    requires kinded { AreKinded (shape_kinds shape.now) (map ex_tree args.now) }
    ensures { TellsTruth result (operated op.And (evs (store_at (shape_types shape.now) store) (exs_tree (map ex_tree args.now)))) }
{
    if truth_of(&args[0], shape, store)? {
        truth_of(&args[1], shape, store)
    } else {
        Some(false)
    }
}

/// Only one of the second and the third argument is evaluated.
#[cycle(whole_of)]
fn truth_cond(args: &[Ex], shape: &Shape, store: u64) -> Option<bool>
    requires store { store < shape_size shape.now }
    requires three { length args.now ≡ 3 }
    requires kinded { AreKinded (shape_kinds shape.now) (map ex_tree args.now) }
    ensures { TellsTruth result (operated op.Cond (evs (store_at (shape_types shape.now) store) (exs_tree (map ex_tree args.now)))) }
{
    if truth_of(&args[0], shape, store)? {
        truth_of(&args[1], shape, store)
    } else {
        truth_of(&args[2], shape, store)
    }
}

/// Whether an expression gives a whole number, by its form.
#[cycle(is_whole)]
fn is_whole(e: &Ex, shape: &Shape) -> bool
    requires kinded { IsKinded (shape_kinds shape.now) (ex_tree e.now) }
{
    match e {
        Ex::Const(Value::Int(_)) => true,
        Ex::Slot(i) => match &shape.types().as_slice()[usize::from(*i)] {
            Ty::Int { .. } => true,
            Ty::Bool | Ty::Tuple(_) | Ty::Set(_) => false,
        },
        Ex::Apply { row, args } => match code_at(usize::from(*row)) {
            Op::Cond => is_whole(&args.as_slice()[1], shape),
            Op::Add
            | Op::Subtract
            | Op::Multiply
            | Op::Div
            | Op::Mod
            | Op::Negate
            | Op::Min
            | Op::Max
            | Op::Abs => true,
            _ => false,
        },
        Ex::Const(_) | Ex::Tuple(_) | Ex::SetOf(_) | Ex::Part { .. } => false,
    }
}

/// The value of a checked expression in a store, where this is a truth or a whole number.
pub(crate) fn scalar_of(e: &Ex, shape: &Shape, store: u64) -> Option<Value>
    requires store { store < shape_size shape.now }
    requires kinded { IsKinded (shape_kinds shape.now) (ex_tree e.now) }
    ensures { IfSome result (λ v. ev (store_at (shape_types shape.now) store) (ex_tree e.now) ≡ Ok (value_tree v)) }
{
    if is_whole(e, shape) {
        match whole_of(e, shape, store) {
            Some(number) => Some(Value::Int(number)),
            None => None,
        }
    } else {
        match truth_of(e, shape, store) {
            Some(truth) => Some(Value::Bool(truth)),
            None => None,
        }
    }
}

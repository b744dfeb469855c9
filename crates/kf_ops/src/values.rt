//! What each operator gives.

ghost use Rattle.std.specs.Prelude.{◌≡◌, ◌≢◌, ◌≤◌, true, map, length, pos, if◌then◌else◌, Ok, Err, IfOk, MatchOption};
ghost use Rattle.std.specs.List.{All};
ghost use Rattle.kf_value.specs.Kinds.{KindTree};
ghost use Rattle.kf_ops.specs.Rows.{Row};
ghost use Rattle.kf_ops.specs.Fitting.{Fits, FitsRow, FitsWell};
ghost use Rattle.kf_ops.specs.Places.{IsRow};
ghost use Rattle.std.specs.Int.{int_div_euclid, int_rem_euclid};
ghost use Rattle.kf_value.specs.Values.{Whole};
ghost use Rattle.kf_value.specs.Forms.{IsWellFormed};
ghost use Rattle.kf_value.specs.Views.{value_tree};
ghost use Rattle.kf_ops.specs.Answers.{Answers, may_want_memory};
ghost use Rattle.kf_ops.specs.declared.fault.OpFault.TheVariants as fault;
ghost use Rattle.kf_ops.specs.Values.{applied, divided_by, narrow, row_value};

use crate::arguments::{elements, truth, whole};
use crate::facts::operator_at;
use crate::fault::OpFault;
use crate::row::Op;
use crate::sets::{Kept, combined, contains, is_subset};
use kf_value::{Value, compare};
use std::alloc::Global;
use std::cmp::Ordering;

macro_rules! logic {
    ($truth:expr) => {
        Ok(Value::Bool($truth))
    };
}

macro_rules! comparison {
    ($a:ident $order:tt $b:ident) => {
        Ok(Value::Bool(whole($a) $order whole($b)))
    };
}

/// The number as a value, or the fault where the result is no i64, so that there is none.
fn narrowed(whole: Option<i64>) -> Result<Value, OpFault>
    ensures value { MatchOption whole (result ≡ Err OpFault.ArithWide) (λ n. result ≡ Ok (Value.Int n)) }
    ensures memory { result ≢ Err fault.Mem }
{
    match whole {
        Some(whole) => Ok(Value::Int(whole)),
        None => Err(OpFault::ArithWide),
    }
}

/// A copy of one of two values.
fn chosen(alloc: Global, first: bool, a: &Value, b: &Value) -> Result<Value, OpFault>
    ensures { Answers result (Ok (if first then value_tree a.now else value_tree b.now)) }
{
    let value = if first { a } else { b };
    Ok(value.copy(alloc)?)
}

/// The value of the operator at up to three arguments; a row of fewer leaves the others aside.
#[tactic(auto, using(crate::proofs::Readings::readings))]
fn value_of(alloc: Global, code: Op, a: &Value, b: &Value, c: &Value) -> Result<Value, OpFault>
    requires first { IsWellFormed (value_tree a.now) }
    requires second { IsWellFormed (value_tree b.now) }
    ensures value { Answers result (row_value code (value_tree a.now) (value_tree b.now) (value_tree c.now)) }
    ensures memory { result ≡ Err fault.Mem → may_want_memory code ≡ true }
{
    match code {
        Op::Or => logic!(truth(a) | truth(b)),
        Op::And => logic!(truth(a) & truth(b)),
        Op::Not => logic!(!truth(a)),
        Op::Equal => logic!(compare(a, b) == Ordering::Equal),
        Op::NotEqual => logic!(compare(a, b) != Ordering::Equal),
        Op::Less => comparison!(a < b),
        Op::AtMost => comparison!(a <= b),
        Op::Greater => comparison!(a > b),
        Op::AtLeast => comparison!(a >= b),
        Op::Elem => logic!(contains(elements(b), a)),
        Op::Add => narrowed(whole(a).checked_add(whole(b))),
        Op::Subtract => narrowed(whole(a).checked_sub(whole(b))),
        Op::Union => combined(alloc, a, b, Kept::Either),
        Op::Without => combined(alloc, a, b, Kept::First),
        Op::Multiply => narrowed(whole(a).checked_mul(whole(b))),
        Op::Div => quotient(whole(a), whole(b)),
        Op::Mod => remainder(whole(a), whole(b)),
        Op::Inter => combined(alloc, a, b, Kept::Both),
        Op::Negate => narrowed(whole(a).checked_neg()),
        Op::Size => Ok(Value::Int(size(elements(a)))),
        Op::Cond => chosen(alloc, truth(a), b, c),
        Op::Xor => logic!(truth(a) != truth(b)),
        Op::Implies => logic!(truth(b) | !truth(a)),
        Op::Subset => logic!(is_subset(a, b)),
        Op::Min => Ok(Value::Int(whole(a).min(whole(b)))),
        Op::Max => Ok(Value::Int(whole(a).max(whole(b)))),
        Op::Abs => narrowed(whole(a).checked_abs()),
    }
}

/// The Euclidean quotient.
#[tactic(auto, using(crate::proofs::Readings::readings))]
fn quotient(a: i64, b: i64) -> Result<Value, OpFault>
    ensures value { Answers result (divided_by b (narrow (int_div_euclid a b))) }
    ensures memory { result ≢ Err fault.Mem }
{
    if b == 0 {
        return Err(OpFault::DivZero);
    }
    narrowed(a.checked_div_euclid(b))
}

/// The Euclidean remainder, which an i64 always holds.
#[tactic(auto, using(crate::proofs::Readings::readings))]
fn remainder(a: i64, b: i64) -> Result<Value, OpFault>
    ensures value { Answers result (divided_by b (Ok (Whole (int_rem_euclid a b)))) }
    ensures memory { result ≢ Err fault.Mem }
{
    if b == 0 {
        return Err(OpFault::DivZero);
    }
    Ok(Value::Int(a.wrapping_rem_euclid(b)))
}

/// How many elements there are.
fn size(elements: &[Value]) -> i64
    ensures { result ≡ pos (length elements.now) }
{
    elements.len() as i64
}

/// The value of the operator at its arguments.
fn applied_to(alloc: Global, code: Op, args: &[Value]) -> Result<Value, OpFault>
    requires some { 1 ≤ length args.now }
    requires few { length args.now ≤ 3 }
    requires formed { All IsWellFormed (map value_tree args.now) }
    ensures value { Answers result (applied code (map value_tree args.now)) }
    ensures memory { result ≡ Err fault.Mem → may_want_memory code ≡ true }
{
    match args {
        [a] => value_of(alloc, code, a, a, a),
        [a, b] => value_of(alloc, code, a, b, a),
        [a, b, c] => value_of(alloc, code, a, b, c),
        _ => unreachable!(),
    }
}

/// The value of the row at its arguments. It is the one that is defined; `DivZero` and `ArithWide` come exactly where
/// they are. `row` is a place in the table, from 0, and the arguments are as many and of the kinds that the row takes,
/// where `Any` stands for one kind throughout.
pub fn apply(alloc: Global, row: usize, args: &[Value]) -> Result<Value, OpFault>
    requires { FitsRow row (map value_tree args.now) }
    ensures value { (r : Row) → IsRow row r → Answers result (applied r.code (map value_tree args.now)) }
    ensures kind { (r : Row) (k : KindTree) → IsRow row r → Fits k r (map value_tree args.now)
        → IfOk result (λ v. FitsWell k r.result (value_tree v)) }
    ensures memory { (r : Row) → IsRow row r → result ≡ Err fault.Mem → may_want_memory r.code ≡ true }
{
    applied_to(alloc, operator_at(row), args)
}

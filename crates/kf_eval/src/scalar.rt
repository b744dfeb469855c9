//! Truths and whole numbers, and what operators make of them.

ghost use Rattle.std.specs.Prelude.{◌≡◌, IfSome, Ok};
ghost use Rattle.std.specs.Int.{int_div_euclid, int_rem_euclid};
ghost use Rattle.kf_value.specs.Values.{Truth, Whole};
ghost use Rattle.kf_value.specs.Views.{value_tree};
ghost use Rattle.kf_ops.specs.Values.{divided_by, narrow, row_value};
ghost use Rattle.kf_eval.specs.Scalars.{TellsTruth, TellsWhole};

use kf_ops::Op;
use kf_value::Value;

/// The whole number that a value is.
#[tactic(auto, using(kf_value::proofs::Trees::constructors))]
pub(crate) fn whole_in(value: &Value) -> Option<i64>
    ensures { IfSome result (λ z. value_tree value.now ≡ Whole z) }
{
    match value {
        Value::Int(number) => Some(*number),
        Value::Bool(_) | Value::Tuple(_) | Value::Set(_) => None,
    }
}

/// The truth that a value is.
#[tactic(auto, using(kf_value::proofs::Trees::constructors))]
pub(crate) fn truth_in(value: &Value) -> Option<bool>
    ensures { IfSome result (λ b. value_tree value.now ≡ Truth b) }
{
    match value {
        Value::Bool(truth) => Some(*truth),
        Value::Int(_) | Value::Tuple(_) | Value::Set(_) => None,
    }
}

/// The whole number that an operator makes of whole numbers, where an operator of one leaves the second aside. `None` where
/// it makes none of them.
pub(crate) fn whole_of_wholes(code: Op, a: i64, b: i64) -> Option<i64>
    ensures { TellsWhole result (row_value code (Whole a) (Whole b) (Whole a)) }
{
    match code {
        Op::Add => a.checked_add(b),
        Op::Subtract => a.checked_sub(b),
        Op::Multiply => a.checked_mul(b),
        Op::Div => quotient(a, b),
        Op::Mod => remainder(a, b),
        Op::Negate => a.checked_neg(),
        Op::Min => Some(a.min(b)),
        Op::Max => Some(a.max(b)),
        Op::Abs => a.checked_abs(),
        _ => None,
    }
}

/// The truth that a comparison makes of whole numbers. `None` for other operators.
pub(crate) fn truth_of_wholes(code: Op, a: i64, b: i64) -> Option<bool>
    ensures { TellsTruth result (row_value code (Whole a) (Whole b) (Whole a)) }
{
    match code {
        Op::Less => Some(a < b),
        Op::AtMost => Some(a <= b),
        Op::Greater => Some(a > b),
        Op::AtLeast => Some(a >= b),
        _ => None,
    }
}

/// The truth that an operator makes of truths, where an operator of one leaves the second aside. `None` where it makes none of them, or may
/// do with the first alone.
pub(crate) fn truth_of_truths(code: Op, a: bool, b: bool) -> Option<bool>
    ensures { TellsTruth result (row_value code (Truth a) (Truth b) (Truth a)) }
{
    match code {
        Op::Not => Some(!a),
        Op::Xor => Some(a != b),
        Op::Implies => Some(b | !a),
        _ => None,
    }
}

/// The Euclidean quotient.
fn quotient(a: i64, b: i64) -> Option<i64>
    ensures { TellsWhole result (divided_by b (narrow (int_div_euclid a b))) }
{
    if b == 0 {
        return None;
    }
    a.checked_div_euclid(b)
}

/// The Euclidean remainder, which an i64 always holds.
fn remainder(a: i64, b: i64) -> Option<i64>
    ensures { TellsWhole result (divided_by b (Ok (Whole (int_rem_euclid a b)))) }
{
    if b == 0 {
        return None;
    }
    Some(a.wrapping_rem_euclid(b))
}

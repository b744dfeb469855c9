//! What the arguments of an operator hold, and nothing where they are of another form.

ghost use Rattle.std.specs.Prelude.{◌≡◌, map};
ghost use Rattle.kf_value.specs.Views.{value_tree};
ghost use Rattle.kf_value.specs.Values.{truth as truth_in, whole as whole_in, elements as elements_in};

use kf_value::Value;

/// The Boolean, or `false`.
#[tactic(auto, using(crate::proofs::Readings::readings))]
pub fn truth(value: &Value) -> bool
    ensures { result ≡ truth_in (value_tree value.now) }
{
    match value {
        Value::Bool(truth) => *truth,
        Value::Int(_) | Value::Tuple(_) | Value::Set(_) => false,
    }
}

/// The whole number, or 0.
#[tactic(auto, using(crate::proofs::Readings::readings))]
pub fn whole(value: &Value) -> i64
    ensures { result ≡ whole_in (value_tree value.now) }
{
    match value {
        Value::Int(whole) => *whole,
        _ => 0,
    }
}

/// The elements of the set, or none.
#[tactic(auto, using(crate::proofs::Readings::readings))]
pub fn elements(value: &Value) -> &[Value]
    ensures { map value_tree result.now ≡ elements_in (value_tree value.now) }
{
    match value {
        Value::Set(elements) => elements.as_slice(),
        _ => &[],
    }
}

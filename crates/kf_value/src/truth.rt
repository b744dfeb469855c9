ghost use Rattle.std.specs.Prelude.{◌≡◌};
ghost use Rattle.kf_value.specs.Values.{truth};
ghost use Rattle.kf_value.specs.Views.{value_tree};

use crate::Value;

/// Whether the value is `true`.
#[tactic(auto, using(crate::proofs::Trees::constructors))]
pub fn is_true(value: &Value) -> bool
    ensures { result ≡ truth (value_tree value.now) }
{
    match value {
        Value::Bool(truth) => *truth,
        Value::Int(_) | Value::Tuple(_) | Value::Set(_) => false,
    }
}

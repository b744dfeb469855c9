//! Which distributions choose one value in each store, whatever the store is.

ghost use Rattle.std.specs.Prelude.{◌≡◌, true, map, slice_get};
ghost use Rattle.kf_ops.specs.Rows.{operators as rows};
ghost use Rattle.kf_core.specs.Views.{dx_tree, ex_tree};
ghost use Rattle.kf_core.specs.Each.{exs as exs_tree};
ghost use Rattle.kf_eval.specs.Totals.{IsAlwaysSure, divides as divides_at, has_divisor as has_divisor_at, has_value as has_value_at, have_values as have_values_at, is_total as is_total_at};

use kf_core::{Dx, DxNode, Ex};
use kf_ops::operators;
use kf_value::Value;

/// Whether the expression is a constant other than 0.
#[tactic(auto, using(kf_core::proofs::Trees::constructors, kf_value::proofs::Trees::constructors))]
fn divides(e: &Ex) -> bool
    ensures { result ≡ divides_at (ex_tree e.now) }
{
    match e {
        Ex::Const(Value::Int(number)) => *number != 0,
        _ => false,
    }
}

/// Whether the second of two arguments is a constant other than 0.
fn has_divisor(args: &[Ex]) -> bool
    ensures { result ≡ has_divisor_at (exs_tree (map ex_tree args.now)) }
{
    match args {
        [_, divisor] => divides(divisor),
        _ => false,
    }
}

/// Whether the operator of a row has a value whatever values these arguments have.
fn is_total(row: usize, args: &[Ex]) -> bool
    ensures { result ≡ is_total_at (slice_get rows row) (exs_tree (map ex_tree args.now)) }
{
    match operators().get(row) {
        Some(row) => !row.wide && (!row.div_zero || has_divisor(args)),
        None => false,
    }
}

/// Whether the expression has a value in each store, as far as its form tells.
#[cycle(has_value)]
#[tactic(auto, using(kf_core::proofs::Trees::constructors))]
fn has_value(e: &Ex) -> bool
    ensures { result ≡ has_value_at (ex_tree e.now) }
{
    match e {
        Ex::Const(_) => true,
        Ex::Slot(_) => true,
        Ex::Apply { row, args } => {
            is_total(usize::from(*row), args.as_slice()) && have_values(args.as_slice())
        }
        Ex::Tuple(parts) => have_values(parts.as_slice()),
        Ex::SetOf(members) => have_values(members.as_slice()),
        Ex::Part { of, .. } => has_value(of),
    }
}

#[cycle(has_value)]
fn have_values(exs: &[Ex]) -> bool
    ensures { result ≡ have_values_at (exs_tree (map ex_tree exs.now)) }
{
    for ex in exs {
        if !has_value(ex) {
            return false;
        }
    }
    true
}

/// Whether the distribution chooses one value with weight 1 in each store, as far as its form tells: `false` promises
/// nothing.
pub fn is_always_sure(dist: &Dx) -> bool
    ensures { result ≡ true → IsAlwaysSure (dx_tree dist.now) }
{
    match &dist.node {
        DxNode::Sure(x) => has_value(x),
        _ => false,
    }
}

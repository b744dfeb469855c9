// Programs of short texts, their stores, and what they observe first.
ghost use Rattle.std.specs.Prelude.{◌≡◌, ◌<◌, length, true, IfSome};
ghost use Rattle.kf_value.specs.Kinds.{KindTree};
ghost use Rattle.kf_value.specs.Shapes.{shape_size, shape_types};
ghost use Rattle.kf_value.specs.Types.{product};
ghost use Rattle.kf_core.specs.Sts.{Observe};
ghost use Rattle.kf_core.specs.Checked.{DistKinded, IsChecked};
ghost use Rattle.kf_core.specs.Views.{dx_tree, st_tree, program_tree};
ghost use Rattle.kf_eval.specs.Kinds.{shape_kinds};

use crate::tests::*;
use kf_core::{Dx, Program, St};
use kf_value::Shape;

// The number of variables.
fn variables_of(shape: &Shape) -> usize
    ensures { result ≡ length (shape_types shape.now) }
{
    shape.types().as_slice().len()
}

// The number of stores.
fn stores_of(shape: &Shape) -> Option<u64>
    ensures { IfSome result (λ n. n ≡ shape_size shape.now) }
{
    let mut stores: u64 = 1;
    for i in 0..variables_of(shape) {
        stores = stores.checked_mul(u64::from(shape.size(i)))?;
    }
    Some(stores)
}

// Whether it is the number of a store.
pub(super) fn is_store(shape: &Shape, store: u64) -> bool
    ensures { result ≡ true → store < shape_size shape.now }
{
    match stores_of(shape) {
        Some(stores) => store < stores,
        None => false,
    }
}

// The distribution that a statement observes.
fn observed_by(statement: &St) -> Option<&Dx>
    ensures { IfSome result (λ d. st_tree statement.now ≡ Observe (dx_tree d.now)) }
{
    match statement {
        St::Observe(dist) => Some(dist),
        _ => None,
    }
}

// The distribution that the first statement observes.
pub(super) fn first_observed(program: &Program) -> Option<&Dx>
    requires { IsChecked (program_tree program.now) }
    ensures { IfSome result (λ d. (k : KindTree) × DistKinded (shape_kinds program.now.shape) (dx_tree d.now) k) }
{
    let [first, ..] = program.body.as_slice() else {
        return None;
    };
    observed_by(first)
}

// Whether it is the shape of one variable that has a value.
pub(super) fn has_a_store(shape: &Shape) -> bool
    ensures { result ≡ true → 0 < shape_size shape.now }
{
    shape.types().as_slice().len() == 1 && shape.size(0) > 0
}

// The program that observes this where `x` is 0.
pub(super) fn observing(rt: &(impl Abort + AllocGlobal), what: &str) -> Program
    ensures { IsChecked (program_tree result) }
{
    let text = format!(in rt.alloc(); "var x : 0..0 := 0;\nobserve {what};\n");
    program_of(rt, text.expect(rt, "memory").as_str())
}

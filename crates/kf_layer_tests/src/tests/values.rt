// Expressions, each with what its value prints as, or with its fault; all worked out by hand.
ghost use Rattle.std.specs.Prelude.{◌≡◌, IfSome};
ghost use Rattle.kf_core.specs.Views.{ex_tree, dx_tree, program_tree};
ghost use Rattle.kf_core.specs.Dxs.{dx_at, Sure};
ghost use Rattle.kf_core.specs.Checked.{IsChecked};
ghost use Rattle.kf_eval.specs.Kinds.{shape_kinds, IsKinded};

use crate::tests::choices::write_str;
use crate::tests::programs::{first_observed, has_a_store, observing};
use crate::tests::*;
use kf_core::{Dx, DxNode, Ex, Program};
use kf_eval::{EvalError, eval};
use kf_value::{Value, print_value};

// The expression of a distribution on one value.
fn expression_of(dist: &Dx) -> Option<&Ex>
    ensures { IfSome result (λ e. dx_tree dist.now ≡ dx_at dist.now.at (Sure (ex_tree e.now))) }
{
    match &dist.node {
        DxNode::Sure(e) => Some(e),
        _ => None,
    }
}

// The expression that the first statement observes.
fn observed(program: &Program) -> Option<&Ex>
    requires { IsChecked (program_tree program.now) }
    ensures { IfSome result (λ e. IsKinded (shape_kinds program.now.shape) (ex_tree e.now)) }
{
    expression_of(first_observed(program)?)
}

fn fault_name(fault: EvalError) -> &'static str {
    match fault {
        EvalError::DivZero => "DivZero",
        EvalError::ArithWide => "ArithWide",
        EvalError::Mem => "want of memory",
    }
}

// What the value prints as, or the fault's name.
fn text_of(rt: &(impl Abort + AllocGlobal), value: &Result<Value, EvalError>) -> Vec<u8> {
    let mut text = Vec::new(rt.alloc());
    let written = match value {
        Ok(value) => print_value(rt.alloc(), value, &mut text),
        Err(fault) => write_str(&mut text, fault_name(*fault)),
    };
    written.expect(rt, "memory");
    text
}

// The value of what the program observes where `x` is 0, or its fault.
fn value_text(rt: &(impl Abort + AllocGlobal), program: &Program) -> Vec<u8>
    requires { IsChecked (program_tree program.now) }
{
    assert!(rt; has_a_store(&program.shape), "there is no store");
    let observed = observed(program).expect(rt, "an expression");
    text_of(rt, &eval(rt.alloc(), observed, &program.shape, 0))
}

const ROWS: [(&str, &str); 14] = [
    ("x", "0"),
    ("-7 div 2 + 1", "-3"),
    ("-9 * 1000000000 * 1000000000", "-9000000000000000000"),
    ("1000000000 * 1000000000 * 1000000000", "ArithWide"),
    ("true xor not true", "true"),
    ("false or 1 div 0 = 1", "DivZero"),
    ("{3, -1, 0} less {x}", "{-1, 3}"),
    ("size({1, 2} union {2, 3})", "3"),
    ("{1} less {1} subset {2} less {2}", "true"),
    ("(1, {2, 3}) = (1, {3, 2, 3})", "true"),
    ("(1, (true, 2)).1", "(true, 2)"),
    ("cond(x = 0, {2, 1}, {1 div x})", "{1, 2}"),
    (
        "(0, 1 div 0) = (1000000000 * 1000000000 * 1000000000, 0)",
        "DivZero",
    ),
    (
        "max(1000000000 * 1000000000 * 1000000000, 1 div 0)",
        "ArithWide",
    ),
];

#[test]
fn values_of_expressions(rt: HostRuntime) {
    for (expression, want) in &ROWS {
        let text = value_text(&rt, &observing(&rt, expression));
        assert!(rt; text.as_slice() == want.as_bytes(), "{expression}");
    }
}

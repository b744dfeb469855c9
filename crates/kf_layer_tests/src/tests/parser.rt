// What is read of a text, and where its parts stand.
use crate::tests::*;
use kf_ast::{Decl, DistNode, ExprNode, Item, Stmt, StmtNode};

const TEXT: &str =
    "var a : bool := true; vis b : (0..1, set of bool) := uniform s; about a, old b; a := a or b and a; if flip 1/3 { } else { skip; }";

/// Each variable with the place of its name, and whether it is visible.
const DECLARED: [(&str, u32, bool); 2] = [("a", 4, false), ("b", 26, true)];

fn declares(decls: &[Decl]) -> bool {
    decls.len() == DECLARED.len()
        && decls.iter().zip(&DECLARED).all(|(d, want)| (d.name.text.as_str(), d.name.at, d.visible)
            == *want)
}

#[test]
fn variables_of_a_text(rt: HostRuntime) {
    let source = source_of(&rt, TEXT);
    assert!(rt; declares(source.decls.as_slice()));
}

/// The place of the name of each item of the target, and whether it is the first value.
const TARGET: [(u32, bool); 2] = [(70, false), (77, true)];

fn is_target(items: &[Item]) -> bool {
    items.len() == TARGET.len()
        && items
            .iter()
            .zip(&TARGET)
            .all(|(item, want)| (item.name.at, item.initial) == *want)
}

#[test]
fn target_of_a_text(rt: HostRuntime) {
    let source = source_of(&rt, TEXT);
    assert!(rt; is_target(source.target.as_slice()));
}

/// The row and the place of the operator that a statement assigns, and how many arguments it has.
fn assigned(statement: &Stmt) -> Option<(usize, u32, usize)> {
    let StmtNode::Assign { dist, .. } = &statement.node else {
        return None;
    };
    let DistNode::Sure(expr) = &dist.node else {
        return None;
    };
    let ExprNode::Apply { row, args } = &expr.node else {
        return None;
    };
    Some((usize::from(*row), expr.at, args.as_slice().len()))
}

/// Whether the first of two statements assigns the operator that binds least, and the second is the conditional.
fn are_statements(body: &[Stmt]) -> bool {
    let [first, second] = body else {
        return false;
    };
    assigned(first) == Some((0, 85, 2)) && second.at == 99
}

#[test]
fn statements_of_a_text(rt: HostRuntime) {
    let source = source_of(&rt, TEXT);
    assert!(rt; are_statements(source.body.as_slice()));
}

ghost use Rattle.std.specs.Prelude.{◌≡◌, ◌≤◌, []};
ghost use Rattle.kf_ast.specs.Views.{expr_tree, name_tree};
ghost use Rattle.kf_parse.specs.Views.{cut_of, cuts_of, trimmed_of};
ghost use Rattle.kf_parse.specs.Outcomes.{pure};
ghost use Rattle.kf_parse.specs.Reads.{Reads};
ghost use Rattle.kf_parse.specs.Trimmed.{trimmed, trim};

use crate::kept::{Built, BuiltList, MAX_NODES, Trimmed};
use crate::stop::Stop;
use kf_ast::{Expr, ExprList, ExprNode, Ident};
use std::alloc::Global;

/// A number.
pub(crate) fn number(at: u32, k: u32) -> Built
    ensures { cut_of result ≡ trimmed.number at k }
{
    Built {
        nodes: 1,
        at,
        expr: Some(Expr {
            at,
            node: ExprNode::Number(k),
        }),
    }
}

/// A truth value.
pub(crate) fn truth(at: u32, value: bool) -> Built
    ensures { cut_of result ≡ trimmed.truth at value }
{
    Built {
        nodes: 1,
        at,
        expr: Some(Expr {
            at,
            node: ExprNode::Truth(value),
        }),
    }
}

/// A name.
pub(crate) fn variable(name: Ident) -> Built
    ensures { cut_of result ≡ trimmed.variable (name_tree name) }
{
    let at = name.at;
    Built {
        nodes: 1,
        at,
        expr: Some(Expr {
            at,
            node: ExprNode::Name(name),
        }),
    }
}

/// The same expression as seen from another place, as in parentheses.
pub(crate) fn moved(at: u32, x: Built) -> Built
    ensures { cut_of result ≡ trimmed.moved at (cut_of x) }
{
    let Built { nodes, expr, .. } = x;
    let expr = match expr {
        Some(expr) => Some(Expr {
            at,
            node: expr.node,
        }),
        None => None,
    };
    Built { nodes, at, expr }
}

/// The list of one expression.
pub(crate) fn one(alloc: Global, x: Built) -> Result<BuiltList, Stop>
    ensures { Reads cuts_of (pure (trimmed.one (cut_of x)) []) result [] }
{
    let Built { nodes, expr, .. } = x;
    let items = match expr {
        Some(expr) => {
            let mut items = Vec::new(alloc);
            items.push(expr)?;
            Some(items)
        }
        None => None,
    };
    Ok(BuiltList { nodes, items })
}

/// The list with one expression more.
pub(crate) fn push(list: BuiltList, x: Built) -> Result<BuiltList, Stop>
    ensures { Reads cuts_of (pure (trimmed.push (cuts_of list) (cut_of x)) []) result [] }
{
    let nodes = list.nodes + x.nodes;
    let items = match (list.items, x.expr) {
        (Some(mut items), Some(expr)) if nodes <= MAX_NODES => {
            items.push(expr)?;
            Some(items)
        }
        _ => None,
    };
    Ok(BuiltList {
        nodes: nodes.min(MAX_NODES + 1),
        items,
    })
}

/// An operator before its arguments.
pub(crate) fn apply(at: u32, row: u8, list: BuiltList) -> Built
    ensures { cut_of result ≡ trimmed.apply at row (cuts_of list) }
{
    let BuiltList { nodes, items } = list;
    let nodes = nodes + 1;
    let expr = match items {
        Some(items) if nodes <= MAX_NODES => Some(Expr {
            at,
            node: ExprNode::Apply {
                row,
                args: ExprList::new(items),
            },
        }),
        _long => None,
    };
    Built {
        nodes: nodes.min(MAX_NODES + 1),
        at,
        expr,
    }
}

/// A tuple.
pub(crate) fn tuple(at: u32, list: BuiltList) -> Built
    ensures { cut_of result ≡ trimmed.tuple at (cuts_of list) }
{
    let BuiltList { nodes, items } = list;
    let nodes = nodes + 1;
    let expr = match items {
        Some(items) if nodes <= MAX_NODES => Some(Expr {
            at,
            node: ExprNode::Tuple(ExprList::new(items)),
        }),
        _long => None,
    };
    Built {
        nodes: nodes.min(MAX_NODES + 1),
        at,
        expr,
    }
}

/// A set, by its members.
pub(crate) fn set_of(at: u32, list: BuiltList) -> Built
    ensures { cut_of result ≡ trimmed.set_of at (cuts_of list) }
{
    let BuiltList { nodes, items } = list;
    let nodes = nodes + 1;
    let expr = match items {
        Some(items) if nodes <= MAX_NODES => Some(Expr {
            at,
            node: ExprNode::SetOf(ExprList::new(items)),
        }),
        _long => None,
    };
    Built {
        nodes: nodes.min(MAX_NODES + 1),
        at,
        expr,
    }
}

/// An operator between two expressions.
pub(crate) fn join(alloc: Global, row: u8, x: Built, y: Built) -> Result<Built, Stop>
    ensures { Reads cut_of (pure (trimmed.join row (cut_of x) (cut_of y)) []) result [] }
{
    let at = x.at;
    let sides = push(one(alloc, x)?, y)?;
    Ok(apply(at, row, sides))
}

/// A part of an expression, counted from 0.
pub(crate) fn part(alloc: Global, x: Built, k: u32) -> Result<Built, Stop>
    ensures { Reads cut_of (pure (trimmed.part (cut_of x) k) []) result [] }
{
    let Built { nodes, at, expr } = x;
    let nodes = nodes + 1;
    let expr = match expr {
        Some(of) if nodes <= MAX_NODES => Some(Expr {
            at,
            node: ExprNode::Part {
                of: Box::new(alloc, of)?,
                k,
            },
        }),
        _long => None,
    };
    Ok(Built {
        nodes: nodes.min(MAX_NODES + 1),
        at,
        expr,
    })
}

/// An expression where it stands directly in a distribution.
pub(crate) fn trim(x: Built) -> Trimmed<Expr>
    ensures { trimmed_of expr_tree result ≡ trim (cut_of x) }
{
    let Built { at, expr, .. } = x;
    match expr {
        Some(expr) => Trimmed {
            value: expr,
            long: None,
        },
        None => Trimmed {
            value: Expr {
                at,
                node: ExprNode::Number(0),
            },
            long: Some(at),
        },
    }
}

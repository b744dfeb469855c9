ghost use Rattle.std.specs.Prelude.{◌≡◌, map, IfOk};
ghost use Rattle.kf_ast.specs.Views.{expr_items, expr_tree};

use crate::Ident;
use kf_value::Mem;
use std::alloc::Global;

/// An expression.
#[cycle(expr)]
#[derive(Drop)]
pub struct Expr {
    pub at: u32,
    pub node: ExprNode,
}

#[cycle(expr)]
#[derive(Drop)]
pub enum ExprNode {
    Number(u32),
    Truth(bool),
    Name(Ident),
    /// The operator of a row of the operator table, counted from 0, with its arguments.
    Apply { row: u8, args: ExprList },
    /// At least two parts.
    Tuple(ExprList),
    /// The members of a set as they are written, at least one.
    SetOf(ExprList),
    /// A part of a tuple, counted from 0.
    Part { of: Box<Expr>, k: u32 },
}

#[cycle(expr)]
#[derive(Drop)]
pub struct ExprList {
    items: Vec<Expr>,
}

impl ExprList {
    pub fn new(items: Vec<Expr>) -> Self
        ensures { expr_items result ≡ items.items }
    {
        ExprList { items }
    }

    pub fn as_slice(&self) -> &[Expr]
        ensures { result.now ≡ expr_items self.now }
    {
        self.items.as_slice()
    }

    /// An equal list.
    #[cycle(copy_expr)]
    pub fn copy(&self, alloc: Global) -> Result<ExprList, Mem>
        ensures { IfOk result (λ copied. map expr_tree (expr_items copied) ≡ map expr_tree (expr_items self.now)) }
    {
        let mut items = Vec::new(alloc);
        for expr in &self.items {
            items.push(expr.copy(alloc)?)?;
        }
        Ok(ExprList { items })
    }
}

impl Expr {
    /// An equal expression.
    #[cycle(copy_expr)]
    pub fn copy(&self, alloc: Global) -> Result<Expr, Mem>
        ensures { IfOk result (λ copied. expr_tree copied ≡ expr_tree self.now) }
    {
        let node = match &self.node {
            ExprNode::Number(n) => ExprNode::Number(*n),
            ExprNode::Truth(truth) => ExprNode::Truth(*truth),
            ExprNode::Name(name) => ExprNode::Name(name.copy(alloc)?),
            ExprNode::Apply { row, args } => ExprNode::Apply {
                row: *row,
                args: args.copy(alloc)?,
            },
            ExprNode::Tuple(parts) => ExprNode::Tuple(parts.copy(alloc)?),
            ExprNode::SetOf(members) => ExprNode::SetOf(members.copy(alloc)?),
            ExprNode::Part { of, k } => ExprNode::Part {
                of: Box::new(alloc, of.copy(alloc)?)?,
                k: *k,
            },
        };
        Ok(Expr { at: self.at, node })
    }
}

ghost use Rattle.std.specs.Prelude.{◌≤◌};

use kf_ast::Expr;

/// How many nodes an expression may have.
pub(crate) const MAX_NODES: u32 = 1000;

/// An expression, of which nothing is kept where it has more than 1,000 nodes.
#[derive(Drop)]
pub(crate) struct Built {
    /// How many nodes it has; 1,001 where it has more than 1,000.
    pub(crate) nodes: u32,
    pub(crate) at: u32,
    pub(crate) expr: Option<Expr>,
    pub(crate) ghost small: { nodes ≤ 1001 },
}

/// Expressions, of which nothing is kept where they have more than 1,000 nodes together.
#[derive(Drop)]
pub(crate) struct BuiltList {
    /// How many nodes all of them have; 1,001 where they have more than 1,000.
    pub(crate) nodes: u32,
    pub(crate) items: Option<Vec<Expr>>,
    pub(crate) ghost small: { nodes ≤ 1001 },
}

/// What holds expressions, with a number in the place of each that has more than 1,000 nodes.
#[derive(Drop)]
pub(crate) struct Trimmed<T> {
    pub(crate) value: T,
    /// The place of the first that has more than 1,000.
    pub(crate) long: Option<u32>,
}

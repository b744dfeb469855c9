ghost use Rattle.std.specs.Prelude.{◌≡◌, map, IfOk};
ghost use Rattle.kf_ast.specs.Views.{case_items, case_tree, dist_tree};

use crate::Expr;
use kf_value::Mem;
use std::alloc::Global;

/// A distribution on values.
#[derive(Drop)]
pub struct Dist {
    pub at: u32,
    pub node: DistNode,
}

#[derive(Drop)]
pub enum DistNode {
    /// One value for certain.
    Sure(Expr),
    /// Each element of a set alike.
    UniformSet(Expr),
    /// Each whole number from the first to the second alike.
    UniformRange(Expr, Expr),
    /// Values with their weights; at least one case.
    Choose(CaseList),
    /// `true` with probability `num / den`.
    Flip { num: u32, den: u32 },
}

/// A value and its weight.
#[derive(Drop)]
pub struct Case {
    pub value: Expr,
    pub weight: Expr,
}

#[derive(Drop)]
pub struct CaseList {
    items: Vec<Case>,
}

impl CaseList {
    pub fn new(items: Vec<Case>) -> Self
        ensures { case_items result ≡ items.items }
    {
        CaseList { items }
    }

    pub fn as_slice(&self) -> &[Case]
        ensures { result.now ≡ case_items self.now }
    {
        self.items.as_slice()
    }

    /// An equal list.
    pub fn copy(&self, alloc: Global) -> Result<CaseList, Mem>
        ensures { IfOk result (λ copied. map case_tree (case_items copied) ≡ map case_tree (case_items self.now)) }
    {
        let mut items = Vec::new(alloc);
        for case in &self.items {
            items.push(Case {
                value: case.value.copy(alloc)?,
                weight: case.weight.copy(alloc)?,
            })?;
        }
        Ok(CaseList { items })
    }
}

impl Dist {
    /// An equal distribution.
    pub fn copy(&self, alloc: Global) -> Result<Dist, Mem>
        ensures { IfOk result (λ copied. dist_tree copied ≡ dist_tree self.now) }
    {
        let node = match &self.node {
            DistNode::Sure(value) => DistNode::Sure(value.copy(alloc)?),
            DistNode::UniformSet(set) => DistNode::UniformSet(set.copy(alloc)?),
            DistNode::UniformRange(lo, hi) => DistNode::UniformRange(
                lo.copy(alloc)?,
                hi.copy(alloc)?,
            ),
            DistNode::Choose(cases) => DistNode::Choose(cases.copy(alloc)?),
            DistNode::Flip { num, den } => DistNode::Flip {
                num: *num,
                den: *den,
            },
        };
        Ok(Dist { at: self.at, node })
    }
}

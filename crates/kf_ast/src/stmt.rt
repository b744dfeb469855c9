ghost use Rattle.std.specs.Prelude.{◌≡◌, map, IfOk, Ok};
ghost use Rattle.kf_ast.specs.Views.{stmt_items, stmt_tree};

use crate::{Dist, Ident};
use kf_value::Mem;
use std::alloc::Global;

/// A statement.
#[cycle(stmt)]
#[derive(Drop)]
pub struct Stmt {
    pub at: u32,
    pub node: StmtNode,
}

#[cycle(stmt)]
#[derive(Drop)]
pub enum StmtNode {
    Skip,
    Assign {
        name: Ident,
        dist: Dist,
    },
    Observe(Dist),
    If {
        guard: Dist,
        yes: StmtList,
        no: StmtList,
    },
    While {
        guard: Dist,
        body: StmtList,
    },
}

#[cycle(stmt)]
#[derive(Drop)]
pub struct StmtList {
    items: Vec<Stmt>,
}

impl StmtList {
    pub fn new(items: Vec<Stmt>) -> Self
        ensures { stmt_items result ≡ items.items }
    {
        StmtList { items }
    }

    pub fn as_slice(&self) -> &[Stmt]
        ensures { result.now ≡ stmt_items self.now }
    {
        self.items.as_slice()
    }

    /// An equal list.
    #[cycle(copy_stmt)]
    pub fn copy(&self, alloc: Global) -> Result<StmtList, Mem>
        ensures { IfOk result (λ copied. map stmt_tree (stmt_items copied) ≡ map stmt_tree (stmt_items self.now)) }
    {
        let mut items = Vec::new(alloc);
        for stmt in &self.items {
            items.push(stmt.copy(alloc)?)?;
        }
        Ok(StmtList { items })
    }
}

// What was copied before, beside what is copied then; where there is no memory for this, both are dropped.
fn beside<A: Drop, B>(first: A, second: Result<B, Mem>) -> Result<(A, B), Mem>
    ensures { IfOk result (λ both. (both.0 ≡ first) × (second ≡ Ok both.1)) }
{
    let second = second?;
    Ok((first, second))
}

impl Stmt {
    /// An equal statement.
    #[cycle(copy_stmt)]
    pub fn copy(&self, alloc: Global) -> Result<Stmt, Mem>
        ensures { IfOk result (λ copied. stmt_tree copied ≡ stmt_tree self.now) }
    {
        let node = match &self.node {
            StmtNode::Skip => StmtNode::Skip,
            StmtNode::Assign { name, dist } => {
                let (name, dist) = beside(name.copy(alloc)?, dist.copy(alloc))?;
                StmtNode::Assign { name, dist }
            }
            StmtNode::Observe(dist) => StmtNode::Observe(dist.copy(alloc)?),
            StmtNode::If { guard, yes, no } => {
                let kept = beside(guard.copy(alloc)?, yes.copy(alloc))?;
                let ((guard, yes), no) = beside(kept, no.copy(alloc))?;
                StmtNode::If { guard, yes, no }
            }
            StmtNode::While { guard, body } => {
                let (guard, body) = beside(guard.copy(alloc)?, body.copy(alloc))?;
                StmtNode::While { guard, body }
            }
        };
        Ok(Stmt { at: self.at, node })
    }
}

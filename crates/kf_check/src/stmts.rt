ghost use Rattle.std.specs.Prelude.{ℕ, map};
ghost use Rattle.kf_ast.specs.Stmts.{stmt_at, Assign, Observe};
ghost use Rattle.kf_ast.specs.Views.{name_tree, dist_tree, stmt_tree};
ghost use Rattle.kf_ast.specs.Built.{IsDistBuilt, IsStmtBuilt, AreListedBuilt};
ghost use Rattle.kf_ops.specs.Fitting.{Takes};
ghost use Rattle.kf_check.specs.Views.{known_in, flags_in};
ghost use Rattle.kf_check.specs.SourceAnswers.{AnswersSt, AnswersSts};

use crate::TypeError;
use crate::dists::{asks_dist, dist};
use crate::errors::beside;
use crate::names::Names;
use kf_ast::{Dist, Ident, Stmt, StmtNode};
use kf_core::{St, StList};
use kf_value::Kind;
use std::alloc::Global;

/// A statement, or its first broken rule.
#[cycle(check_stmt)]
pub fn check_stmt(alloc: Global, known: &Names, stmt: &Stmt) -> Result<St, TypeError>
    requires { IsStmtBuilt Takes (stmt_tree stmt.now) }
    ensures { AnswersSt (known_in known.now) (flags_in known.now) (stmt_tree stmt.now) result }
{
    match &stmt.node {
        StmtNode::Skip => Ok(St::Skip),
        StmtNode::Assign { name, dist } => assignment(alloc, known, name, dist),
        StmtNode::Observe(observed) => observation(alloc, known, observed),
        StmtNode::If { guard, yes, no } => {
            let guard = asks_dist(alloc, known, &Kind::Bool, guard)?;
            let (yes, guard) = beside(check_stmts(alloc, known, yes.as_slice()), guard)?;
            let (no, guard) = beside(check_stmts(alloc, known, no.as_slice()), guard)?;
            Ok(St::If { guard, yes, no })
        }
        StmtNode::While { guard, body } => {
            let guard = asks_dist(alloc, known, &Kind::Bool, guard)?;
            let (body, guard) = beside(check_stmts(alloc, known, body.as_slice()), guard)?;
            Ok(St::While { guard, body })
        }
    }
}

/// An assignment, or its first broken rule, wherever the statement itself stands.
fn assignment(alloc: Global, known: &Names, name: &Ident, value: &Dist) -> Result<St, TypeError>
    requires { IsDistBuilt Takes (dist_tree value.now) }
    ensures { (at : ℕ) → AnswersSt (known_in known.now) (flags_in known.now) (stmt_at at (Assign (name_tree name.now) (dist_tree value.now))) result }
{
    let Some((slot, kind)) = known.find(name.text.as_str()) else {
        return Err(TypeError::Unknown { at: name.at });
    };
    let dist = asks_dist(alloc, known, kind, value)?;
    let shown = known.is_visible(slot);
    Ok(St::Assign { slot, dist, shown })
}

/// An observation, or its first broken rule, wherever the statement itself stands.
fn observation(alloc: Global, known: &Names, observed: &Dist) -> Result<St, TypeError>
    requires { IsDistBuilt Takes (dist_tree observed.now) }
    ensures { (at : ℕ) → AnswersSt (known_in known.now) (flags_in known.now) (stmt_at at (Observe (dist_tree observed.now))) result }
{
    let typed = dist(alloc, known, observed)?;
    Ok(St::Observe(typed.into_dx()))
}

/// Statements one after the other, or their first broken rule.
#[cycle(check_stmt)]
pub fn check_stmts(alloc: Global, known: &Names, stmts: &[Stmt]) -> Result<StList, TypeError>
    requires { AreListedBuilt Takes (map stmt_tree stmts.now) }
    ensures { AnswersSts (known_in known.now) (flags_in known.now) (map stmt_tree stmts.now) result }
{
    let mut checked = Vec::new(alloc);
    for stmt in stmts {
        checked.push(check_stmt(alloc, known, stmt)?)?;
    }
    Ok(StList::new(checked))
}

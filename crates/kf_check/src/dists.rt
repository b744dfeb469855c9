ghost use Rattle.std.specs.Prelude.{◌≡◌, ◌≢◌, ◌≤◌, length, map, Ok, Err, IfOk, IfErr};
ghost use Rattle.kf_value.specs.Views.{kind_tree};
ghost use Rattle.kf_ast.specs.Views.{expr_tree, case_tree, dist_tree};
ghost use Rattle.kf_ast.specs.Dists.{dist_at, Choose, UniformRange};
ghost use Rattle.kf_ast.specs.Built.{IsBuilt, IsDistBuilt, AreCasesBuilt};
ghost use Rattle.kf_core.specs.Views.{ex_tree};
ghost use Rattle.kf_ops.specs.Fitting.{Takes};
ghost use Rattle.kf_check.specs.Kinds.{JudgesPair};
ghost use Rattle.kf_check.specs.Picks.{names_in};
ghost use Rattle.kf_check.specs.Translation.{ex_of};
ghost use Rattle.kf_check.specs.Views.{known_in};
ghost use Rattle.kf_check.specs.Answers.{AnswersDx, AnswersAskedDx, AnswersCase};

use crate::TypeError;
use crate::errors::beside;
use crate::exprs::expr;
use crate::names::Names;
use crate::picks::element_kind;
use crate::typed::TypedDx;
use kf_ast::{Case, Dist, DistNode, Expr};
use kf_core::{Dx, DxCase, DxCaseList, DxNode, Ex};
use kf_value::Kind;
use std::alloc::Global;

/// Two expressions whose names are known.
#[derive(Drop)]
struct Pair {
    first: Ex,
    second: Ex,
}

/// A distribution with the kind of its values, or its first broken rule.
pub fn dist(alloc: Global, known: &Names, d: &Dist) -> Result<TypedDx, TypeError>
    requires { IsDistBuilt Takes (dist_tree d.now) }
    ensures { AnswersDx (known_in known.now) (dist_tree d.now) result }
{
    match &d.node {
        DistNode::Sure(x) => {
            let typed = expr(alloc, known, x)?;
            Ok(TypedDx::new(d.at, DxNode::Sure(typed.ex), typed.kind))
        }
        DistNode::UniformSet(x) => {
            let typed = expr(alloc, known, x)?;
            let (kind, typed) = beside(element_kind(alloc, &typed.kind, x.at), typed)?;
            Ok(TypedDx::new(d.at, DxNode::UniformSet(typed.ex), kind))
        }
        DistNode::UniformRange(low, high) => uniform_range(alloc, known, low, high, d.at),
        DistNode::Choose(cases) => choose(alloc, known, cases.as_slice(), d.at),
        DistNode::Flip { num, den } => {
            if *den == 0 || *num > *den {
                return Err(TypeError::BadFlip { at: d.at });
            }
            let node = DxNode::Flip {
                num: *num,
                den: *den,
            };
            Ok(TypedDx::new(d.at, node, Kind::Bool))
        }
    }
}

/// The whole numbers from `low` to `high` alike, at `at`.
fn uniform_range(
    alloc: Global,
    known: &Names,
    low: &Expr,
    high: &Expr,
    at: u32,
) -> Result<TypedDx, TypeError>
    requires low { IsBuilt Takes (expr_tree low.now) }
    requires high { IsBuilt Takes (expr_tree high.now) }
    ensures { AnswersDx (known_in known.now) (dist_at at (UniformRange (expr_tree low.now) (expr_tree high.now))) result }
{
    let bounds = asks_pair(alloc, known, &Kind::Int, low, high)?;
    let node = DxNode::UniformRange(bounds.first, bounds.second);
    Ok(TypedDx::new(at, node, Kind::Int))
}

/// The cases' values with their weights, at `at`: all are of the first value's kind.
fn choose(alloc: Global, known: &Names, cases: &[Case], at: u32) -> Result<TypedDx, TypeError>
    requires some { 1 ≤ length cases.now }
    requires built { AreCasesBuilt Takes (map case_tree cases.now) }
    ensures { AnswersDx (known_in known.now) (dist_at at (Choose (map case_tree cases.now))) result }
{
    let kind = expr(alloc, known, &cases[0].value)?.kind;
    let mut typed = Vec::new(alloc);
    for case in cases {
        typed.push(choice(alloc, known, &kind, case)?)?;
    }
    Ok(TypedDx::new(at, DxNode::Choose(DxCaseList::new(typed)), kind))
}

/// A case whose value is to be of this kind.
fn choice(alloc: Global, known: &Names, kind: &Kind, case: &Case) -> Result<DxCase, TypeError>
    requires value { IsBuilt Takes (expr_tree case.now.value) }
    requires weight { IsBuilt Takes (expr_tree case.now.weight) }
    ensures { AnswersCase (known_in known.now) (kind_tree kind.now) (case_tree case.now) result }
{
    let pair = asks_pair(alloc, known, kind, &case.value, &case.weight)?;
    Ok(DxCase {
        value: pair.first,
        weight: pair.second,
    })
}

/// Two expressions, the first to be of this kind and the second a whole number, or the first broken rule.
fn asks_pair(
    alloc: Global,
    known: &Names,
    kind: &Kind,
    first: &Expr,
    second: &Expr,
) -> Result<Pair, TypeError>
    requires first { IsBuilt Takes (expr_tree first.now) }
    requires second { IsBuilt Takes (expr_tree second.now) }
    ensures judged { IfOk result (λ p. JudgesPair (known_in known.now) (kind_tree kind.now) (expr_tree first.now) (expr_tree second.now) (Ok (kind_tree kind.now))) }
    ensures first { IfOk result (λ p. ex_tree p.first ≡ ex_of (names_in (known_in known.now)) (expr_tree first.now)) }
    ensures second { IfOk result (λ p. ex_tree p.second ≡ ex_of (names_in (known_in known.now)) (expr_tree second.now)) }
    ensures err { IfErr result (λ e. e ≢ TypeError.Mem → JudgesPair (known_in known.now) (kind_tree kind.now) (expr_tree first.now) (expr_tree second.now) (Err e)) }
{
    let one = expr(alloc, known, first)?;
    let (other, one) = beside(expr(alloc, known, second), one)?;
    let (first, other) = beside(one.asked(kind, first.at), other)?;
    let (second, first) = beside(other.asked(&Kind::Int, second.at), first)?;
    Ok(Pair { first, second })
}

/// A distribution whose values are to be of this kind, or its first broken rule.
pub fn asks_dist(alloc: Global, known: &Names, kind: &Kind, d: &Dist) -> Result<Dx, TypeError>
    requires { IsDistBuilt Takes (dist_tree d.now) }
    ensures { AnswersAskedDx (known_in known.now) (kind_tree kind.now) (dist_tree d.now) result }
{
    dist(alloc, known, d)?.asked(kind, d.at)
}

ghost use Rattle.std.specs.Prelude.{◌≡◌, ◌≢◌, ◌≤◌, ℕ, List, length, map, Ok, IfOk, IfErr};
ghost use Rattle.kf_value.specs.Views.{kind_tree, kind_trees};
ghost use Rattle.kf_ast.specs.Views.{name_tree, expr_tree};
ghost use Rattle.kf_ast.specs.Exprs.{ExprTree, ExprTrees, expr_at, exprs, Name, Apply, SetOf, Part};
ghost use Rattle.kf_ast.specs.Built.{IsBuilt, AreBuilt};
ghost use Rattle.kf_core.specs.Views.{ex_tree, ex_items};
ghost use Rattle.kf_core.specs.Each.{exs};
ghost use Rattle.kf_ops.specs.Fitting.{Takes};
ghost use Rattle.kf_check.specs.Kinds.{Known, Judges, JudgesAll};
ghost use Rattle.kf_check.specs.Translation.{ex_of, exs_of};
ghost use Rattle.kf_check.specs.Views.{known_in};
ghost use Rattle.kf_check.specs.Answers.{AnswersEx};
ghost use Rattle.kf_check.specs.Picks.{names_in};

use crate::TypeError;
use crate::errors::beside;
use crate::names::Names;
use crate::picks::{common_kind, part_kind};
use crate::rows::result_kind;
use crate::typed::TypedEx;
use kf_ast::{Expr, ExprNode, Ident};
use kf_core::{Ex, ExList};
use kf_value::{Kind, KindList, Value};
use std::alloc::Global;

/// Expressions whose names are known, and the kinds of their values.
#[derive(Drop)]
struct TypedExs {
    exs: ExList,
    kinds: KindList,
}

/// An expression with its kind, or its first broken rule.
#[cycle(expr)]
pub fn expr(alloc: Global, known: &Names, x: &Expr) -> Result<TypedEx, TypeError>
    requires { IsBuilt Takes (expr_tree x.now) }
    ensures { AnswersEx (known_in known.now) (expr_tree x.now) result }
{
    match &x.node {
        ExprNode::Number(number) => Ok(TypedEx {
            ex: Ex::Const(Value::Int(i64::from(*number))),
            kind: Kind::Int,
        }),
        ExprNode::Truth(truth) => Ok(TypedEx {
            ex: Ex::Const(Value::Bool(*truth)),
            kind: Kind::Bool,
        }),
        ExprNode::Name(name) => variable(alloc, known, name),
        ExprNode::Apply { row, args } => {
            let args = typed_exprs(alloc, known, args.as_slice())?;
            applied(alloc, *row, args, x.at)
        }
        ExprNode::Tuple(parts) => {
            let parts = typed_exprs(alloc, known, parts.as_slice())?;
            Ok(TypedEx {
                ex: Ex::Tuple(parts.exs),
                kind: Kind::Tuple(parts.kinds),
            })
        }
        ExprNode::SetOf(members) => {
            let members = typed_exprs(alloc, known, members.as_slice())?;
            set_of(alloc, members, x.at)
        }
        ExprNode::Part { of, k } => {
            let tuple = expr(alloc, known, of)?;
            part(alloc, tuple, *k, x.at)
        }
    }
}

/// The operator of a row at these arguments, or Clash at `at`.
fn applied(alloc: Global, row: u8, args: TypedExs, at: u32) -> Result<TypedEx, TypeError>
    requires { Takes row (length (kind_trees args.kinds)) }
    ensures { (known : List Known) (xs : ExprTrees) → JudgesAll known xs (Ok (kind_trees args.kinds)) → exs (map ex_tree (ex_items args.exs)) ≡ exs_of (names_in known) xs
        → AnswersEx known (expr_at at (Apply row xs)) result }
{
    let kind = result_kind(alloc, row, args.kinds.as_slice(), at)?;
    Ok(TypedEx {
        ex: Ex::Apply {
            row,
            args: args.exs,
        },
        kind,
    })
}

/// The set of these members, or Clash at `at`.
fn set_of(alloc: Global, members: TypedExs, at: u32) -> Result<TypedEx, TypeError>
    requires { 1 ≤ length (kind_trees members.kinds) }
    ensures { (known : List Known) (xs : ExprTrees) → JudgesAll known xs (Ok (kind_trees members.kinds)) → exs (map ex_tree (ex_items members.exs)) ≡ exs_of (names_in known) xs
        → AnswersEx known (expr_at at (SetOf xs)) result }
{
    let kind = common_kind(alloc, members.kinds.as_slice(), at)?;
    let kind = Box::new(alloc, kind)?;
    Ok(TypedEx {
        ex: Ex::SetOf(members.exs),
        kind: Kind::Set(kind),
    })
}

/// The part `k` of a tuple, or Clash at `at`.
fn part(alloc: Global, tuple: TypedEx, k: u32, at: u32) -> Result<TypedEx, TypeError>
    ensures { (known : List Known) (x : ExprTree) → Judges known x (Ok (kind_tree tuple.kind)) → ex_tree tuple.ex ≡ ex_of (names_in known) x
        → AnswersEx known (expr_at at (Part x k)) result }
{
    let (kind, tuple) = beside(part_kind(alloc, &tuple.kind, k, at), tuple)?;
    let of = Box::new(alloc, tuple.ex)?;
    Ok(TypedEx {
        ex: Ex::Part { of, k },
        kind,
    })
}

/// The variable of a name, wherever the expression itself stands.
fn variable(alloc: Global, known: &Names, name: &Ident) -> Result<TypedEx, TypeError>
    ensures { (at : ℕ) → AnswersEx (known_in known.now) (expr_at at (Name (name_tree name.now))) result }
{
    match known.find(name.text.as_str()) {
        Some((place, kind)) => Ok(TypedEx {
            kind: kind.copy(alloc)?,
            ex: Ex::Slot(place),
        }),
        None => Err(TypeError::Unknown { at: name.at }),
    }
}

/// Expressions with their kinds, or the first broken rule.
#[cycle(expr)]
fn typed_exprs(alloc: Global, known: &Names, xs: &[Expr]) -> Result<TypedExs, TypeError>
    requires { AreBuilt Takes (exprs (map expr_tree xs.now)) }
    ensures judged { IfOk result (λ t. JudgesAll (known_in known.now) (exprs (map expr_tree xs.now)) (Ok (kind_trees t.kinds))) }
    ensures translated { IfOk result (λ t. exs (map ex_tree (ex_items t.exs)) ≡ exs_of (names_in (known_in known.now)) (exprs (map expr_tree xs.now))) }
    ensures err { IfErr result (λ e. e ≢ TypeError.Mem → JudgesAll (known_in known.now) (exprs (map expr_tree xs.now)) (Err e)) }
{
    let mut exs = Vec::new(alloc);
    let mut kinds = Vec::new(alloc);
    for x in xs {
        let typed = expr(alloc, known, x)?;
        exs.push(typed.ex)?;
        kinds.push(typed.kind)?;
    }
    Ok(TypedExs {
        exs: ExList::new(exs),
        kinds: KindList::new(kinds),
    })
}

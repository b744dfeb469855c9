//! Values as they are written in a source.

ghost use Rattle.std.specs.Prelude.{◌≡◌, ◌≤ℤ◌, pos, unsigned_abs, map, Ok, IfOk, IsOkAnd};
ghost use Rattle.std.specs.List.{AllByRecursion as Each};
ghost use Rattle.kf_value.specs.Types.{type_parts};
ghost use Rattle.kf_value.specs.TypeViews.{type_tree};
ghost use Rattle.kf_value.specs.Values.{whole as whole_in, elements as elements_in};
ghost use Rattle.kf_value.specs.Views.{value_tree};
ghost use Rattle.kf_ops.specs.Places.{number_of};
ghost use Rattle.kf_ast.specs.Exprs.{expr_at, exprs, Number, Apply, SetOf};
ghost use Rattle.kf_ast.specs.Views.{expr_tree, expr_items};
ghost use Rattle.kf_prior.specs.FullSources.{literal as literal_of, only as only_of, part_literals as literals_of, parts_of, set_literal as set_of, whole_literal as whole_of};
ghost use Rattle.kf_prior.specs.Literals.{IsBase, IsShort, HasLiteral, HaveLiterals, least_of};

use kf_ast::{Expr, ExprList, ExprNode};
use kf_ops::Op;
use kf_value::{Mem, Ty, Value, is_true, value_at};
use std::alloc::Global;

/// A value of the type as an expression, all at one place.
#[cycle(literal)]
pub(crate) fn literal(alloc: Global, at: u32, ty: &Ty, v: &Value) -> Result<Expr, Mem>
    requires { HasLiteral (type_tree ty.now) (value_tree v.now) }
    ensures { IfOk result (λ x. expr_tree x ≡ literal_of at (type_tree ty.now) (value_tree v.now)) }
{
    match ty {
        Ty::Bool => Ok(Expr {
            at,
            node: ExprNode::Truth(is_true(v)),
        }),
        Ty::Int { .. } => whole_literal(alloc, at, whole(v)),
        Ty::Tuple(types) => Ok(Expr {
            at,
            node: ExprNode::Tuple(part_literals(alloc, at, types.as_slice(), parts(v))?),
        }),
        Ty::Set(base) => set_literal(alloc, at, base, elements(v)),
    }
}

/// The parts of a tuple, one for each type.
#[cycle(literal)]
fn part_literals(alloc: Global, at: u32, types: &[Ty], values: &[Value]) -> Result<ExprList, Mem>
    requires { HaveLiterals (type_parts (map type_tree types.now)) (map value_tree values.now) }
    ensures { IfOk result (λ xs. map expr_tree (expr_items xs) ≡ literals_of at (type_parts (map type_tree types.now)) (map value_tree values.now)) }
{
    let mut parts = Vec::new(alloc);
    for i in 0..types.len() {
        parts.push(literal(alloc, at, &types[i], &values[i])?)?;
    }
    Ok(ExprList::new(parts))
}

/// A set of the base's values; where there is none, the set of the base's first value less itself.
#[cycle(literal)]
fn set_literal(alloc: Global, at: u32, base: &Ty, values: &[Value]) -> Result<Expr, Mem>
    requires base { IsBase (type_tree base.now) }
    requires least { HasLiteral (type_tree base.now) (least_of (type_tree base.now)) }
    requires elements { Each (HasLiteral (type_tree base.now)) (map value_tree values.now) }
    ensures { IfOk result (λ x. expr_tree x ≡ set_of at (literal_of at (type_tree base.now) (least_of (type_tree base.now)))
        (map (literal_of at (type_tree base.now)) (map value_tree values.now))) }
{
    if values.is_empty() {
        let least = value_at(alloc, base, 0)?;
        let first = only(alloc, at, literal(alloc, at, base, &least));
        let second = only(alloc, at, literal(alloc, at, base, &least));
        drop(least);
        let (first, second) = both(first, second)?;
        return Ok(applied(at, Op::Without, vec![in alloc; first, second]?));
    }
    let mut members = Vec::new(alloc);
    for value in values {
        members.push(literal(alloc, at, base, value)?)?;
    }
    Ok(set(at, members))
}

/// A negative number is its distance from 0 behind a `-`.
pub(crate) fn whole_literal(alloc: Global, at: u32, n: i64) -> Result<Expr, Mem>
    requires { IsShort n }
    ensures { IfOk result (λ x. expr_tree x ≡ whole_of at n) }
{
    if n < 0 {
        return Ok(applied(at, Op::Negate, vec![in alloc; number(at, -n)]?));
    }
    Ok(number(at, n))
}

fn number(at: u32, n: i64) -> Expr
    requires low { pos 0 ≤ℤ n }
    requires high { n ≤ℤ pos 1000000 }
    ensures { expr_tree result ≡ expr_at at (Number (unsigned_abs n)) }
{
    Expr {
        at,
        node: ExprNode::Number(n as u32),
    }
}

fn applied(at: u32, op: Op, args: Vec<Expr>) -> Expr
    ensures { expr_tree result ≡ expr_at at (Apply (number_of op) (exprs (map expr_tree args.items))) }
{
    Expr {
        at,
        node: ExprNode::Apply {
            row: op as u8,
            args: ExprList::new(args),
        },
    }
}

/// The set of what the expressions give.
pub(crate) fn set(at: u32, members: Vec<Expr>) -> Expr
    ensures { expr_tree result ≡ expr_at at (SetOf (exprs (map expr_tree members.items))) }
{
    Expr {
        at,
        node: ExprNode::SetOf(ExprList::new(members)),
    }
}

/// The set of one expression, if there was memory for this.
fn only(alloc: Global, at: u32, member: Result<Expr, Mem>) -> Result<Expr, Mem>
    ensures { IfOk result (λ x. IsOkAnd member (λ m. expr_tree x ≡ only_of at (expr_tree m))) }
{
    let member = member?;
    Ok(set(at, vec![in alloc; member]?))
}

/// Both, if there was memory for both.
pub(crate) fn both<A: Drop, B: Drop>(
    first: Result<A, Mem>,
    second: Result<B, Mem>,
) -> Result<(A, B), Mem>
    ensures { IfOk result (λ both. (first ≡ Ok both.0) × (second ≡ Ok both.1)) }
{
    let first = first?;
    let second = second?;
    Ok((first, second))
}

/// The whole number, or 0.
fn whole(v: &Value) -> i64
    ensures { result ≡ whole_in (value_tree v.now) }
{
    match v {
        Value::Int(n) => *n,
        _ => 0,
    }
}

/// The parts of a tuple, or none.
#[tactic(auto, using(crate::proofs::Written::readings))]
fn parts(v: &Value) -> &[Value]
    ensures { map value_tree result.now ≡ parts_of (value_tree v.now) }
{
    match v {
        Value::Tuple(parts) => parts.as_slice(),
        _ => &[],
    }
}

/// The elements of a set, or none.
#[tactic(auto, using(crate::proofs::Written::readings))]
fn elements(v: &Value) -> &[Value]
    ensures { map value_tree result.now ≡ elements_in (value_tree v.now) }
{
    match v {
        Value::Set(elements) => elements.as_slice(),
        _ => &[],
    }
}

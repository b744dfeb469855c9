ghost use Rattle.std.specs.Prelude.{◌≡◌, ◌≢◌, ◌^◌, ◌-◌, ◌-ℤ◌, ◌<◌, ◌≤◌, min, map, true, false, IfOk, IfErr};
ghost use Rattle.kf_value.specs.Types.{count, counted, in_bounds, product};
ghost use Rattle.kf_value.specs.TypeViews.{type_tree};
ghost use Rattle.kf_value.specs.Views.{type_trees};
ghost use Rattle.kf_ast.specs.TypeForms.{types};
ghost use Rattle.kf_ast.specs.Views.{type_form};
ghost use Rattle.kf_check.specs.Types.{greatest_size, JudgesType, JudgesTypes};
ghost use Rattle.kf_check.specs.Answers.{AnswersType};

use crate::TypeError;
use kf_ast::{TyNode, TyTree};
use kf_value::{Ty, TyList};
use std::alloc::Global;

/// The most values that a type may have.
const GREATEST_SIZE: u32 = 65_536;

/// The most values that the base of a set may have.
const GREATEST_BASE: u32 = 16;

/// How far from 0 the bounds of a range may lie.
const FARTHEST_BOUND: i64 = 1_000_000;

/// A type and the number of its values.
#[derive(Drop)]
struct SizedTy {
    ty: Ty,
    size: u32,
}

/// Types and the product of their numbers of values, or as much of it as 32 bits hold.
#[derive(Drop)]
struct SizedTys {
    types: TyList,
    product: u32,
}

/// The type of a variable, or its first broken rule.
pub fn ty(alloc: Global, x: &TyTree) -> Result<Ty, TypeError>
    ensures { AnswersType greatest_size (type_form x.now) result }
{
    Ok(ty_within(alloc, x, GREATEST_SIZE)?.ty)
}

/// The same of a type that may have at most `limit` values.
#[cycle(ty)]
fn ty_within(alloc: Global, x: &TyTree, limit: u32) -> Result<SizedTy, TypeError>
    requires low { 2 ≤ limit }
    requires high { limit ≤ 65536 }
    ensures judged { IfOk result (λ t. JudgesType limit (type_form x.now) (Ok (type_tree t.ty))) }
    ensures sized { IfOk result (λ t. t.size ≡ count (type_tree t.ty)) }
    ensures few { IfOk result (λ t. t.size ≤ limit) }
    ensures err { IfErr result (λ e. e ≢ TypeError.Mem → JudgesType limit (type_form x.now) (Err e)) }
{
    match &x.node {
        TyNode::Bool => Ok(SizedTy {
            ty: Ty::Bool,
            size: 2,
        }),
        TyNode::Int { lo, hi } => {
            let size = at_most(limit, range_size(*lo, *hi, x.at)?, x.at)?;
            Ok(SizedTy {
                ty: Ty::Int { lo: *lo, hi: *hi },
                size,
            })
        }
        TyNode::Tuple(parts) => {
            let parts = tys(alloc, parts.as_slice())?;
            let size = at_most(limit, parts.product, x.at)?;
            Ok(SizedTy {
                ty: Ty::Tuple(parts.types),
                size,
            })
        }
        TyNode::Set(base) => {
            let base = ty_within(alloc, base, GREATEST_BASE)?;
            let size = at_most(limit, 1 << base.size, x.at)?;
            Ok(SizedTy {
                ty: Ty::Set(Box::new(alloc, base.ty)?),
                size,
            })
        }
    }
}

/// The number of values, if it is at most the limit.
fn at_most(limit: u32, size: u32, at: u32) -> Result<u32, TypeError>
    ensures ok { IfOk result (λ n. (n ≡ size) × (size ≤ limit)) }
    ensures err { IfErr result (λ e. (e ≡ TypeError.TypeTooLarge at) × (limit < size)) }
{
    if size <= limit {
        Ok(size)
    } else {
        Err(TypeError::TypeTooLarge { at })
    }
}

/// The number of whole numbers from the first to the second.
fn range_size(lo: i64, hi: i64, at: u32) -> Result<u32, TypeError>
    ensures ok { IfOk result (λ n. (in_bounds lo hi ≡ true) × (n ≡ counted (hi -ℤ lo))) }
    ensures err { IfErr result (λ e. (e ≡ TypeError.BadRange at) × (in_bounds lo hi ≡ false)) }
{
    if -FARTHEST_BOUND <= lo && lo <= hi && hi <= FARTHEST_BOUND {
        Ok((hi - lo + 1) as u32)
    } else {
        Err(TypeError::BadRange { at })
    }
}

/// The types of a tuple's parts.
#[cycle(ty)]
fn tys(alloc: Global, parts: &[TyTree]) -> Result<SizedTys, TypeError>
    ensures judged { IfOk result (λ t. JudgesTypes (types (map type_form parts.now)) (Ok (type_trees t.types))) }
    ensures sized { IfOk result (λ t. t.product ≡ min (product (map count (type_trees t.types))) (2 ^ 32 - 1)) }
    ensures err { IfErr result (λ e. e ≢ TypeError.Mem → JudgesTypes (types (map type_form parts.now)) (Err e)) }
{
    let mut types = Vec::new(alloc);
    let mut product: u32 = 1;
    for part in parts {
        let part = ty_within(alloc, part, GREATEST_SIZE)?;
        product = product.saturating_mul(part.size);
        types.push(part.ty)?;
    }
    Ok(SizedTys {
        types: TyList::new(types),
        product,
    })
}

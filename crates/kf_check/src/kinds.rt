ghost use Rattle.std.specs.Prelude.{◌≡◌, ◌↔◌, map, IfOk, IsTrue};
ghost use Rattle.kf_value.specs.TypeViews.{type_tree};
ghost use Rattle.kf_value.specs.Views.{kind_tree, kind_trees};
ghost use Rattle.kf_value.specs.Kinds.{kind_of};

use kf_value::{Kind, KindList, Mem, Ty};
use std::alloc::Global;

/// Whether two kinds are the same.
#[cycle(same_kind)]
pub fn same_kind(a: &Kind, b: &Kind) -> bool
    ensures { IsTrue result ↔ (kind_tree a.now ≡ kind_tree b.now) }
{
    match a {
        Kind::Bool => matches!(b, Kind::Bool),
        Kind::Int => matches!(b, Kind::Int),
        Kind::Tuple(xs) => match b {
            Kind::Tuple(ys) => same_kinds(xs.as_slice(), ys.as_slice()),
            _ => false,
        },
        Kind::Set(x) => match b {
            Kind::Set(y) => same_kind(x, y),
            _ => false,
        },
    }
}

/// Whether two lists have the same kinds in the same order.
#[cycle(same_kind)]
pub fn same_kinds(xs: &[Kind], ys: &[Kind]) -> bool
    ensures { IsTrue result ↔ (map kind_tree xs.now ≡ map kind_tree ys.now) }
{
    if xs.len() != ys.len() {
        return false;
    }
    for i in 0..xs.len() {
        if !same_kind(&xs[i], &ys[i]) {
            return false;
        }
    }
    true
}

/// The kind of a type's values.
#[cycle(kind_of)]
pub fn kind_of(alloc: Global, ty: &Ty) -> Result<Kind, Mem>
    ensures { IfOk result (λ kind. kind_tree kind ≡ kind_of (type_tree ty.now)) }
{
    match ty {
        Ty::Bool => Ok(Kind::Bool),
        Ty::Int { .. } => Ok(Kind::Int),
        Ty::Tuple(parts) => Ok(Kind::Tuple(kinds_of(alloc, parts.as_slice())?)),
        Ty::Set(base) => Ok(Kind::Set(Box::new(alloc, kind_of(alloc, base)?)?)),
    }
}

/// The kinds of the values of types.
#[cycle(kind_of)]
fn kinds_of(alloc: Global, types: &[Ty]) -> Result<KindList, Mem>
    ensures { IfOk result (λ kinds. kind_trees kinds ≡ map kind_of (map type_tree types.now)) }
{
    let mut kinds = Vec::new(alloc);
    for ty in types {
        kinds.push(kind_of(alloc, ty)?)?;
    }
    Ok(KindList::new(kinds))
}

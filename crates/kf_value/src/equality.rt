//! Equality of targets.

ghost use Rattle.std.specs.Prelude.{◌≡◌, ◌↔◌, map, IsTrue};
ghost use Rattle.kf_value.specs.TypeViews.{item_of, type_tree};
ghost use Rattle.kf_value.specs.Views.{items_of};

use crate::{Target, TargetItem, Ty};

/// Whether two targets have the same items in the same order: each alike in `old`, name and type.
pub fn same_target(a: &Target, b: &Target) -> bool
    ensures { IsTrue result ↔ (items_of a.now ≡ items_of b.now) }
{
    same_items(a.items.as_slice(), b.items.as_slice())
}

// Whether two lists have the same items in the same order.
fn same_items(xs: &[TargetItem], ys: &[TargetItem]) -> bool
    ensures { IsTrue result ↔ (map item_of xs.now ≡ map item_of ys.now) }
{
    if xs.len() != ys.len() {
        return false;
    }
    for i in 0..xs.len() {
        if !same_item(&xs[i], &ys[i]) {
            return false;
        }
    }
    true
}

// Whether two items are alike in `old`, name and type.
fn same_item(a: &TargetItem, b: &TargetItem) -> bool
    ensures { IsTrue result ↔ (item_of a.now ≡ item_of b.now) }
{
    a.initial == b.initial && a.name.as_str() == b.name.as_str() && same_type(&a.ty, &b.ty)
}

// Whether two types are the same.
#[cycle(same_type)]
fn same_type(a: &Ty, b: &Ty) -> bool
    ensures { IsTrue result ↔ (type_tree a.now ≡ type_tree b.now) }
{
    match a {
        Ty::Bool => matches!(b, Ty::Bool),
        Ty::Int { lo, hi } => match b {
            Ty::Int {
                lo: other_lo,
                hi: other_hi,
            } => lo == other_lo && hi == other_hi,
            _ => false,
        },
        Ty::Tuple(xs) => match b {
            Ty::Tuple(ys) => same_types(xs.as_slice(), ys.as_slice()),
            _ => false,
        },
        Ty::Set(x) => match b {
            Ty::Set(y) => same_type(x, y),
            _ => false,
        },
    }
}

// Whether two lists have the same types in the same order.
#[cycle(same_type)]
fn same_types(xs: &[Ty], ys: &[Ty]) -> bool
    ensures { IsTrue result ↔ (map type_tree xs.now ≡ map type_tree ys.now) }
{
    if xs.len() != ys.len() {
        return false;
    }
    for i in 0..xs.len() {
        if !same_type(&xs[i], &ys[i]) {
            return false;
        }
    }
    true
}

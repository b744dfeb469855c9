//! The declarations and the target of a full source.

ghost use Rattle.std.specs.Prelude.{◌≡◌, ◌++◌, ◌<◌, ◌≤◌, true, false, length, map, IfOk, IsTrue, OnOk};
ghost use Rattle.kf_value.specs.Shapes.{shape_types};
ghost use Rattle.kf_value.specs.Sizes.{HasNumber, HasSize, well_formed};
ghost use Rattle.kf_value.specs.TypeViews.{type_tree};
ghost use Rattle.kf_value.specs.Types.{count, values};
ghost use Rattle.kf_value.specs.Values.{ValueTree};
ghost use Rattle.kf_ast.specs.Views.{decl_items, decl_tree, dist_tree, expr_tree, item_tree, target_items};
ghost use Rattle.kf_prior.specs.FullSources.{full_decl as decl_of, item_for, literal as literal_of, uniform_over as uniform_of};
ghost use Rattle.kf_prior.specs.Literals.{full_decls as decls_of};

use crate::literals::{both, literal, set, whole_literal};
use kf_ast::{Decl, DeclList, Dist, DistNode, Expr, Item, ItemList};
use kf_value::{Mem, Shape, Ty, value_at};
use std::alloc::Global;

/// The declarations of variables of these types, where each first value is as likely as the others.
pub(crate) fn full_decls(alloc: Global, decls: &[Decl], shape: &Shape) -> Result<DeclList, Mem>
    requires { length decls.now ≤ length (shape_types shape.now) }
    ensures { IfOk result (λ ds. map decl_tree (decl_items ds) ≡ decls_of (shape_types shape.now) (map decl_tree decls.now)) }
{
    let types = shape.types().as_slice();
    let mut full = Vec::new(alloc);
    for i in 0..decls.len() {
        full.push(full_decl(alloc, &decls[i], &types[i], shape.size(i))?)?;
    }
    Ok(DeclList::new(full))
}

fn full_decl(alloc: Global, decl: &Decl, ty: &Ty, size: u32) -> Result<Decl, Mem>
    requires formed { IsTrue (well_formed (type_tree ty.now)) }
    requires sized { HasSize (type_tree ty.now) }
    requires size { size ≡ count (type_tree ty.now) }
    ensures { IfOk result (λ d. decl_tree d ≡ decl_of (type_tree ty.now) (decl_tree decl.now)) }
{
    let dist = uniform_over(alloc, decl.dist.at, ty, size);
    let (name, (ty, dist)) = both(decl.name.copy(alloc), both(decl.ty.copy(alloc), dist))?;
    Ok(Decl {
        visible: decl.visible,
        name,
        ty,
        dist,
    })
}

/// Each value of the type alike; it has so many.
fn uniform_over(alloc: Global, at: u32, ty: &Ty, size: u32) -> Result<Dist, Mem>
    requires formed { IsTrue (well_formed (type_tree ty.now)) }
    requires sized { HasSize (type_tree ty.now) }
    requires size { size ≡ count (type_tree ty.now) }
    ensures { IfOk result (λ d. dist_tree d ≡ uniform_of at (type_tree ty.now)) }
{
    let node = match ty {
        Ty::Int { lo, hi } => {
            let least = whole_literal(alloc, at, *lo);
            let (least, greatest) = both(least, whole_literal(alloc, at, *hi))?;
            DistNode::UniformRange(least, greatest)
        }
        Ty::Bool | Ty::Tuple(_) | Ty::Set(_) => {
            DistNode::UniformSet(set(at, all_literals(alloc, at, ty, size)?))
        }
    };
    Ok(Dist { at, node })
}

/// The values of the type in their order; it has so many.
fn all_literals(alloc: Global, at: u32, ty: &Ty, size: u32) -> Result<Vec<Expr>, Mem>
    requires formed { IsTrue (well_formed (type_tree ty.now)) }
    requires sized { HasSize (type_tree ty.now) }
    requires size { size ≡ count (type_tree ty.now) }
    ensures { IfOk result (λ xs. map expr_tree xs.items ≡ map (literal_of at (type_tree ty.now)) (values (type_tree ty.now))) }
{
    let mut literals = Vec::new(alloc);
    for n in 0..size {
        literals.push(nth_literal(alloc, at, ty, n)?)?;
    }
    Ok(literals)
}

/// The value of the type with the number `n`, counted from 0.
fn nth_literal(alloc: Global, at: u32, ty: &Ty, n: u32) -> Result<Expr, Mem>
    requires formed { IsTrue (well_formed (type_tree ty.now)) }
    requires sized { HasSize (type_tree ty.now) }
    requires below { n < count (type_tree ty.now) }
    ensures { IfOk result (λ x. (v : ValueTree) × HasNumber (type_tree ty.now) v n × (expr_tree x ≡ literal_of at (type_tree ty.now) v)) }
{
    let value = value_at(alloc, ty, n)?;
    literal(alloc, at, ty, &value)
}

/// Each declared variable before the statements, and then each behind them.
pub(crate) fn full_target(alloc: Global, decls: &[Decl]) -> Result<ItemList, Mem>
    ensures { IfOk result (λ is. map item_tree (target_items is)
        ≡ map (item_for true) (map decl_tree decls.now) ++ map (item_for false) (map decl_tree decls.now)) }
{
    let mut items = Vec::new(alloc);
    add_items(alloc, &mut items, decls, true)?;
    add_items(alloc, &mut items, decls, false)?;
    Ok(ItemList::new(items))
}

fn add_items(alloc: Global, items: &mut Vec<Item>, decls: &[Decl], initial: bool) -> Result<(), Mem>
    ensures { OnOk result (map item_tree items.new.items ≡ map item_tree items.old.items ++ map (item_for initial) (map decl_tree decls.now)) }
{
    for decl in decls {
        items.push(Item {
            initial,
            name: decl.name.copy(alloc)?,
        })?;
    }
    Ok(())
}

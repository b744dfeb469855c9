ghost use Rattle.std.specs.Prelude.{◌≡◌, ◌≤◌, ◌+◌, ◌*◌, List, length, map, option_to_list, IfOk, MatchBool};
ghost use Rattle.kf_value.specs.Types.{TypeTree, count, product};
ghost use Rattle.kf_value.specs.TypeViews.{type_tree, item_of};
ghost use Rattle.kf_ast.specs.Sources.{ItemTree};
ghost use Rattle.kf_ast.specs.Views.{item_tree};
ghost use Rattle.kf_check.specs.Sources.{known_of};
ghost use Rattle.kf_check.specs.Views.{known_in};
ghost use Rattle.kf_check.specs.Variables.{variables_in, AreDeclared};
ghost use Rattle.kf_check.specs.SourceAnswers.{AnswersItem, HasSame, Stands};

use crate::TypeError;
use crate::errors::beside;
use crate::limits::grow;
use crate::variables::{Declared, Variable};
use kf_ast::Item;
use kf_value::{Mem, TargetItem};
use std::alloc::Global;

/// An item of a target, which breaks no rule.
#[derive(Drop)]
pub struct ReadItem {
    pub item: TargetItem,
    /// The variable from which it is read.
    pub slot: u8,
    /// The variable that is carried for it, if one is.
    pub copied: Option<u8>,
    /// How many stores there are with that copy.
    pub stores: u64,
}

/// Whether two items are the same but for their places.
fn same_item(a: &Item, b: &Item) -> bool
    ensures { MatchBool result ((a.now.initial ≡ b.now.initial) × (a.now.name.text ≡ b.now.name.text)) ((a.now.initial ≡ b.now.initial) → (a.now.name.text ≡ b.now.name.text) → ⊥) }
{
    a.initial == b.initial && a.name.text.as_str() == b.name.text.as_str()
}

/// Whether the item stands among these ones.
fn stands(before: &[Item], item: &Item) -> bool
    ensures { MatchBool result (Stands (map item_tree before.now) item.now.initial item.now.name.text) (¬ Stands (map item_tree before.now) item.now.initial item.now.name.text) }
{
    for other in before {
        if same_item(other, item) {
            return true;
        }
    }
    false
}

/// A variable as an item.
pub fn variable_item(alloc: Global, initial: bool, variable: &Variable) -> Result<TargetItem, Mem>
    ensures { IfOk result (λ x. item_of x ≡ record { initial = initial; name = variable.now.name; ty = type_tree variable.now.ty }) }
{
    Ok(TargetItem {
        initial,
        name: variable.name.copy(alloc)?,
        ty: variable.ty.copy(alloc)?,
    })
}

/// An item behind those before it, where there are so many carried copies and stores, or its first broken rule.
pub fn check_item(
    alloc: Global,
    declared: &Declared,
    copies: usize,
    stores: u64,
    before: &[Item],
    item: &Item,
) -> Result<ReadItem, TypeError>
    requires declared { AreDeclared (variables_in declared.now) }
    requires known { known_in declared.now.names ≡ known_of (variables_in declared.now) }
    requires few { length (variables_in declared.now) + copies ≤ 32 }
    ensures answer { (stood : List ItemTree) (ts : List TypeTree) → HasSame stood (map item_tree before.now) → length ts ≡ length (variables_in declared.now) + copies → stores ≡ product (map count ts)
        → AnswersItem (variables_in declared.now) stood copies ts (item_tree item.now) result }
    ensures counted { IfOk result (λ x. x.stores ≡ stores * product (map (λ c. count (item_of x.item).ty) (option_to_list x.copied))) }
    ensures few { IfOk result (λ x. length (variables_in declared.now) + (copies + length (option_to_list x.copied)) ≤ 32) }
{
    let at = item.name.at;
    let Some((slot, _)) = declared.names.find(item.name.text.as_str()) else {
        return Err(TypeError::Unknown { at });
    };
    if stands(before, item) {
        return Err(TypeError::Twice { at });
    }
    let variable = &declared.variables[slot as usize];
    let read = variable_item(alloc, item.initial, variable)?;
    if !item.initial {
        return Ok(ReadItem {
            item: read,
            slot,
            copied: None,
            stores,
        });
    }
    let copy_slot = declared.variables.len() + copies;
    let (stores, read) = beside(grow(copy_slot, stores, &variable.ty, at), read)?;
    Ok(ReadItem {
        item: read,
        slot: copy_slot as u8,
        copied: Some(slot),
        stores,
    })
}

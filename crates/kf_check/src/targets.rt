ghost use Rattle.std.specs.Prelude.{◌≡◌, ◌≤◌, ◌++◌, ◌∷◌, [], false, length, map, option_to_list, IfOk, IfErr, OnOk};
ghost use Rattle.std.specs.List.{range_with_len};
ghost use Rattle.kf_value.specs.TypeViews.{item_of as item_shown};
ghost use Rattle.kf_value.specs.Types.{count, product};
ghost use Rattle.kf_ast.specs.Views.{item_tree};
ghost use Rattle.kf_check.specs.Sources.{known_of, types_of};
ghost use Rattle.kf_check.specs.Views.{known_in};
ghost use Rattle.kf_check.specs.Variables.{variable_of, variables_in, AreDeclared};
ghost use Rattle.kf_check.specs.SourceAnswers.{AnswersTarget, as_items};

use crate::TypeError;
use crate::items::{ReadItem, check_item, variable_item};
use crate::variables::{Declared, Variable};
use kf_ast::Item;
use kf_value::{SlotList, Target, TargetItem, TargetItemList};
use std::alloc::Global;

/// The target of a source, which breaks no rule.
#[derive(Drop)]
pub struct Targeted {
    pub target: Target,
    /// The variable of each carried copy.
    pub copies: SlotList,
    /// The variable from which each item is read.
    pub slots: SlotList,
}

/// Items of a target, which break no rule.
#[derive(Drop)]
struct ReadItems {
    items: Vec<TargetItem>,
    /// The variable of each carried copy.
    copies: Vec<u8>,
    /// The variable from which each item is read.
    slots: Vec<u8>,
    /// How many stores there are with the carried copies.
    stores: u64,
}

/// The target of a source, or its first broken rule.
pub fn check_target(
    alloc: Global,
    declared: &Declared,
    items: &[Item],
) -> Result<Targeted, TypeError>
    requires some { 1 ≤ length (variables_in declared.now) }
    requires declared { AreDeclared (variables_in declared.now) }
    requires known { known_in declared.now.names ≡ known_of (variables_in declared.now) }
    requires counted { declared.now.stores ≡ product (map count (types_of (variables_in declared.now))) }
    ensures { AnswersTarget (variables_in declared.now) (map item_tree items.now) result }
{
    if items.is_empty() {
        all_variables(alloc, &declared.variables)
    } else {
        check_items(alloc, declared, items)
    }
}

/// The target that is all declared variables.
fn all_variables(alloc: Global, variables: &[Variable]) -> Result<Targeted, TypeError>
    requires some { 1 ≤ length variables.now }
    requires declared { AreDeclared (map variable_of variables.now) }
    ensures { AnswersTarget (map variable_of variables.now) [] result }
{
    let items = final_items(alloc, variables)?;
    let slots = first_slots(alloc, variables.len())?;
    Ok(Targeted {
        target: Target {
            items: TargetItemList::new(items),
        },
        copies: SlotList::new(Vec::new(alloc)),
        slots: SlotList::new(slots),
    })
}

/// The variables as items behind the last statement.
fn final_items(alloc: Global, variables: &[Variable]) -> Result<Vec<TargetItem>, TypeError>
    ensures items { IfOk result (λ v. map item_shown v.items ≡ as_items (map variable_of variables.now)) }
    ensures memory { IfErr result (λ e. e ≡ TypeError.Mem) }
{
    let mut items = Vec::new(alloc);
    for variable in variables {
        items.push(variable_item(alloc, false, variable)?)?;
    }
    Ok(items)
}

/// The first slots, from 0.
fn first_slots(alloc: Global, count: usize) -> Result<Vec<u8>, TypeError>
    requires { count ≤ 32 }
    ensures slots { IfOk result (λ v. v.items ≡ range_with_len 0 count) }
    ensures memory { IfErr result (λ e. e ≡ TypeError.Mem) }
{
    let mut slots = Vec::new(alloc);
    for i in 0..count {
        slots.push(i as u8)?;
    }
    Ok(slots)
}

/// The target that is these items, or its first broken rule.
fn check_items(alloc: Global, declared: &Declared, items: &[Item]) -> Result<Targeted, TypeError>
    requires some { 1 ≤ length items.now }
    requires declared { AreDeclared (variables_in declared.now) }
    requires known { known_in declared.now.names ≡ known_of (variables_in declared.now) }
    requires counted { declared.now.stores ≡ product (map count (types_of (variables_in declared.now))) }
    ensures { AnswersTarget (variables_in declared.now) (map item_tree items.now) result }
{
    let mut read = ReadItems {
        items: Vec::new(alloc),
        copies: Vec::new(alloc),
        slots: Vec::new(alloc),
        stores: declared.stores,
    };
    for i in 0..items.len() {
        let item = check_item(
            alloc,
            declared,
            read.copies.len(),
            read.stores,
            &items[..i],
            &items[i],
        )?;
        push_item(&mut read, item)?;
    }
    Ok(Targeted {
        target: Target {
            items: TargetItemList::new(read.items),
        },
        copies: SlotList::new(read.copies),
        slots: SlotList::new(read.slots),
    })
}

/// One item more.
fn push_item(read: &mut ReadItems, item: ReadItem) -> Result<(), TypeError>
    ensures items { OnOk result (read.new.items.items ≡ read.old.items.items ++ item.item ∷ []) }
    ensures copies { OnOk result (read.new.copies.items ≡ read.old.copies.items ++ option_to_list item.copied) }
    ensures slots { OnOk result (read.new.slots.items ≡ read.old.slots.items ++ item.slot ∷ []) }
    ensures stores { OnOk result (read.new.stores ≡ item.stores) }
    ensures memory { IfErr result (λ e. e ≡ TypeError.Mem) }
{
    read.items.push(item.item)?;
    push_copy(&mut read.copies, item.copied)?;
    read.slots.push(item.slot)?;
    read.stores = item.stores;
    Ok(())
}

/// One carried copy more, if there is one.
fn push_copy(copies: &mut Vec<u8>, copied: Option<u8>) -> Result<(), TypeError>
    ensures pushed { OnOk result (copies.new.items ≡ copies.old.items ++ option_to_list copied) }
    ensures memory { IfErr result (λ e. e ≡ TypeError.Mem) }
{
    match copied {
        Some(slot) => Ok(copies.push(slot)?),
        None => Ok(()),
    }
}

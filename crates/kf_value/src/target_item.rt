ghost use Rattle.std.specs.Prelude.{◌≡◌};

use crate::{Mem, Name, Ty};
use std::alloc::Global;
use std::marker::Model;

/// One part of a target: a variable's final value, or its initial one.
#[derive(Drop)]
pub struct TargetItem {
    /// Whether the variable is read before the program's statements, as `old x`.
    pub initial: bool,
    pub name: Name,
    pub ty: Ty,
}

/// The parts of a target in their order.
#[derive(Drop)]
pub struct TargetItemList {
    items: Vec<TargetItem>,
}

impl Model for TargetItemList {
    ghost use Rattle.std.specs.Prelude.{List};
    ghost use Rattle.std.specs.Coded.{codes};
    ghost use Rattle.kf_value.specs.contracts.ty.Ty as ty;
    ghost use Rattle.kf_value.specs.declared.target_item.TargetItem.{TargetItem};

    ghost Value = { List TargetItem };

    ghost coded = { Prim.hlevel (codes, ty.the_row.coded) };

    ghost view = { λ l. l.items.items };
}

impl TargetItem {
    ghost use Rattle.std.specs.Prelude.{IfOk};
    ghost use Rattle.kf_value.specs.TypeViews.{item_of};

    /// An equal item.
    pub fn copy(&self, alloc: Global) -> Result<TargetItem, Mem>
        ensures { IfOk result (λ copied. item_of copied ≡ item_of self.now) }
    {
        Ok(TargetItem {
            initial: self.initial,
            name: self.name.copy(alloc)?,
            ty: self.ty.copy(alloc)?,
        })
    }
}

impl TargetItemList {
    ghost use Rattle.std.specs.Prelude.{IfOk, map};
    ghost use Rattle.kf_value.specs.TypeViews.{item_of};

    pub fn new(items: Vec<TargetItem>) -> Self
        ensures { result ≡ items.items }
    {
        TargetItemList { items }
    }

    pub fn as_slice(&self) -> &[TargetItem]
        ensures { result.now ≡ self.now }
    {
        self.items.as_slice()
    }

    /// An equal list.
    pub fn copy(&self, alloc: Global) -> Result<TargetItemList, Mem>
        ensures { IfOk result (λ copied. map item_of copied ≡ map item_of self.now) }
    {
        let mut items = Vec::new(alloc);
        for item in &self.items {
            items.push(item.copy(alloc)?)?;
        }
        Ok(TargetItemList { items })
    }
}

ghost use Rattle.std.specs.Prelude.{◌≡◌, ◌≤◌, ◌<◌, ◌^◌, map, length, None, IsTrue};
ghost use Rattle.std.specs.List.{All, list_all};
ghost use Rattle.kf_value.specs.Sizes.{fault_of, well_formed};
ghost use Rattle.kf_value.specs.Numbers.{target_size};
ghost use Rattle.kf_value.specs.TypeViews.{item_of};

use crate::{Mem, TargetItemList};
use std::alloc::Global;

/// What a hyper is about: variables, each read at the end or before the statements.
#[derive(Drop)]
pub struct Target {
    /// At least one, of types that have a size, with at most `2^63` values together.
    pub items: TargetItemList,
    ghost some: { 1 ≤ length items },
    ghost formed: { IsTrue (list_all (λ i. well_formed (item_of i).ty) items) },
    ghost sized: { All (λ i. fault_of (item_of i).ty ≡ None) items },
    ghost fits: { target_size (map item_of items) ≤ 2 ^ 63 },
}

impl Target {
    ghost use Rattle.std.specs.Prelude.{IfOk};
    ghost use Rattle.kf_value.specs.Views.{items_of};

    /// An equal target.
    pub fn copy(&self, alloc: Global) -> Result<Target, Mem>
        ensures { IfOk result (λ copied. items_of copied ≡ items_of self.now) }
    {
        Ok(Target {
            items: self.items.copy(alloc)?,
        })
    }
}

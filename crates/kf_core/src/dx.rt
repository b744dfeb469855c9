ghost use Rattle.std.specs.Prelude.{◌≡◌};
ghost use Rattle.kf_core.specs.Views.{dx_case_items, dx_items};

use crate::Ex;

/// A distribution on values.
#[derive(Drop)]
pub struct Dx {
    /// The byte of the source at which it begins.
    pub at: u32,
    pub node: DxNode,
}

#[derive(Drop)]
pub enum DxNode {
    /// One value for certain.
    Sure(Ex),
    /// Each element of a set alike.
    UniformSet(Ex),
    /// Each whole number from the first to the second alike.
    UniformRange(Ex, Ex),
    /// Values with their weights; at least one case.
    Choose(DxCaseList),
    /// `true` with probability `num / den`, which is at most 1; `den` is above 0.
    Flip { num: u32, den: u32 },
}

/// A value and its weight.
#[derive(Drop)]
pub struct DxCase {
    pub value: Ex,
    pub weight: Ex,
}

#[derive(Drop)]
pub struct DxCaseList {
    items: Vec<DxCase>,
}

#[derive(Drop)]
pub struct DxList {
    items: Vec<Dx>,
}

impl DxCaseList {
    pub fn new(items: Vec<DxCase>) -> Self
        ensures { dx_case_items result ≡ items.items }
    {
        DxCaseList { items }
    }

    pub fn as_slice(&self) -> &[DxCase]
        ensures { result.now ≡ dx_case_items self.now }
    {
        self.items.as_slice()
    }
}

impl DxList {
    pub fn new(items: Vec<Dx>) -> Self
        ensures { dx_items result ≡ items.items }
    {
        DxList { items }
    }

    pub fn as_slice(&self) -> &[Dx]
        ensures { result.now ≡ dx_items self.now }
    {
        self.items.as_slice()
    }
}

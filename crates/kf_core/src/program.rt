use crate::{DxList, StList};
use kf_value::{Shape, SlotList, Target};

/// A program whose names and kinds are known.
#[derive(Drop)]
pub struct Program {
    /// The declared variables in order, and then the carried copies.
    pub shape: Shape,
    /// The distributions of the declared variables' first values, in order.
    pub decls: DxList,
    /// The variable of each carried copy: what it was behind the last declaration.
    pub copies: SlotList,
    pub body: StList,
    pub target: Target,
    /// The variable from which each item of the target is read.
    pub target_slots: SlotList,
}

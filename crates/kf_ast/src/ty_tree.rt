ghost use Rattle.std.specs.Prelude.{◌≡◌, map, IfOk};
ghost use Rattle.kf_ast.specs.Views.{ty_items, type_form};

use kf_value::Mem;
use std::alloc::Global;

/// A type as it is written.
#[cycle(ty)]
#[derive(Drop)]
pub struct TyTree {
    pub at: u32,
    pub node: TyNode,
}

#[cycle(ty)]
#[derive(Drop)]
pub enum TyNode {
    Bool,
    /// The whole numbers from `lo` to `hi`, as they are written: `lo` may be above `hi`.
    Int { lo: i64, hi: i64 },
    /// At least two parts.
    Tuple(TyTreeList),
    Set(Box<TyTree>),
}

#[cycle(ty)]
#[derive(Drop)]
pub struct TyTreeList {
    items: Vec<TyTree>,
}

impl TyTreeList {
    pub fn new(items: Vec<TyTree>) -> Self
        ensures { ty_items result ≡ items.items }
    {
        TyTreeList { items }
    }

    pub fn as_slice(&self) -> &[TyTree]
        ensures { result.now ≡ ty_items self.now }
    {
        self.items.as_slice()
    }

    /// An equal list.
    #[cycle(copy_type)]
    pub fn copy(&self, alloc: Global) -> Result<TyTreeList, Mem>
        ensures { IfOk result (λ copied. map type_form (ty_items copied) ≡ map type_form (ty_items self.now)) }
    {
        let mut items = Vec::new(alloc);
        for ty in &self.items {
            items.push(ty.copy(alloc)?)?;
        }
        Ok(TyTreeList { items })
    }
}

impl TyTree {
    /// An equal type.
    #[cycle(copy_type)]
    pub fn copy(&self, alloc: Global) -> Result<TyTree, Mem>
        ensures { IfOk result (λ copied. type_form copied ≡ type_form self.now) }
    {
        let node = match &self.node {
            TyNode::Bool => TyNode::Bool,
            TyNode::Int { lo, hi } => TyNode::Int { lo: *lo, hi: *hi },
            TyNode::Tuple(parts) => TyNode::Tuple(parts.copy(alloc)?),
            TyNode::Set(base) => TyNode::Set(Box::new(alloc, base.copy(alloc)?)?),
        };
        Ok(TyTree { at: self.at, node })
    }
}

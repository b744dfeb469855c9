ghost use Rattle.std.specs.Prelude.{◌≡◌, IfOk};
ghost use Rattle.kf_value.specs.Views.{kind_tree, kind_items, kind_trees};

use crate::Mem;
use std::alloc::Global;

/// The kind of an expression's value: the type without its ranges.
#[cycle(kind)]
#[derive(Drop)]
pub enum Kind {
    Bool,
    /// Any 64-bit whole number.
    Int,
    Tuple(KindList),
    Set(Box<Kind>),
}

/// The kinds of a tuple's parts.
#[cycle(kind)]
#[derive(Drop)]
pub struct KindList {
    items: Vec<Kind>,
}

impl KindList {
    pub fn new(items: Vec<Kind>) -> Self
        ensures { kind_items result ≡ items.items }
    {
        KindList { items }
    }

    pub fn as_slice(&self) -> &[Kind]
        ensures { result.now ≡ kind_items self.now }
    {
        self.items.as_slice()
    }

    /// An equal list.
    #[cycle(copy_kind)]
    pub fn copy(&self, alloc: Global) -> Result<KindList, Mem>
        ensures { IfOk result (λ copied. kind_trees copied ≡ kind_trees self.now) }
    {
        let mut items = Vec::new(alloc);
        for kind in &self.items {
            items.push(kind.copy(alloc)?)?;
        }
        Ok(KindList { items })
    }
}

impl Kind {
    /// An equal kind.
    #[cycle(copy_kind)]
    pub fn copy(&self, alloc: Global) -> Result<Kind, Mem>
        ensures { IfOk result (λ copied. kind_tree copied ≡ kind_tree self.now) }
    {
        Ok(match self {
            Kind::Bool => Kind::Bool,
            Kind::Int => Kind::Int,
            Kind::Tuple(parts) => Kind::Tuple(parts.copy(alloc)?),
            Kind::Set(element) => Kind::Set(Box::new(alloc, element.copy(alloc)?)?),
        })
    }
}

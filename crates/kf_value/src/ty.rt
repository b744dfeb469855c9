ghost use Rattle.std.specs.Prelude.{◌≡◌, IfOk};
ghost use Rattle.kf_value.specs.TypeViews.{type_tree};
ghost use Rattle.kf_value.specs.Views.{type_items, type_trees};

use crate::Mem;
use std::alloc::Global;

/// The type of a variable.
///
/// A type has a size where each range lies within a million of 0 and is the right way round, each part has at most
/// 65,536 values and each base of a set at most 16.
#[cycle(ty)]
#[derive(Drop)]
pub enum Ty {
    Bool,
    /// The whole numbers from `lo` to `hi`.
    Int { lo: i64, hi: i64 },
    /// At least two parts.
    Tuple(TyList),
    /// The sets whose elements are of the base type.
    Set(Box<Ty>),
}

/// Types in a row: of a tuple's parts, or of a program's variables.
#[cycle(ty)]
#[derive(Drop)]
pub struct TyList {
    items: Vec<Ty>,
}

/// What is wrong with the first faulty part of a type.
#[derive(Clone, Copy, Debug, PartialEq, Eq)]
pub enum TyFault {
    /// A range whose bounds are the wrong way round or more than a million from 0.
    BadRange,
    /// A part with more than 65,536 values, or the base of a set with more than 16.
    TooManyValues,
}

impl TyList {
    pub fn new(items: Vec<Ty>) -> Self
        ensures { type_items result ≡ items.items }
    {
        TyList { items }
    }

    pub fn as_slice(&self) -> &[Ty]
        ensures { result.now ≡ type_items self.now }
    {
        self.items.as_slice()
    }

    /// An equal list.
    #[cycle(copy_ty)]
    pub fn copy(&self, alloc: Global) -> Result<TyList, Mem>
        ensures { IfOk result (λ copied. type_trees copied ≡ type_trees self.now) }
    {
        let mut items = Vec::new(alloc);
        for ty in &self.items {
            items.push(ty.copy(alloc)?)?;
        }
        Ok(TyList { items })
    }
}

impl Ty {
    /// An equal type.
    #[cycle(copy_ty)]
    pub fn copy(&self, alloc: Global) -> Result<Ty, Mem>
        ensures { IfOk result (λ copied. type_tree copied ≡ type_tree self.now) }
    {
        Ok(match self {
            Ty::Bool => Ty::Bool,
            Ty::Int { lo, hi } => Ty::Int { lo: *lo, hi: *hi },
            Ty::Tuple(parts) => Ty::Tuple(parts.copy(alloc)?),
            Ty::Set(base) => Ty::Set(Box::new(alloc, base.copy(alloc)?)?),
        })
    }
}

use kf_gain::GainTable;
use kf_simplex::FracList;
use kf_value::Mem;
use std::alloc::{AllocError, AllocFailed};
use std::marker::Model;

/// Rows of a matrix in their order.
#[derive(Drop)]
pub struct FracRowList {
    items: Vec<FracList>,
}

impl Model for FracRowList {
    ghost use Rattle.std.specs.Prelude.{List};
    ghost use Rattle.kf_simplex.specs.declared.lists.FracList.{FracList};

    ghost Value = { List FracList };

    ghost view = { λ l. l.items.items };
}

impl FracRowList {
    ghost use Rattle.std.specs.Prelude.{◌≡◌};

    pub fn new(items: Vec<FracList>) -> Self
        ensures { result ≡ items.items }
    {
        FracRowList { items }
    }

    pub fn as_slice(&self) -> &[FracList]
        ensures { result.now ≡ self.now }
    {
        self.items.as_slice()
    }
}

/// A matrix of fractions: for a refinement one row for each inner of the first hyper, and in each row one entry for each
/// inner of the second.
#[derive(Drop)]
pub struct Matrix {
    pub rows: FracRowList,
}

/// Whether the second hyper refines the first, that is, leaks no more than it under any gain function (Alvim et al. 2020),
/// with what proves it.
#[derive(Drop)]
pub enum Verdict {
    /// It does: the matrix carries the first hyper's joint weights to the second's.
    Yes(Matrix),
    /// It doesn't: under the gain table the first has the smaller posterior vulnerability.
    No(GainTable),
}

/// Why there is no verdict.
#[derive(Clone, Copy, Debug, PartialEq, Eq)]
pub enum RefineError {
    /// The hypers are about different targets: their items differ in `old`, name or type.
    Targets,
    /// The tableau has more than 4,000,000 cells: how many, or 2^127 - 1 where there are more than that.
    Cells { count: u128 },
    /// After so many pivots a number of the tableau passes 2^62 in absolute value.
    Wide { pivots: u32 },
    /// The run needs more pivots than were given.
    Budget,
    /// Want of memory.
    Mem,
}

impl From<Mem> for RefineError {
    ghost use Rattle.std.specs.Prelude.{◌≡◌};
    ghost use Rattle.kf_refine.specs.declared.verdict.RefineError.TheVariants as errors;

    ghost from_gives = { λ _ e. e ≡ errors.Mem };

    fn from(_: Mem) -> Self {
        RefineError::Mem
    }
}

impl From<AllocError> for RefineError {
    ghost use Rattle.std.specs.Prelude.{◌≡◌};
    ghost use Rattle.kf_refine.specs.declared.verdict.RefineError.TheVariants as errors;

    ghost from_gives = { λ _ e. e ≡ errors.Mem };

    fn from(_: AllocError) -> Self {
        RefineError::Mem
    }
}

impl<T: Drop> From<AllocFailed<T>> for RefineError {
    ghost use Rattle.std.specs.Prelude.{◌≡◌};
    ghost use Rattle.kf_refine.specs.declared.verdict.RefineError.TheVariants as errors;

    ghost from_gives = { λ _ e. e ≡ errors.Mem };

    fn from(_: AllocFailed<T>) -> Self {
        RefineError::Mem
    }
}

use kf_value::Mem;

/// Why a channel has no grid.
#[derive(Clone, Copy, Debug, PartialEq, Eq)]
pub enum GridFault {
    /// The least common denominator of the cells passes 2^127 - 1.
    Wide,
    Mem,
}

impl From<Mem> for GridFault {
    ghost use Rattle.std.specs.Prelude.{◌≡◌};
    ghost use Rattle.kf_capacity.specs.declared.error.GridFault.TheVariants as fault;

    ghost from_gives = { λ _ e. e ≡ fault.Mem };

    fn from(_: Mem) -> Self {
        GridFault::Mem
    }
}

/// Why two channels have no cascade.
#[derive(Clone, Copy, Debug, PartialEq, Eq)]
pub enum CascadeFault {
    /// Some trace of the first isn't the values of a secret of the second.
    Fit,
    /// A denominator passes 2^127 - 1.
    Wide,
    Mem,
}

impl From<Mem> for CascadeFault {
    ghost use Rattle.std.specs.Prelude.{◌≡◌};
    ghost use Rattle.kf_capacity.specs.declared.error.CascadeFault.TheVariants as fault;

    ghost from_gives = { λ _ e. e ≡ fault.Mem };

    fn from(_: Mem) -> Self {
        CascadeFault::Mem
    }
}

/// Why two channels can't be put side by side.
#[derive(Clone, Copy, Debug, PartialEq, Eq)]
pub enum ParallelFault {
    /// The channels are about different targets: their items differ in name or type.
    Targets,
    /// Their secrets differ.
    Rows,
    /// There would be more than 4,000,000 cells: how many, or 2^127 - 1 where there are more than that.
    Cells { count: u128 },
    /// A denominator passes 2^127 - 1.
    Wide,
    Mem,
}

impl From<Mem> for ParallelFault {
    ghost use Rattle.std.specs.Prelude.{◌≡◌};
    ghost use Rattle.kf_capacity.specs.declared.error.ParallelFault.TheVariants as fault;

    ghost from_gives = { λ _ e. e ≡ fault.Mem };

    fn from(_: Mem) -> Self {
        ParallelFault::Mem
    }
}

/// Why there is no choice between two channels.
#[derive(Clone, Copy, Debug, PartialEq, Eq)]
pub enum ChoiceFault {
    /// The channels are about different targets: their items differ in name or type.
    Targets,
    /// Their secrets differ.
    Rows,
    /// A denominator passes 2^127 - 1.
    Wide,
    Mem,
}

impl From<Mem> for ChoiceFault {
    ghost use Rattle.std.specs.Prelude.{◌≡◌};
    ghost use Rattle.kf_capacity.specs.declared.error.ChoiceFault.TheVariants as fault;

    ghost from_gives = { λ _ e. e ≡ fault.Mem };

    fn from(_: Mem) -> Self {
        ChoiceFault::Mem
    }
}

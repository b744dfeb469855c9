use crate::GainTable;
use kf_value::Mem;

/// What an adversary may do with what it knows.
#[derive(Drop)]
pub enum Gain {
    /// One guess at the value; it gains 1 where the guess is right.
    Bayes,
    /// So many guesses at once, at least one; they gain 1 where one of them is right.
    Tries(u32),
    /// Guesses in turn until one is right. Their number is a loss: the best order has the least (guessing entropy).
    Guessing,
    /// Any action of a table.
    Table(GainTable),
}

/// Why there is no vulnerability.
#[derive(Clone, Copy, Debug, PartialEq, Eq)]
pub enum GainFault {
    /// The scale times the gain's width passes 2^127 - 1.
    Wide,
    /// Want of memory.
    Mem,
}

impl From<Mem> for GainFault {
    ghost use Rattle.std.specs.Prelude.{◌≡◌};
    ghost use Rattle.kf_gain.specs.declared.gain.GainFault.TheVariants as fault;

    ghost from_gives = { λ _ e. e ≡ fault.Mem };

    fn from(_: Mem) -> Self {
        GainFault::Mem
    }
}

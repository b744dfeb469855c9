ghost use Rattle.std.specs.Prelude.{◌≡◌, []};
ghost use Rattle.kf_eval.specs.Choices.{weighted_items};

use crate::EvalError;
use kf_value::{Mem, Value};
use std::alloc::{AllocError, AllocFailed};

/// A value and its weight.
#[derive(Drop)]
pub struct Weighted {
    pub value: Value,
    pub weight: u128,
}

#[derive(Drop)]
pub struct WeightedList {
    items: Vec<Weighted>,
}

impl WeightedList {
    pub fn new(items: Vec<Weighted>) -> Self
        ensures { weighted_items result ≡ items.items }
    {
        WeightedList { items }
    }

    pub fn as_slice(&self) -> &[Weighted]
        ensures { result.now ≡ weighted_items self.now }
    {
        self.items.as_slice()
    }

    /// An empty list in the memory of this one.
    pub(crate) fn emptied(self) -> Vec<Weighted>
        ensures { result.items ≡ [] }
    {
        let mut items = self.items;
        items.clear();
        items
    }
}

/// What a distribution chooses in a store: distinct values in ascending order, each with a positive weight, where no
/// number above 1 divides all weights; and the sum of the weights.
#[derive(Drop)]
pub struct Choice {
    pub items: WeightedList,
    pub total: u128,
}

impl Choice {
    ghost use Rattle.std.specs.Prelude.{◌≡◌, [], ◌∷◌, OnOk};
    ghost use Rattle.kf_value.specs.Views.{value_tree};
    ghost use Rattle.kf_eval.specs.Choices.{weighted_trees};

    /// Makes it the choice of this value for certain, in the memory that it has.
    pub(crate) fn become_sure(&mut self, value: Value) -> Result<(), Mem>
        ensures items { OnOk result (weighted_trees self.new ≡ record { value = value_tree value; weight = 1 } ∷ []) }
        ensures total { OnOk result (self.new.total ≡ 1) }
    {
        self.items.items.clear();
        self.items.items.push(Weighted { value, weight: 1 })?;
        self.total = 1;
        Ok(())
    }
}

/// Why a distribution chooses nothing in a store.
#[derive(Clone, Copy, Debug, PartialEq, Eq)]
pub enum ChoiceError {
    /// A divisor is 0.
    DivZero,
    /// The result of an operator is no i64.
    ArithWide,
    /// There is no value, or all weights are 0.
    NoWeight,
    /// A weight is below 0.
    NegativeWeight,
    /// A range has more than 65,536 whole numbers.
    RangeLong,
    /// Want of memory.
    Mem,
}

impl From<EvalError> for ChoiceError {
    ghost use Rattle.std.specs.Prelude.{◌≡◌};
    ghost use Rattle.kf_eval.specs.Choices.{choice_error};

    ghost from_gives = { λ error e. e ≡ choice_error error };

    fn from(error: EvalError) -> Self {
        match error {
            EvalError::DivZero => ChoiceError::DivZero,
            EvalError::ArithWide => ChoiceError::ArithWide,
            EvalError::Mem => ChoiceError::Mem,
        }
    }
}

impl From<Mem> for ChoiceError {
    ghost use Rattle.std.specs.Prelude.{◌≡◌};
    ghost use Rattle.kf_eval.specs.declared.choice.ChoiceError.TheVariants as error;

    ghost from_gives = { λ _ e. e ≡ error.Mem };

    fn from(_: Mem) -> Self {
        ChoiceError::Mem
    }
}

impl From<AllocError> for ChoiceError {
    ghost use Rattle.std.specs.Prelude.{◌≡◌};
    ghost use Rattle.kf_eval.specs.declared.choice.ChoiceError.TheVariants as error;

    ghost from_gives = { λ _ e. e ≡ error.Mem };

    fn from(_: AllocError) -> Self {
        ChoiceError::Mem
    }
}

impl<T: Drop> From<AllocFailed<T>> for ChoiceError {
    ghost use Rattle.std.specs.Prelude.{◌≡◌};
    ghost use Rattle.kf_eval.specs.declared.choice.ChoiceError.TheVariants as error;

    ghost from_gives = { λ _ e. e ≡ error.Mem };

    fn from(_: AllocFailed<T>) -> Self {
        ChoiceError::Mem
    }
}

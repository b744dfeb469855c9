use kf_json::JsonError;
use kf_value::Mem;
use std::alloc::{AllocError, AllocFailed};

/// Why bytes are no gain table: the first rule that they break.
#[derive(Clone, Copy, Debug, PartialEq, Eq)]
pub enum TableError {
    /// The bytes are no JSON.
    Json,
    /// The value has not the form of a table: the number of the broken rule, from 1 to 6.
    Form { rule: u8 },
    /// A number passes 1,000,000,000 in absolute value.
    Wide,
    /// A text is not that of a target value.
    Unknown,
    /// A value stands twice in one action, or two actions have one name.
    Twice,
    /// There is no action.
    Empty,
    /// Want of memory.
    Mem,
}

impl From<JsonError> for TableError {
    ghost use Rattle.std.specs.Prelude.{◌≡◌};
    ghost use Rattle.kf_json.specs.declared.parser.JsonError.TheVariants as json;
    ghost use Rattle.kf_gain.specs.declared.error.TableError.TheVariants as broken;

    ghost from_gives = { λ found e. elim found [ json.Malformed ↦ e ≡ broken.Json | json.Mem ↦ e ≡ broken.Mem ] };

    fn from(error: JsonError) -> Self {
        match error {
            JsonError::Malformed => TableError::Json,
            JsonError::Mem => TableError::Mem,
        }
    }
}

impl From<Mem> for TableError {
    ghost use Rattle.std.specs.Prelude.{◌≡◌};
    ghost use Rattle.kf_gain.specs.declared.error.TableError.TheVariants as broken;

    ghost from_gives = { λ _ e. e ≡ broken.Mem };

    fn from(_: Mem) -> Self {
        TableError::Mem
    }
}

impl From<AllocError> for TableError {
    ghost use Rattle.std.specs.Prelude.{◌≡◌};
    ghost use Rattle.kf_gain.specs.declared.error.TableError.TheVariants as broken;

    ghost from_gives = { λ _ e. e ≡ broken.Mem };

    fn from(_: AllocError) -> Self {
        TableError::Mem
    }
}

impl<T: Drop> From<AllocFailed<T>> for TableError {
    ghost use Rattle.std.specs.Prelude.{◌≡◌};
    ghost use Rattle.kf_gain.specs.declared.error.TableError.TheVariants as broken;

    ghost from_gives = { λ _ e. e ≡ broken.Mem };

    fn from(_: AllocFailed<T>) -> Self {
        TableError::Mem
    }
}

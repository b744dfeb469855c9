ghost use Rattle.std.specs.Prelude.{◌≡◌};

use kf_frac::Frac;
use kf_json::JsonError;
use kf_refine::Matrix;
use kf_value::{Mem, Name};
use std::alloc::{AllocError, AllocFailed};
use std::marker::Model;

/// The gain of an action at one value.
#[derive(Drop)]
pub struct CertEntry {
    /// The text of a target value.
    pub value: Name,
    /// What the action gains there, over the table's `over`.
    pub gain: i128,
}

/// The gains that an action names, in the file's order.
#[derive(Drop)]
pub struct CertEntryList {
    items: Vec<CertEntry>,
}

impl Model for CertEntryList {
    ghost use Rattle.std.specs.Prelude.{List};
    ghost use Rattle.kf_cert.specs.declared.cert.CertEntry.{CertEntry};

    ghost Value = { List CertEntry };

    ghost view = { λ l. l.items.items };
}

impl CertEntryList {
    pub fn new(items: Vec<CertEntry>) -> Self
        ensures { result ≡ items.items }
    {
        CertEntryList { items }
    }

    pub fn as_slice(&self) -> &[CertEntry]
        ensures { result.now ≡ self.now }
    {
        self.items.as_slice()
    }
}

/// One of the things that an adversary may do.
#[derive(Drop)]
pub struct CertAction {
    pub name: Name,
    /// Its gains; at every other value it gains the table's `rest`.
    pub gains: CertEntryList,
}

/// The actions of a table in their order.
#[derive(Drop)]
pub struct CertActionList {
    items: Vec<CertAction>,
}

impl Model for CertActionList {
    ghost use Rattle.std.specs.Prelude.{List};
    ghost use Rattle.kf_cert.specs.declared.cert.CertAction.{CertAction};

    ghost Value = { List CertAction };

    ghost view = { λ l. l.items.items };
}

impl CertActionList {
    pub fn new(items: Vec<CertAction>) -> Self
        ensures { result ≡ items.items }
    {
        CertActionList { items }
    }

    pub fn as_slice(&self) -> &[CertAction]
        ensures { result.now ≡ self.now }
    {
        self.items.as_slice()
    }
}

/// A gain table that knows its values by their texts, which may be those of no target value.
#[derive(Drop)]
pub struct CertGain {
    /// What every gain is divided by.
    pub over: u128,
    /// The gain of an action at a value that it doesn't name.
    pub rest: i128,
    pub actions: CertActionList,
}

/// An entry of a matrix with its place.
#[derive(Clone, Copy, Debug, PartialEq, Eq)]
pub struct NamedEntry {
    /// Its row, from 0.
    pub row: u128,
    /// Its column, from 0.
    pub column: u128,
    pub value: Frac,
}

/// Named entries in the file's order.
#[derive(Drop)]
pub struct NamedEntryList {
    items: Vec<NamedEntry>,
}

impl Model for NamedEntryList {
    ghost use Rattle.std.specs.Prelude.{List};
    ghost use Rattle.kf_cert.specs.declared.cert.NamedEntry.{NamedEntry};

    ghost Value = { List NamedEntry };

    ghost view = { λ l. l.items.items };
}

impl NamedEntryList {
    pub fn new(items: Vec<NamedEntry>) -> Self
        ensures { result ≡ items.items }
    {
        NamedEntryList { items }
    }

    pub fn as_slice(&self) -> &[NamedEntry]
        ensures { result.now ≡ self.now }
    {
        self.items.as_slice()
    }
}

/// A matrix by the entries that it names; every other entry is 0.
#[derive(Drop)]
pub struct NamedMatrix {
    /// How many rows it has.
    pub rows: u128,
    /// How many columns it has.
    pub columns: u128,
    pub entries: NamedEntryList,
}

/// What is to prove a verdict on two hypers.
#[derive(Drop)]
pub enum Cert {
    /// That the second leaks no more than the first: a matrix, row by row, that is to carry the first's joint weights to the second's.
    Yes(Matrix),
    /// The same, by a matrix whose entries are named.
    Named(NamedMatrix),
    /// That it leaks more: a gain table under which the first is to have the smaller posterior vulnerability.
    No(CertGain),
}

/// Why bytes are no certificate: the first rule that they break.
#[derive(Clone, Copy, Debug, PartialEq, Eq)]
pub enum CertError {
    /// The bytes are no JSON.
    Json,
    /// The value has not the form of a certificate: the number of the broken rule, from 1 to 7.
    Form { rule: u8 },
    /// A number, as it is written, passes 2^127 - 1 in absolute value.
    Wide,
    /// Want of memory.
    Mem,
}

impl From<JsonError> for CertError {
    ghost use Rattle.kf_json.specs.declared.parser.JsonError.TheVariants as json;
    ghost use Rattle.kf_cert.specs.declared.cert.CertError.TheVariants as broken;

    ghost from_gives = { λ found e. elim found [ json.Malformed ↦ e ≡ broken.Json | json.Mem ↦ e ≡ broken.Mem ] };

    fn from(error: JsonError) -> Self {
        match error {
            JsonError::Malformed => CertError::Json,
            JsonError::Mem => CertError::Mem,
        }
    }
}

impl From<Mem> for CertError {
    ghost use Rattle.kf_cert.specs.declared.cert.CertError.TheVariants as broken;

    ghost from_gives = { λ _ e. e ≡ broken.Mem };

    fn from(_: Mem) -> Self {
        CertError::Mem
    }
}

impl From<AllocError> for CertError {
    ghost use Rattle.kf_cert.specs.declared.cert.CertError.TheVariants as broken;

    ghost from_gives = { λ _ e. e ≡ broken.Mem };

    fn from(_: AllocError) -> Self {
        CertError::Mem
    }
}

impl<T: Drop> From<AllocFailed<T>> for CertError {
    ghost use Rattle.kf_cert.specs.declared.cert.CertError.TheVariants as broken;

    ghost from_gives = { λ _ e. e ≡ broken.Mem };

    fn from(_: AllocFailed<T>) -> Self {
        CertError::Mem
    }
}

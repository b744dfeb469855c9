ghost use Rattle.std.specs.Prelude.{◌≡◌};
ghost use Rattle.std.proofs.Props.{props};
ghost use Rattle.kf_gain.specs.Shapes.{IsTableShape};

use kf_value::Name;
use std::marker::Model;

/// The gain of an action at one value.
#[derive(Clone, Copy, Debug, PartialEq, Eq)]
pub struct GainEntry {
    /// The number of a target value, from 0.
    pub value: u64,
    /// What the action gains there, over the table's `over`.
    pub gain: i128,
}

/// The gains that an action names.
#[derive(Drop)]
pub struct GainEntryList {
    items: Vec<GainEntry>,
}

impl Model for GainEntryList {
    ghost use Rattle.std.specs.Prelude.{List};
    ghost use Rattle.kf_gain.specs.declared.table.GainEntry.{GainEntry};

    ghost Value = { List GainEntry };

    ghost view = { λ l. l.items.items };
}

impl GainEntryList {
    pub fn new(items: Vec<GainEntry>) -> Self
        ensures { result ≡ items.items }
    {
        GainEntryList { items }
    }

    pub fn as_slice(&self) -> &[GainEntry]
        ensures { result.now ≡ self.now }
    {
        self.items.as_slice()
    }
}

/// One of the things that an adversary may do.
#[derive(Drop)]
pub struct Action {
    pub name: Name,
    /// Its gains, strictly ascending in their values; at every other value it gains the table's `rest`.
    pub gains: GainEntryList,
}

/// The actions of a table in their order.
#[derive(Drop)]
pub struct ActionList {
    items: Vec<Action>,
}

impl Model for ActionList {
    ghost use Rattle.std.specs.Prelude.{List};
    ghost use Rattle.kf_gain.specs.declared.table.Action.{Action};

    ghost Value = { List Action };

    ghost view = { λ l. l.items.items };
}

impl ActionList {
    pub fn new(items: Vec<Action>) -> Self
        ensures { result ≡ items.items }
    {
        ActionList { items }
    }

    pub fn as_slice(&self) -> &[Action]
        ensures { result.now ≡ self.now }
    {
        self.items.as_slice()
    }
}

/// A gain function as a table of whole numbers over one denominator (Alvim et al. 2020, gain functions).
///
/// It has at least one action, and no number passes 2^127 - 1.
#[derive(Drop)]
pub struct GainTable {
    /// What every gain is divided by: at least 1.
    pub over: u128,
    /// The gain of an action at a value that it doesn't name.
    pub rest: i128,
    pub actions: ActionList,
    pub ghost shape: { IsTableShape (record { over = over; rest = rest; actions = actions }) } by { Prim.hlevel props },
}

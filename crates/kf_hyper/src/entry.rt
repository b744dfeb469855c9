ghost use Rattle.std.specs.Prelude.{◌≡◌, ◌<◌, ◌^◌};
ghost use Rattle.kf_column.specs.Columns.{total};

use kf_column::Entry;
use std::marker::Model;

/// The sum of all weights.
pub(crate) fn total_of(entries: &[Entry]) -> u128
    requires { total entries.now < 2 ^ 128 }
    ensures { result ≡ total entries.now }
{
    entries.iter().map(|entry| entry.weight).sum()
}

/// Values with their weights.
#[derive(Drop)]
pub struct EntryList {
    items: Vec<Entry>,
}

impl Model for EntryList {
    ghost use Rattle.std.specs.Prelude.{List};
    ghost use Rattle.kf_column.specs.declared.entry.Entry.{Entry};

    ghost Value = { List Entry };

    ghost view = { λ l. l.items.items };
}

impl EntryList {
    pub fn new(items: Vec<Entry>) -> Self
        ensures { result ≡ items.items }
    {
        EntryList { items }
    }

    pub(crate) fn into_items(self) -> Vec<Entry>
        ensures { result.items ≡ self }
    {
        self.items
    }

    pub fn as_slice(&self) -> &[Entry]
        ensures { result.now ≡ self.now }
    {
        self.items.as_slice()
    }
}

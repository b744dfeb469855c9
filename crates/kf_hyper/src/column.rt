ghost use Rattle.std.specs.Prelude.{◌≡◌, ◌<◌, ◌^◌, IfOk};
ghost use Rattle.kf_column.specs.Columns.{IsColumn, weight_at, total};

use crate::entry::total_of;
use crate::{Entry, EntryList};
use kf_value::Mem;
use std::alloc::Global;
use std::marker::Model;

/// A column of a joint matrix: at least one value, each once, ascending, with weights of at least 1.
#[derive(Drop)]
pub struct Column {
    entries: EntryList,
}

impl Model for Column {
    ghost use Rattle.std.specs.Prelude.{List};
    ghost use Rattle.kf_column.specs.declared.entry.Entry.{Entry};
    ghost use Rattle.kf_column.specs.Columns.{IsColumn};

    ghost Value = { List Entry };

    ghost view = { λ c. c.entries };

    ghost invariant = { λ c. IsColumn c.entries };
}

impl Column {
    /// The column with these entries.
    pub fn new(entries: EntryList) -> Column
        requires { IsColumn entries }
        ensures { result ≡ entries }
    {
        Column { entries }
    }

    /// The values with their weights, ascending.
    pub fn entries(&self) -> &EntryList
        ensures kept { result.now ≡ self.now }
        ensures column { IsColumn result.now }
    {
        &self.entries
    }

    /// That it names each of its values once, in ascending order and with a weight, as its type promises. It does nothing when it runs.
    pub fn is_column(&self)
        ensures { IsColumn self.now }
    {
        let _ = &self.entries;
    }

    pub(crate) fn into_entries(self) -> Vec<Entry>
        ensures kept { result.items ≡ self }
        ensures column { IsColumn self }
    {
        self.entries.into_items()
    }

    /// The weight of a value: 0 where the column doesn't name it.
    pub fn weight(&self, x: u64) -> u128
        ensures { result ≡ weight_at self.now x }
    {
        let entries = self.entries.as_slice();
        match entries.binary_search_by_key(&x, |entry| entry.value) {
            Ok(place) => entries[place].weight,
            Err(_) => 0,
        }
    }

    /// The sum of all weights.
    pub fn total(&self) -> u128
        requires { total self.now < 2 ^ 128 }
        ensures { result ≡ total self.now }
    {
        total_of(self.entries.as_slice())
    }

    /// An equal column.
    pub fn copy(&self, alloc: Global) -> Result<Column, Mem>
        ensures { IfOk result (λ copied. copied ≡ self.now) }
    {
        let entries = self.entries.as_slice().to_vec(alloc)?;
        Ok(Column::new(EntryList::new(entries)))
    }
}

/// Columns in their order.
#[derive(Drop)]
pub struct ColumnList {
    items: Vec<Column>,
}

impl Model for ColumnList {
    ghost use Rattle.std.specs.Prelude.{List};
    ghost use Rattle.kf_hyper.specs.declared.column.Column.{Column};

    ghost Value = { List Column };

    ghost view = { λ l. l.items.items };
}

impl ColumnList {
    pub fn new(items: Vec<Column>) -> Self
        ensures { result ≡ items.items }
    {
        ColumnList { items }
    }

    pub(crate) fn into_items(self) -> Vec<Column>
        ensures { result.items ≡ self }
    {
        self.items
    }

    pub fn as_slice(&self) -> &[Column]
        ensures { result.now ≡ self.now }
    {
        self.items.as_slice()
    }
}

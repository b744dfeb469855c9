ghost use Rattle.std.specs.Prelude.{◌≡◌, ◌<◌, IfOk};
ghost use Rattle.kf_column.specs.Columns.{total};
ghost use Rattle.kf_hyper.specs.Sums.{summed, ArePositive};

use crate::{Column, Entry, EntryList};
use kf_value::Mem;
use std::alloc::Global;
use std::collections::BTreeMap;

/// The column of these sums.
pub fn column_of(alloc: Global, sums: BTreeMap<u64, u128>) -> Result<Column, Mem>
    requires positive { ArePositive (summed sums.entries) }
    requires some { 0 < total (summed sums.entries) }
    ensures { IfOk result (λ column. column ≡ summed sums.entries) }
{
    let mut entries = Vec::new(alloc);
    for (value, weight) in sums {
        entries.push(Entry { value, weight })?;
    }
    Ok(Column::new(EntryList::new(entries)))
}

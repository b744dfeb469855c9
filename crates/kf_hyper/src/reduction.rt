//! Columns divided by their common factors.

ghost use Rattle.std.specs.Prelude.{◌≡◌, ◌<◌, ◌^◌, map};
ghost use Rattle.kf_column.specs.Averages.{scaled};
ghost use Rattle.kf_column.specs.Columns.{total};
ghost use Rattle.kf_column.specs.Hypers.{IsInner};
ghost use Rattle.kf_column.specs.Classes.{IsCommonFactor, IsReduced};

use crate::class::Class;
use crate::{Column, Entry, EntryList};
use kf_frac::{gcd, quotient};

// The greatest number that divides every weight.
fn common_factor(entries: &[Entry]) -> u128
    ensures { IsCommonFactor result entries.now }
{
    let mut factor = 0;
    for entry in entries {
        if factor == 1 {
            return factor;
        }
        factor = gcd(entry.weight, factor);
    }
    factor
}

// The column with each weight divided.
fn divided(column: Column, factor: u128) -> Column
    requires { IsCommonFactor factor column }
    ensures multiple { column ≡ map (scaled factor) result }
    ensures inner { IsInner result }
{
    let mut entries = column.into_entries();
    for i in 0..entries.len() {
        let entry = &mut entries[i];
        entry.weight = quotient(entry.weight, factor);
    }
    Column::new(EntryList::new(entries))
}

/// The class of one column: its list without common factor, and its total.
pub fn reduced(column: Column) -> Class
    requires fits { total column < 2 ^ 128 }
    ensures inner { IsReduced column result.inner }
    ensures total { result.total ≡ total column }
{
    let total = column.total();
    let factor = common_factor(column.entries().as_slice());
    if factor == 1 {
        return Class {
            inner: column,
            whole: total,
            total,
        };
    }
    let inner = divided(column, factor);
    Class {
        inner,
        whole: quotient(total, factor),
        total,
    }
}

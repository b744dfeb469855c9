//! The entries of a matrix that stands row by row.

ghost use Rattle.std.specs.Prelude.{◌≡◌, ◌++◌, map, IfOk, OnOk};
ghost use Rattle.kf_cert.specs.CertTexts.{row_entries};
ghost use Rattle.kf_cert.specs.Rows.{row_tree, rows_tree};
ghost use Rattle.kf_cert.specs.Views.{entry_tree};
ghost use Rattle.kf_cert.specs.Order.{rows_entries};

use crate::NamedEntry;
use crate::writer::is_zero;
use kf_frac::Frac;
use kf_simplex::FracList;
use kf_value::Mem;
use std::alloc::Global;

// Adds those of row `i` that aren't 0, in the order of their columns.
fn add_entries(entries: &mut Vec<NamedEntry>, i: usize, row: &[Frac]) -> Result<(), Mem>
    ensures { OnOk result (map entry_tree entries.new.items ≡ map entry_tree entries.old.items ++ row_entries i 0 (row_tree row.now)) }
{
    for j in 0..row.len() {
        if !is_zero(&row[j]) {
            entries.push(NamedEntry {
                row: i as u128,
                column: j as u128,
                value: row[j],
            })?;
        }
    }
    Ok(())
}

/// Those that aren't 0, row by row.
pub(super) fn entries_of(alloc: Global, rows: &[FracList]) -> Result<Vec<NamedEntry>, Mem>
    ensures { IfOk result (λ entries. map entry_tree entries.items ≡ rows_entries 0 (rows_tree rows.now)) }
{
    let mut entries = Vec::new(alloc);
    for i in 0..rows.len() {
        add_entries(&mut entries, i, rows[i].as_slice())?;
    }
    Ok(entries)
}

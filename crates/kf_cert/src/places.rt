//! The order of named entries.

ghost use Rattle.std.specs.Prelude.{◌≡◌, map};
ghost use Rattle.std.specs.List.{list_all};
ghost use Rattle.kf_cert.specs.Certificates as rule;
ghost use Rattle.kf_cert.specs.Order as order;
ghost use Rattle.kf_cert.specs.Views.{cert_tree, entry_tree, named_tree};

use crate::{Cert, NamedEntry, NamedMatrix};

/// Whether an entry's place comes before this row and column: it is in an earlier row, or in the same row and an earlier column.
pub(crate) fn comes_before(entry: &NamedEntry, row: u128, column: u128) -> bool
    ensures { result ≡ order.comes_before row column (entry_tree entry.now) }
{
    entry.row < row || (entry.row == row && entry.column < column)
}

/// Whether an entry stands in this row and column.
pub(crate) fn stands_at(entry: &NamedEntry, row: u128, column: u128) -> bool
    ensures { result ≡ order.stands_at row column (entry_tree entry.now) }
{
    entry.row == row && entry.column == column
}

/// Whether each place comes before the next.
fn are_ascending(entries: &[NamedEntry]) -> bool
    ensures { result ≡ rule.ascends (map entry_tree entries.now) }
{
    for k in 1..entries.len() {
        let next = &entries[k];
        if !comes_before(&entries[k - 1], next.row, next.column) {
            return false;
        }
    }
    true
}

/// Whether a place is one of a matrix of so many rows and columns.
fn is_inside(entry: &NamedEntry, rows: u128, columns: u128) -> bool
    ensures { result ≡ order.is_inside rows columns (entry_tree entry.now) }
{
    entry.row < rows && entry.column < columns
}

/// Whether all places are.
fn are_inside(entries: &[NamedEntry], rows: u128, columns: u128) -> bool
    ensures { result ≡ list_all (order.is_inside rows columns) (map entry_tree entries.now) }
{
    entries.iter().all(|entry| is_inside(entry, rows, columns))
}

/// Whether the places ascend strictly, and all are places of the matrix.
fn is_in_order(matrix: &NamedMatrix) -> bool
    ensures { result ≡ order.is_in_order (named_tree matrix.now) }
{
    let entries = matrix.entries.as_slice();
    are_ascending(entries) && are_inside(entries, matrix.rows, matrix.columns)
}

/// Whether the entries that a certificate names are in their order.
pub(crate) fn names_in_order(cert: &Cert) -> bool
    ensures { result ≡ rule.names_in_order (cert_tree cert.now) }
{
    match cert {
        Cert::Named(matrix) => is_in_order(matrix),
        _ => true,
    }
}

//! The rules on a matrix.

ghost use Rattle.std.specs.Prelude.{◌≡◌, ◌≢◌, ◌↔◌, Ok, Err, IfOk, IfErr, IsTrue, map, true};
ghost use Rattle.kf_cert.specs.declared.mark.CheckError.TheVariants as error;
ghost use Rattle.kf_cert.specs.Certificates.{Yes, Named, matrix_of};
ghost use Rattle.kf_cert.specs.Marks.{IsMarked, MarkedByRules};
ghost use Rattle.kf_cert.specs.Rows.{rows_tree, matrix_between, IsWithin, AreWithin};
ghost use Rattle.kf_cert.specs.Views.{IsSoundNamed, entry_tree, named_tree};
ghost use Rattle.kf_cert.specs.Order.{is_in_order};
ghost use Rattle.kf_refine.specs.Refinements.{IsShaped};
ghost use Rattle.kf_refine.specs.Views.{hyper_tree, matrix_tree, fraction_of};

mod cells;
mod row_entries;
mod shares;
mod sums;
mod weights;

use crate::{CheckError, Mark, NamedEntry, NamedMatrix, Rule};
use cells::carries;
use kf_frac::Frac;
use kf_hyper::Hyper;
use kf_refine::Matrix;
use kf_simplex::FracList;
use row_entries::entries_of;
use shares::{shares_over, sum_to_one};
use std::alloc::Global;
use sums::denominator_within;

/// Whether a matrix that stands row by row carries the first hyper's joint weights to the second's.
pub(crate) fn check_matrix(
    alloc: Global,
    a: &Hyper,
    b: &Hyper,
    matrix: &Matrix,
) -> Result<Mark, CheckError>
    ensures is { IfOk result (λ mark. IsMarked (hyper_tree a.now) (hyper_tree b.now) (Yes (matrix_tree matrix.now)) (Ok mark)) }
    ensures err { IfErr result (λ e. e ≢ error.Mem → IsMarked (hyper_tree a.now) (hyper_tree b.now) (Yes (matrix_tree matrix.now)) (Err e)) }
{
    let rows = matrix.rows.as_slice();
    if !is_shaped(rows, a.count(), b.count()) {
        return Ok(Mark::Rejected(Rule::Shape));
    }
    let entries = entries_of(alloc, rows)?;
    check_entries(alloc, a, b, entries.as_slice())
}

/// Whether a matrix whose entries are named carries the first hyper's joint weights to the second's.
pub(crate) fn check_named(
    alloc: Global,
    a: &Hyper,
    b: &Hyper,
    matrix: &NamedMatrix,
) -> Result<Mark, CheckError>
    requires { IsSoundNamed (named_tree matrix.now) }
    ensures is { IfOk result (λ mark. IsMarked (hyper_tree a.now) (hyper_tree b.now) (Named (named_tree matrix.now)) (Ok mark)) }
    ensures err { IfErr result (λ e. e ≢ error.Mem → IsMarked (hyper_tree a.now) (hyper_tree b.now) (Named (named_tree matrix.now)) (Err e)) }
{
    if !has_sizes(matrix, a.count(), b.count()) {
        return Ok(Mark::Rejected(Rule::Shape));
    }
    check_entries(alloc, a, b, matrix.entries.as_slice())
}

// Whether there are to be so many rows and columns.
fn has_sizes(matrix: &NamedMatrix, rows: usize, columns: usize) -> bool
    ensures { IsTrue result ↔ ((named_tree matrix.now).rows ≡ rows) × ((named_tree matrix.now).columns ≡ columns) }
{
    matrix.rows == rows as u128 && matrix.columns == columns as u128
}

// The rules on the entries of a matrix that has its shape, along those that are named: every other is 0.
fn check_entries(
    alloc: Global,
    a: &Hyper,
    b: &Hyper,
    entries: &[NamedEntry],
) -> Result<Mark, CheckError>
    requires { is_in_order (matrix_between (hyper_tree a.now) (hyper_tree b.now) (map entry_tree entries.now)) ≡ true }
    ensures is { IfOk result (λ mark. MarkedByRules (hyper_tree a.now) (hyper_tree b.now)
        (matrix_of (matrix_between (hyper_tree a.now) (hyper_tree b.now) (map entry_tree entries.now))) (Ok mark)) }
    ensures err { IfErr result (λ e. e ≢ error.Mem → MarkedByRules (hyper_tree a.now) (hyper_tree b.now)
        (matrix_of (matrix_between (hyper_tree a.now) (hyper_tree b.now) (map entry_tree entries.now))) (Err e)) }
{
    if !are_within(entries) {
        return Ok(Mark::Rejected(Rule::Range));
    }
    let Some(over) = denominator_within(entries, a.scale()) else {
        return Err(CheckError::Wide);
    };
    let shares = shares_over(alloc, entries, over)?;
    if !sum_to_one(alloc, shares.as_slice(), a.count(), over)? {
        return Ok(Mark::Rejected(Rule::Sum));
    }
    if !carries(alloc, a, b, shares, over)? {
        return Ok(Mark::Rejected(Rule::Cell));
    }
    Ok(Mark::Accepted)
}

// Whether there are so many rows of so many entries each.
fn is_shaped(rows: &[FracList], count: usize, width: usize) -> bool
    ensures { IsTrue result ↔ IsShaped count width (rows_tree rows.now) }
{
    if rows.len() != count {
        return false;
    }
    for row in rows {
        if row.as_slice().len() != width {
            return false;
        }
    }
    true
}

// Whether a fraction is from 0 to 1.
fn is_within(f: &Frac) -> bool
    ensures { IsTrue result ↔ IsWithin (fraction_of f.now) }
{
    0 <= f.num() && f.num().unsigned_abs() <= f.den()
}

// Whether the values of all entries are.
fn are_within(entries: &[NamedEntry]) -> bool
    ensures { IsTrue result ↔ AreWithin (map entry_tree entries.now) }
{
    for entry in entries {
        if !is_within(&entry.value) {
            return false;
        }
    }
    true
}

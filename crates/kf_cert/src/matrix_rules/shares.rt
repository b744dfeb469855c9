//! The entries of a matrix as whole numbers over their common denominator.

ghost use Rattle.std.specs.Prelude.{◌≡◌, ◌<◌, ◌^◌, ◌==◌, ℕ, All, IfOk, IsTrue, ◌↔◌, map, sum_by, if◌then◌else◌};
ghost use Rattle.std.specs.List.Sorted.{IsNonDecreasingBy};
ghost use Rattle.kf_cert.specs.Rows.{IsWithin, AreWithin, amount_of, share_of, SumsToOne};
ghost use Rattle.kf_cert.specs.Views.{entry_tree};
ghost use Rattle.kf_cert.specs.declared.matrix_rules.shares.Share.{Share};
ghost use Rattle.kf_refine.specs.Views.{fraction_of};

use crate::NamedEntry;
use kf_frac::Frac;
use kf_value::Mem;
use std::alloc::Global;

/// What an inner of the first hyper gives to one of the second: an entry as a whole number over the common denominator.
#[derive(Clone, Copy)]
pub(super) struct Share {
    /// The inner of the first hyper, from 0.
    pub row: usize,
    /// The inner of the second, from 0.
    pub column: usize,
    pub amount: u128,
}

// A fraction from 0 to 1 as a whole number over a multiple of its denominator.
fn amount(f: &Frac, over: u128) -> u128
    requires { IsWithin (fraction_of f.now) }
    ensures { result ≡ amount_of over (fraction_of f.now) }
{
    f.num().unsigned_abs() * (over / f.den())
}

// An entry of a matrix whose sizes are lengths.
fn share_over(entry: &NamedEntry, over: u128) -> Share
    requires row { (entry_tree entry.now).row < 2 ^ 64 }
    requires column { (entry_tree entry.now).column < 2 ^ 64 }
    requires within { IsWithin (entry_tree entry.now).value }
    ensures { result ≡ share_of over (entry_tree entry.now) }
{
    Share {
        row: entry.row as usize,
        column: entry.column as usize,
        amount: amount(&entry.value, over),
    }
}

/// All entries, in their order.
pub(super) fn shares_over(
    alloc: Global,
    entries: &[NamedEntry],
    over: u128,
) -> Result<Vec<Share>, Mem>
    requires rows { All (λ e. e.row < 2 ^ 64) (map entry_tree entries.now) }
    requires columns { All (λ e. e.column < 2 ^ 64) (map entry_tree entries.now) }
    requires within { AreWithin (map entry_tree entries.now) }
    ensures { IfOk result (λ made. made.items ≡ map (share_of over) (map entry_tree entries.now)) }
{
    let mut made = Vec::new(alloc);
    for entry in entries {
        made.push(share_over(entry, over))?;
    }
    Ok(made)
}

// Whether all numbers are 0.
fn are_zero(numbers: &[u128]) -> bool
    ensures { IsTrue result ↔ All (λ n. n ≡ 0) numbers.now }
{
    numbers.iter().all(|n| *n == 0)
}

/// Whether the shares of each row sum to the whole.
pub(super) fn sum_to_one(
    alloc: Global,
    shares: &[Share],
    rows: usize,
    over: u128,
) -> Result<bool, Mem>
    requires { All (λ s. s.row < rows) shares.now }
    ensures { IfOk result (λ r. IsTrue r ↔ SumsToOne over rows shares.now) }
{
    let mut missing = vec![in alloc; over; rows]?;
    for share in shares {
        let before = missing[share.row];
        if share.amount > before {
            return Ok(false);
        }
        missing[share.row] = before - share.amount;
    }
    Ok(are_zero(missing.as_slice()))
}

/// Those of one column, where the columns don't fall.
pub(super) fn in_column(shares: &[Share], column: usize) -> &[Share]
    requires { IsNonDecreasingBy (λ s. s.column) shares.now }
    ensures sums { (f : Share → ℕ) → sum_by f result.now ≡ sum_by (λ s. if s.column == column then f s else 0) shares.now }
    ensures each { (count : ℕ) → All (λ s. s.row < count) shares.now → All (λ s. s.row < count) result.now }
{
    let start = shares.partition_point(|share| share.column < column);
    let behind = &shares[start..];
    let end = behind.partition_point(|share| share.column <= column);
    &behind[..end]
}

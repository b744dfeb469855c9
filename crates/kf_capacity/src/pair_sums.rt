//! The capacity of columns that are the products of each of some with each of others, none of which is made.

ghost use Rattle.std.specs.Prelude.{◌≡◌, ◌+◌, ◌≤◌, All, map, flat_map, sum_by, SomeIff};
ghost use Rattle.kf_frac.specs.Fractions.{limit};
ghost use Rattle.kf_capacity.specs.Composing.{ProductsFit, products};
ghost use Rattle.kf_capacity.specs.Vulnerabilities.{greatest};

use crate::LIMIT;
use crate::column::GridColumn;

/// The sum of the greatest numbers of all products of columns, unless it passes the limit.
pub(crate) fn sum_of_pairs(columns: &[GridColumn], others: &[GridColumn]) -> Option<u128>
    requires { All (λ column. All (λ other. ProductsFit column other) others.now) columns.now }
    ensures { let sum = sum_by greatest (flat_map (λ column. map (products column) others.now) columns.now) in SomeIff result (sum ≤ limit) sum }
{
    let mut sum = 0;
    for column in columns {
        sum = sum_with(sum, column.as_slice(), others)?;
    }
    Some(sum)
}

// A sum with the greatest numbers of the products of one column.
fn sum_with(start: u128, column: &[u128], others: &[GridColumn]) -> Option<u128>
    requires narrow { start ≤ limit }
    requires fits { All (λ other. ProductsFit column.now other) others.now }
    ensures { let sum = start + sum_by greatest (map (products column.now) others.now) in SomeIff result (sum ≤ limit) sum }
{
    let mut sum = start;
    for other in others {
        let most = greatest_product(column, other.as_slice());
        match sum.checked_add(most) {
            Some(more) if more <= LIMIT => sum = more,
            _ => return None,
        }
    }
    Some(sum)
}

// The greatest product of two columns, row by row; 0 of none.
fn greatest_product(column: &[u128], other: &[u128]) -> u128
    requires { ProductsFit column.now other.now }
    ensures { result ≡ greatest (products column.now other.now) }
{
    let mut most = 0;
    for (m, n) in column.iter().zip(other) {
        if *m != 0 {
            most = most.max(m * n);
        }
    }
    most
}

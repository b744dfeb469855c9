//! The least common denominator of a channel's cells.

ghost use Rattle.std.specs.Prelude.{◌≡◌, ◌<◌, ◌≤◌, All, length, map, IfSome, SomeIff};
ghost use Rattle.kf_channel.specs.Views.{rows_of, row_at};
ghost use Rattle.kf_frac.specs.Fractions.{limit};
ghost use Rattle.kf_frac.specs.Laws.{multiple_from};
ghost use Rattle.kf_capacity.specs.Dens.{column_dens};
ghost use Rattle.kf_capacity.specs.Divided.{den_of};
ghost use Rattle.kf_capacity.specs.Grids.{denominator};
ghost use Rattle.kf_capacity.specs.Views.{channel_tree};

use crate::divided::DividedSecret;
use kf_channel::Channel;
use kf_frac::{lcm, quotient};

// The least common multiple of a number and the denominators of a column, unless it passes the limit.
fn column_multiple(c: &Channel, j: usize, start: u128) -> Option<u128>
    requires trace { j < length (rows_of c.now) }
    requires some { 0 < start }
    requires narrow { start ≤ limit }
    ensures exact { let ds = column_dens (channel_tree c.now) (row_at c.now j) in
        SomeIff result (multiple_from start ds ≤ limit) (multiple_from start ds) }
    ensures positive { IfSome result (λ m. 0 < m) }
{
    let mut multiple = start;
    for i in 0..c.rows() {
        multiple = lcm(c.cell(i, j).den(), multiple)?;
    }
    Some(multiple)
}

/// The least common denominator of all cells, or `None` where it passes 2^127 - 1.
pub(crate) fn denominator_of(c: &Channel) -> Option<u128>
    ensures exact { SomeIff result (denominator (channel_tree c.now) ≤ limit) (denominator (channel_tree c.now)) }
    ensures positive { IfSome result (λ n. 0 < n) }
{
    let mut multiple = 1;
    for j in 0..c.columns() {
        multiple = column_multiple(c, j, multiple)?;
    }
    Some(multiple)
}

/// The least common multiple of the secrets' own denominators, or `None` where it passes 2^127 - 1.
pub(crate) fn multiple_of(secrets: &[DividedSecret]) -> Option<u128>
    requires { All (λ s. (0 < s.divisor) × (0 < den_of s)) secrets.now }
    ensures exact { let m = multiple_from 1 (map den_of secrets.now) in SomeIff result (m ≤ limit) m }
    ensures positive { IfSome result (λ m. 0 < m) }
{
    let mut multiple = 1;
    for secret in secrets {
        multiple = lcm(quotient(secret.whole, secret.divisor), multiple)?;
    }
    Some(multiple)
}

//! The common denominator of the entries of a matrix.

ghost use Rattle.std.specs.Prelude.{◌*◌, ◌≤◌, ◌<◌, IfSome, SomeIff, map};
ghost use Rattle.kf_cert.specs.Rows.{dens};
ghost use Rattle.kf_cert.specs.Views.{entry_tree};
ghost use Rattle.kf_frac.specs.Divisors.{common_multiple as multiple_of};
ghost use Rattle.kf_frac.specs.Fractions.{limit};
ghost use Rattle.kf_frac.specs.Laws.{multiple_from};

use crate::NamedEntry;
use kf_frac::lcm;

// The greatest number that a scale times a denominator may be.
const LIMIT: u128 = i128::MAX as u128;

// The least common multiple of all denominators, unless it passes the limit.
fn common_multiple(entries: &[NamedEntry]) -> Option<u128>
    ensures exact { SomeIff result (multiple_from 1 (dens (map entry_tree entries.now)) ≤ limit) (multiple_from 1 (dens (map entry_tree entries.now))) }
    ensures positive { IfSome result (λ m. 0 < m) }
{
    let mut multiple = 1;
    for entry in entries {
        multiple = lcm(entry.value.den(), multiple)?;
    }
    Some(multiple)
}

/// The one denominator of all entries, unless the scale times it passes the limit.
pub(super) fn denominator_within(entries: &[NamedEntry], scale: u128) -> Option<u128>
    requires { 0 < scale }
    ensures exact { SomeIff result (scale * multiple_of (dens (map entry_tree entries.now)) ≤ limit) (multiple_of (dens (map entry_tree entries.now))) }
    ensures positive { IfSome result (λ over. 0 < over) }
{
    let over = common_multiple(entries)?;
    match scale.checked_mul(over) {
        Some(product) if product <= LIMIT => Some(over),
        _ => None,
    }
}

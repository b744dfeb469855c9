//! The weights of ascending values in a column, found by going along it once.

ghost use Rattle.std.specs.Prelude.{◌≡◌, ℕ, ◌<◌, drop};
ghost use Rattle.kf_column.specs.Columns.{IsColumn, weight_at};

use kf_hyper::Entry;

/// Where to look for greater values, and the weight of a value among the entries from a place on.
pub(crate) fn weight_from(entries: &[Entry], from: usize, value: u64) -> (usize, u128)
    requires { IsColumn entries.now }
    ensures weight { result.1 ≡ weight_at (drop from entries.now) value }
    ensures after { (x : ℕ) → value < x → weight_at (drop result.0 entries.now) x ≡ weight_at (drop from entries.now) x }
{
    for place in from..entries.len() {
        let entry = entries[place];
        if entry.value == value {
            return (place + 1, entry.weight);
        }
        if entry.value > value {
            return (place, 0);
        }
    }
    (entries.len(), 0)
}

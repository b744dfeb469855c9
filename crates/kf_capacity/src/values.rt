//! The order of lists of values.

ghost use Rattle.std.specs.Prelude.{◌≡◌, map};
ghost use Rattle.kf_value.specs.Views.{value_tree};
ghost use Rattle.kf_column.specs.Traces.{trace_order};

use kf_value::{Value, compare};
use std::cmp::Ordering;

/// The order of lists of values by their first difference, a proper prefix before the longer list.
pub(crate) fn compare_lists(xs: &[Value], ys: &[Value]) -> Ordering
    ensures { result ≡ trace_order (map value_tree xs.now) (map value_tree ys.now) }
{
    for i in 0..xs.len().min(ys.len()) {
        let found = compare(&xs[i], &ys[i]);
        if found != Ordering::Equal {
            return found;
        }
    }
    xs.len().cmp(&ys.len())
}

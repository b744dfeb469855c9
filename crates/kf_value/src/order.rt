ghost use Rattle.std.specs.Prelude.{◌≡◌, map, reverse};
ghost use Rattle.kf_value.specs.Values.{order, lexicographic};
ghost use Rattle.kf_value.specs.Views.{value_tree};

use crate::Value;
use std::cmp::Ordering;

/// The order of all values, of one type or not: Booleans, whole numbers, tuples, sets.
///
/// False comes before true; whole numbers go by size; tuples by their first difference, a proper prefix before the
/// longer tuple; of two different sets the greater holds the greatest value that stands in exactly one of them.
#[cycle(compare)]
pub fn compare(a: &Value, b: &Value) -> Ordering
    ensures { result ≡ order (value_tree a.now) (value_tree b.now) }
{
    match (a, b) {
        (Value::Bool(x), Value::Bool(y)) => x.cmp(y),
        (Value::Int(x), Value::Int(y)) => x.cmp(y),
        (Value::Tuple(xs), Value::Tuple(ys)) => compare_lists(xs.as_slice(), ys.as_slice()),
        (Value::Set(xs), Value::Set(ys)) => compare_reversed(xs.as_slice(), ys.as_slice()),
        (Value::Bool(_), _) => Ordering::Less,
        (_, Value::Bool(_)) => Ordering::Greater,
        (Value::Int(_), _) => Ordering::Less,
        (_, Value::Int(_)) => Ordering::Greater,
        (Value::Tuple(_), _) => Ordering::Less,
        (_, Value::Tuple(_)) => Ordering::Greater,
    }
}

/// By the first difference from the left.
#[cycle(compare)]
fn compare_lists(xs: &[Value], ys: &[Value]) -> Ordering
    ensures { result ≡ lexicographic (map order (map value_tree xs.now)) (map value_tree ys.now) }
{
    for i in 0..xs.len().min(ys.len()) {
        let found = compare(&xs[i], &ys[i]);
        if found != Ordering::Equal {
            return found;
        }
    }
    xs.len().cmp(&ys.len())
}

/// By the first difference from the right.
#[cycle(compare)]
fn compare_reversed(xs: &[Value], ys: &[Value]) -> Ordering
    ensures { result ≡ lexicographic (map order (map value_tree (reverse xs.now))) (map value_tree (reverse ys.now)) }
{
    for i in 0..xs.len().min(ys.len()) {
        let found = compare(&xs[xs.len() - 1 - i], &ys[ys.len() - 1 - i]);
        if found != Ordering::Equal {
            return found;
        }
    }
    xs.len().cmp(&ys.len())
}

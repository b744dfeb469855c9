//! The Bayes capacity of the channel of a hyper, from its inners.

ghost use Rattle.std.specs.Prelude.{◌≡◌, ◌<◌, ◌≤◌, ◌*◌, ◌/◌, ℕ, All, IfOk, IfSome, length, map, pos};
ghost use Rattle.std.specs.Int.{◌∣◌};
ghost use Rattle.kf_column.specs.Averages.{average_weight};
ghost use Rattle.kf_column.specs.Columns.{weight_at};
ghost use Rattle.kf_frac.specs.Fractions.{limit};
ghost use Rattle.kf_frac.specs.Parts.{IsFraction};
ghost use Rattle.kf_hyper.specs.Views.{inners_of, inner_at};
ghost use Rattle.kf_capacity.specs.Beliefs.{IsWholeIn, belief_capacity, greatest_cell as greatest_of};
ghost use Rattle.kf_capacity.specs.Vulnerabilities.{greatest};

use crate::LIMIT;
use kf_frac::{Frac, lcm, make, quotient};
use kf_hyper::{Column, Entry, Hyper};
use kf_value::Mem;
use std::alloc::Global;

// A common multiple of the weights, unless their least one passes the limit.
fn multiple_of_weights(entries: &[Entry]) -> Option<u128>
    requires { All (λ e. 0 < e.weight) entries.now }
    ensures positive { IfSome result (λ n. 0 < n) }
    ensures multiple { IfSome result (λ n. All (λ e. e.weight ∣ n) entries.now) }
{
    let mut multiple = 1;
    for entry in entries {
        multiple = lcm(entry.weight, multiple)?;
    }
    Some(multiple)
}

// Such a multiple, unless as many times that as there are entries passes the limit.
fn whole_of(average: &Column) -> Option<u128>
    ensures positive { IfSome result (λ n. 0 < n) }
    ensures multiple { IfSome result (λ n. All (λ e. e.weight ∣ n) average.now) }
    ensures narrow { IfSome result (λ n. n * length average.now ≤ limit) }
{
    let entries = average.entries().as_slice();
    let n = multiple_of_weights(entries)?;
    match n.checked_mul(entries.len() as u128) {
        Some(all) if all <= LIMIT => Some(n),
        _ => None,
    }
}

// A part of a whole, in `n`-ths.
fn cell(part: u128, whole: u128, n: u128) -> u128
    requires part { part ≤ whole }
    requires some { 0 < whole }
    ensures { result ≡ part * (n / whole) }
{
    part * quotient(n, whole)
}

// The greatest cell of some entries, whose weights are to be taken so many times, in `n`-ths.
fn greatest_of_entries(entries: &[Entry], times: u128, average: &Column, n: u128) -> u128
    requires some { All (λ e. 0 < weight_at average.now e.value) entries.now }
    requires part { All (λ e. e.weight * times ≤ weight_at average.now e.value) entries.now }
    ensures { result ≡ greatest (map (λ e. e.weight * times * (n / weight_at average.now e.value)) entries.now) }
{
    let mut most = 0;
    for entry in entries {
        let whole = average.weight(entry.value);
        most = most.max(cell(entry.weight * times, whole, n));
    }
    most
}

// The greatest cell of the inner with the number `i`, in `n`-ths.
fn greatest_cell(h: &Hyper, i: usize, average: &Column, n: u128) -> u128
    requires inner { i < length (inners_of h.now) }
    requires average { (x : ℕ) → weight_at average.now x ≡ average_weight (inners_of h.now) x }
    ensures { result ≡ greatest_of n (inners_of h.now) (inner_at h.now i) }
{
    // for the proof alone: the sum of an inner is above 0 and divides the total
    h.has_shape();
    let inner = h.inner(i);
    let times = quotient(h.total(i), inner.total());
    greatest_of_entries(inner.entries().as_slice(), times, average, n)
}

// The sum of the greatest cells of all inners, in `n`-ths, unless it passes the limit.
fn sum_of_cells(h: &Hyper, average: &Column, n: u128) -> Option<u128>
    requires { (x : ℕ) → weight_at average.now x ≡ average_weight (inners_of h.now) x }
    ensures is { IfSome result (λ s. s ≡ belief_capacity n (inners_of h.now)) }
    ensures narrow { IfSome result (λ s. s ≤ limit) }
{
    let mut sum: u128 = 0;
    for i in 0..h.count() {
        match sum.checked_add(greatest_cell(h, i, average, n)) {
            Some(more) if more <= LIMIT => sum = more,
            _ => return None,
        }
    }
    Some(sum)
}

// The Bayes capacity, by the weights that the secrets have in all inners together.
fn capacity_over(h: &Hyper, average: &Column) -> Option<Frac>
    requires { (x : ℕ) → weight_at average.now x ≡ average_weight (inners_of h.now) x }
    ensures { let inners = inners_of h.now in
        IfSome result (λ f. (n : ℕ) × IsWholeIn inners n × IsFraction f (pos (belief_capacity n inners)) n) }
{
    // for the proof alone: the weights are those of a column
    average.is_column();
    let n = whole_of(average)?;
    let sum = sum_of_cells(h, average, n)?;
    make(sum as i128, n).ok()
}

/// The Bayes capacity of the channel of a hyper about its secrets (Alvim et al. 2020), from its inners in place of the channel's columns: columns in
/// proportion have greatest cells in proportion.
///
/// `None` where the least common multiple of the secrets' weights, times their number, passes 2^127 - 1.
pub fn capacity_of_hyper(alloc: Global, h: &Hyper) -> Result<Option<Frac>, Mem>
    ensures { let inners = inners_of h.now in
        IfOk result (λ found. IfSome found (λ f. (n : ℕ) × IsWholeIn inners n × IsFraction f (pos (belief_capacity n inners)) n)) }
{
    let average = h.average(alloc)?;
    Ok(capacity_over(h, &average))
}

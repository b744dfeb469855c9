//! Whether the entries of a matrix carry the joint weights of one hyper to those of another.

ghost use Rattle.std.specs.Prelude.{◌≡◌, ◌↔◌, ◌+◌, ◌*◌, ◌/◌, ◌^◌, ◌≤◌, ◌<◌, ℕ, All, IfOk, OnOk, IsTrue, length, map};
ghost use Rattle.std.specs.List.Sorted.{IsNonDecreasingBy};
ghost use Rattle.kf_cert.specs.Cells.{AreCarried, IsCarried, share_total, column_total};
ghost use Rattle.kf_frac.specs.Fractions.{limit};
ghost use Rattle.kf_column.specs.Averages.{scaled, joint_weight};
ghost use Rattle.kf_column.specs.Columns.{total};
ghost use Rattle.kf_hyper.specs.Sums.{summed, ArePositive, Gains};
ghost use Rattle.kf_hyper.specs.Views.{inners_of, inner_at, scale_of};
ghost use Rattle.kf_refine.specs.Views.{hyper_tree};

use super::shares::{Share, in_column};
use super::weights::{add_all, entries_of};
use kf_frac::Product;
use kf_hyper::{Entry, Hyper};
use kf_value::Mem;
use std::alloc::Global;
use std::cmp::Ordering;
use std::collections::BTreeMap;

// How often an inner's weights go into its joint weights.
fn multiple(h: &Hyper, i: usize) -> u128
    requires { i < length (inners_of h.now) }
    ensures { result ≡ (inner_at h.now i).total / total (inner_at h.now i).entries }
{
    h.has_shape();
    h.total(i) / h.inner(i).total()
}

// Adds so many times the joint weights of an inner.
fn add_inner(sums: &mut BTreeMap<u64, u128>, h: &Hyper, i: usize, part: u128) -> Result<(), Mem>
    requires inner { i < length (inners_of h.now) }
    requires fits { total (summed sums.old.entries) + (inner_at h.now i).total * part < 2 ^ 128 }
    ensures gains { OnOk result (Gains (λ x. joint_weight x (inner_at h.now i) * part) ((inner_at h.now i).total * part)
        (summed sums.old.entries) (summed sums.new.entries)) }
    ensures positive { OnOk result (ArePositive (summed sums.old.entries) → ArePositive (summed sums.new.entries)) }
{
    if part == 0 {
        return Ok(());
    }
    h.has_shape();
    let times = multiple(h, i) * part;
    add_all(sums, h.inner(i).entries().as_slice(), times)?;
    Ok(())
}

// What the values weigh together by the first hyper's joint weights and the shares of a column.
fn column_sums(alloc: Global, a: &Hyper, column: &[Share]) -> Result<Vec<Entry>, Mem>
    requires inside { All (λ s. s.row < length (inners_of a.now)) column.now }
    requires fits { share_total (hyper_tree a.now) column.now ≤ limit }
    ensures { IfOk result (λ entries. AreCarried (hyper_tree a.now) column.now entries.items) }
{
    let mut sums = BTreeMap::new(alloc);
    for share in column {
        add_inner(&mut sums, a, share.row, share.amount)?;
    }
    entries_of(alloc, sums)
}

// Whether two entries are the same once their weights are multiplied.
fn is_equal(one: &Entry, factor: u128, other: &Entry, times: u128, whole: u128) -> bool
    requires { times * other.now.weight < 2 ^ 128 }
    ensures { IsTrue result ↔ (scaled factor one.now ≡ scaled whole (scaled times other.now)) }
{
    let product = Product::new(factor, one.weight);
    let wanted = Product::new(whole, times * other.weight);
    one.value == other.value && product.compare(wanted) == Ordering::Equal
}

// Whether two lists of entries are.
fn are_equal(ones: &[Entry], factor: u128, others: &[Entry], times: u128, whole: u128) -> bool
    requires { All (λ e. times * e.weight < 2 ^ 128) others.now }
    ensures { IsTrue result ↔ (map (scaled factor) ones.now ≡ map (scaled whole) (map (scaled times) others.now)) }
{
    if ones.len() != others.len() {
        return false;
    }
    for k in 0..ones.len() {
        if !is_equal(&ones[k], factor, &others[k], times, whole) {
            return false;
        }
    }
    true
}

// Whether the shares carry the first hyper's joint weights to those of the second's inner `j`.
fn is_carried(
    alloc: Global,
    a: &Hyper,
    b: &Hyper,
    shares: &[Share],
    over: u128,
    j: usize,
) -> Result<bool, Mem>
    requires inner { j < length (inners_of b.now) }
    requires inside { All (λ s. s.row < length (inners_of a.now)) shares.now }
    requires ascending { IsNonDecreasingBy (λ s. s.column) shares.now }
    requires some { 0 < over }
    requires narrow { scale_of a.now * over ≤ limit }
    requires fits { column_total (hyper_tree a.now) shares.now j ≤ limit }
    ensures { IfOk result (λ r. IsTrue r ↔ IsCarried (hyper_tree a.now) (hyper_tree b.now) over shares.now j) }
{
    let sums = column_sums(alloc, a, in_column(shares, j))?;
    let entries = b.inner(j).entries().as_slice();
    let whole = a.scale() * over;
    Ok(are_equal(sums.as_slice(), b.scale(), entries, multiple(b, j), whole))
}

// Whether they do for every inner.
fn all_carried(
    alloc: Global,
    a: &Hyper,
    b: &Hyper,
    shares: &[Share],
    over: u128,
) -> Result<bool, Mem>
    requires inside { All (λ s. s.row < length (inners_of a.now)) shares.now }
    requires ascending { IsNonDecreasingBy (λ s. s.column) shares.now }
    requires some { 0 < over }
    requires narrow { scale_of a.now * over ≤ limit }
    requires fits { (j : ℕ) → column_total (hyper_tree a.now) shares.now j ≤ limit }
    ensures { IfOk result (λ r. IsTrue r ↔ ((j : ℕ) → j < length (inners_of b.now) → IsCarried (hyper_tree a.now) (hyper_tree b.now) over shares.now j)) }
{
    for j in 0..b.count() {
        if !is_carried(alloc, a, b, shares, over, j)? {
            return Ok(false);
        }
    }
    Ok(true)
}

/// Whether shares, in any order, carry the first hyper's joint weights to the second's.
pub(super) fn carries(
    alloc: Global,
    a: &Hyper,
    b: &Hyper,
    mut shares: Vec<Share>,
    over: u128,
) -> Result<bool, Mem>
    requires inside { All (λ s. s.row < length (inners_of a.now)) shares.items }
    requires some { 0 < over }
    requires narrow { scale_of a.now * over ≤ limit }
    requires fits { (j : ℕ) → column_total (hyper_tree a.now) shares.items j ≤ limit }
    ensures { IfOk result (λ r. IsTrue r ↔ ((j : ℕ) → j < length (inners_of b.now) → IsCarried (hyper_tree a.now) (hyper_tree b.now) over shares.items j)) }
{
    shares.sort_unstable_by_key(|share| share.column);
    all_carried(alloc, a, b, shares.as_slice(), over)
}

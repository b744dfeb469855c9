//! The equations of two hypers.

ghost use Rattle.std.specs.Prelude.{◌≡◌, ◌≢◌, ℕ, ◌+◌, ◌*◌, ◌<◌, ◌≤◌, ◌^◌, All, pos, length, slice_index, Err, IfOk, IfErr, OnOk};
ghost use Rattle.kf_simplex.specs.Answers.{IsAnswer};
ghost use Rattle.kf_simplex.specs.Cells.{AllNarrow};
ghost use Rattle.kf_simplex.specs.Entries.{IsRowWithin, number_in};
ghost use Rattle.kf_simplex.specs.Systems.{LinearSystem};
ghost use Rattle.kf_simplex.specs.Views.{sparse};
ghost use Rattle.kf_simplex.specs.declared.outcome.SimplexError.TheVariants as simplex;
ghost use Rattle.kf_refine.specs.declared.verdict.RefineError.TheVariants as error;
ghost use Rattle.kf_refine.specs.Built.{AreBuilt, AreWeights, HasWide, IsWide, spread, sum_number, whole};
ghost use Rattle.kf_refine.specs.Equations.{AreKept, AreEquations, cells_of};
ghost use Rattle.kf_refine.specs.Refinements.{count};
ghost use Rattle.kf_refine.specs.Views.{hyper_tree};

use crate::RefineError;
use crate::scalings::{Scaling, to_whole};
use kf_hyper::Hyper;
use kf_simplex::{Entry, Row, SparseEquation, SparseSystem};
use std::alloc::{AllocError, Global};

/// The equations on the matrix that carries the first hyper to the second; `Wide` after 0 pivots where a number in them passes 2^62.
pub(crate) fn equations(
    alloc: Global,
    a: &Hyper,
    b: &Hyper,
    kept: &[u64],
) -> Result<SparseSystem, RefineError>
    requires kept { AreKept (hyper_tree a.now) (hyper_tree b.now) kept.now }
    requires few { cells_of (length kept.now) (count (hyper_tree a.now)) (count (hyper_tree b.now)) ≤ 4000000 }
    ensures ok { IfOk result (λ s. (e : AreEquations (hyper_tree a.now) (hyper_tree b.now) (sparse s)) × (e.values ≡ kept.now)) }
    ensures err { IfErr result (λ r. r ≢ error.Mem → (r ≡ error.Wide 0) × (s : LinearSystem)
        × (e : AreEquations (hyper_tree a.now) (hyper_tree b.now) s) × (e.values ≡ kept.now)
        × ((pivots : ℕ) → IsAnswer s pivots (Err (simplex.Wide 0)))) }
{
    let Some(scaling) = to_whole(a, b, kept) else {
        return Err(RefineError::Wide { pivots: 0 });
    };
    let rows = all_equations(alloc, a, b, kept, &scaling)?;
    Ok(SparseSystem {
        unknowns: (a.count() * b.count()) as u32,
        rows,
    })
}

// The equations of all kept values and inners of the second hyper, and then those of all inners of the first.
fn all_equations(
    alloc: Global,
    a: &Hyper,
    b: &Hyper,
    kept: &[u64],
    scaling: &Scaling,
) -> Result<Vec<SparseEquation>, RefineError>
    requires few { cells_of (length kept.now) (count (hyper_tree a.now)) (count (hyper_tree b.now)) ≤ 4000000 }
    ensures ok { let u = whole (hyper_tree a.now) scaling.now.a_divisor scaling.now.a_factor in
        let v = whole (hyper_tree b.now) scaling.now.b_divisor scaling.now.b_factor in
        IfOk result (λ rows. AreBuilt (count (hyper_tree a.now)) (count (hyper_tree b.now)) kept.now u v
        (length kept.now * count (hyper_tree b.now) + count (hyper_tree a.now)) rows.items) }
    ensures err { let u = whole (hyper_tree a.now) scaling.now.a_divisor scaling.now.a_factor in
        let v = whole (hyper_tree b.now) scaling.now.b_divisor scaling.now.b_factor in
        IfErr result (λ r. r ≢ error.Mem → (r ≡ error.Wide 0)
        × HasWide (count (hyper_tree a.now)) (count (hyper_tree b.now)) kept.now u v) }
{
    let mut rows = value_equations(alloc, a, b, kept, scaling)?;
    for p in 0..a.count() {
        let row = sum_equation(alloc, b.count(), p)?;
        rows.push(row)?;
    }
    Ok(rows)
}

// The equations of all kept values and inners of the second hyper, with room for those of the inners of the first.
fn value_equations(
    alloc: Global,
    a: &Hyper,
    b: &Hyper,
    kept: &[u64],
    scaling: &Scaling,
) -> Result<Vec<SparseEquation>, RefineError>
    requires few { cells_of (length kept.now) (count (hyper_tree a.now)) (count (hyper_tree b.now)) ≤ 4000000 }
    ensures ok { let u = whole (hyper_tree a.now) scaling.now.a_divisor scaling.now.a_factor in
        let v = whole (hyper_tree b.now) scaling.now.b_divisor scaling.now.b_factor in
        IfOk result (λ rows. AreBuilt (count (hyper_tree a.now)) (count (hyper_tree b.now)) kept.now u v
        (length kept.now * count (hyper_tree b.now)) rows.items) }
    ensures err { let u = whole (hyper_tree a.now) scaling.now.a_divisor scaling.now.a_factor in
        let v = whole (hyper_tree b.now) scaling.now.b_divisor scaling.now.b_factor in
        IfErr result (λ r. r ≢ error.Mem → (r ≡ error.Wide 0)
        × HasWide (count (hyper_tree a.now)) (count (hyper_tree b.now)) kept.now u v) }
{
    let mut rows = Vec::with_capacity(alloc, kept.len() * b.count() + a.count())?;
    for q in 0..kept.len() {
        push_equations(alloc, a, b, kept, scaling, q, &mut rows)?;
    }
    Ok(rows)
}

// Adds the equations of the kept value with the number `q` and all inners of the second hyper.
fn push_equations(
    alloc: Global,
    a: &Hyper,
    b: &Hyper,
    kept: &[u64],
    scaling: &Scaling,
    q: usize,
    rows: &mut Vec<SparseEquation>,
) -> Result<(), RefineError>
    requires value { q < length kept.now }
    requires few { count (hyper_tree a.now) * count (hyper_tree b.now) ≤ 4000000 }
    requires rows { let u = whole (hyper_tree a.now) scaling.now.a_divisor scaling.now.a_factor in
        let v = whole (hyper_tree b.now) scaling.now.b_divisor scaling.now.b_factor in
        AreBuilt (count (hyper_tree a.now)) (count (hyper_tree b.now)) kept.now u v (q * count (hyper_tree b.now)) rows.old.items }
    ensures ok { let u = whole (hyper_tree a.now) scaling.now.a_divisor scaling.now.a_factor in
        let v = whole (hyper_tree b.now) scaling.now.b_divisor scaling.now.b_factor in
        OnOk result (AreBuilt (count (hyper_tree a.now)) (count (hyper_tree b.now)) kept.now u v ((q + 1) * count (hyper_tree b.now)) rows.new.items) }
    ensures err { let u = whole (hyper_tree a.now) scaling.now.a_divisor scaling.now.a_factor in
        let v = whole (hyper_tree b.now) scaling.now.b_divisor scaling.now.b_factor in
        IfErr result (λ r. r ≢ error.Mem → (r ≡ error.Wide 0)
        × HasWide (count (hyper_tree a.now)) (count (hyper_tree b.now)) kept.now u v) }
{
    let weights = value_weights(alloc, a, scaling, kept[q])?;
    for j in 0..b.count() {
        let row = value_equation(alloc, b, scaling, &weights, kept[q], j)?;
        rows.push(row)?;
    }
    Ok(())
}

// The weights of a value that aren't 0, each at the number of its inner of the first hyper.
fn value_weights(alloc: Global, a: &Hyper, scaling: &Scaling, x: u64) -> Result<Row, RefineError>
    ensures ok { let u = whole (hyper_tree a.now) scaling.now.a_divisor scaling.now.a_factor in
        IfOk result (λ row. AreWeights (count (hyper_tree a.now)) (u x) row.entries.items) }
    ensures err { let u = whole (hyper_tree a.now) scaling.now.a_divisor scaling.now.a_factor in
        IfErr result (λ r. r ≢ error.Mem → (r ≡ error.Wide 0) × IsWide (count (hyper_tree a.now)) (u x)) }
{
    let mut entries = Vec::new(alloc);
    for i in 0..a.count() {
        let Some(weight) = scaling.of_a(a.weight(i, x)) else {
            return Err(RefineError::Wide { pivots: 0 });
        };
        if weight != 0 {
            entries.push(Entry {
                column: i,
                number: weight as i128,
            })?;
        }
    }
    Ok(Row { entries })
}

// The equation of a value that has these weights and the inner `j` of the second hyper.
fn value_equation(
    alloc: Global,
    b: &Hyper,
    scaling: &Scaling,
    weights: &Row,
    x: u64,
    j: usize,
) -> Result<SparseEquation, RefineError>
    requires inner { j < count (hyper_tree b.now) }
    requires few { All (λ e. e.column * count (hyper_tree b.now) + j < 4000000) weights.now.entries.items }
    requires narrow { AllNarrow (number_in weights.now.entries.items) }
    ensures coefs { IfOk result (λ e. e.coefs.entries.items ≡ spread (count (hyper_tree b.now)) j weights.now.entries.items) }
    ensures rhs { let v = whole (hyper_tree b.now) scaling.now.b_divisor scaling.now.b_factor in
        IfOk result (λ e. e.rhs ≡ pos (v x j)) }
    ensures err { let v = whole (hyper_tree b.now) scaling.now.b_divisor scaling.now.b_factor in
        IfErr result (λ r. r ≢ error.Mem → (r ≡ error.Wide 0) × (2 ^ 62 < v x j)) }
{
    let coefs = value_coefficients(alloc, weights, b.count(), j)?;
    let Some(rhs) = scaling.of_b(b.weight(j, x)) else {
        return Err(RefineError::Wide { pivots: 0 });
    };
    Ok(SparseEquation { coefs, rhs })
}

// Its coefficients: in each row of `columns` unknowns the weight of the row's inner at place `j`.
fn value_coefficients(
    alloc: Global,
    weights: &Row,
    columns: usize,
    j: usize,
) -> Result<Row, AllocError>
    requires inner { j < columns }
    requires few { All (λ e. e.column * columns + j < 4000000) weights.now.entries.items }
    ensures { IfOk result (λ row. row.entries.items ≡ spread columns j weights.now.entries.items) }
{
    // with room for the two entries that the simplex puts behind these
    let mut entries = Vec::with_capacity(alloc, weights.entries.len().saturating_add(2))?;
    for weight in weights.entries.as_slice() {
        entries.push(Entry {
            column: weight.column * columns + j,
            number: weight.number,
        })?;
    }
    Ok(Row { entries })
}

// The equation of the inner `p` of the first hyper: the `columns` unknowns in its row sum to 1.
fn sum_equation(alloc: Global, columns: usize, p: usize) -> Result<SparseEquation, AllocError>
    requires some { 0 < columns }
    requires few { p * columns + columns ≤ 4000000 }
    ensures within { IfOk result (λ e. IsRowWithin (p * columns + columns) e.coefs.entries.items) }
    ensures coefs { IfOk result (λ e. (c : ℕ) → number_in e.coefs.entries.items c ≡ sum_number columns p c) }
    ensures rhs { IfOk result (λ e. e.rhs ≡ pos 1) }
{
    let coefs = sum_coefficients(alloc, columns, p)?;
    Ok(SparseEquation { coefs, rhs: 1 })
}

// Its coefficients: 1 in row `p`, and 0 in the others.
fn sum_coefficients(alloc: Global, columns: usize, p: usize) -> Result<Row, AllocError>
    requires some { 0 < columns }
    requires few { p * columns + columns ≤ 4000000 }
    ensures within { IfOk result (λ row. IsRowWithin (p * columns + columns) row.entries.items) }
    ensures numbers { IfOk result (λ row. (c : ℕ) → number_in row.entries.items c ≡ sum_number columns p c) }
{
    // with room for two more, as above
    let mut entries = Vec::with_capacity(alloc, columns.saturating_add(2))?;
    for l in 0..columns {
        entries.push(Entry {
            column: p * columns + l,
            number: 1,
        })?;
    }
    Ok(Row { entries })
}

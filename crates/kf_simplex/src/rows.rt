ghost use Rattle.std.specs.Prelude.{◌≡◌, ◌≢◌, ℕ, ◌+◌, ◌-◌, ◌*◌, ◌<◌, ◌≤◌, ◌^◌, ◌↔◌, ℤ, pos, ◌+ℤ◌, ◌-ℤ◌, ◌*ℤ◌, ◌<ℤ◌, ◌≤ℤ◌, unsigned_abs, length, map, slice_index_or, EachIndex, IsTrue, IfOk};
ghost use Rattle.std.specs.Int.{◌∣◌};
ghost use Rattle.kf_simplex.specs.Cells.{IsNarrowNumber, AllNarrow, AllBelow, IsCommonGcd, IsReducedRow, PassesAt, PassesRows, IsFirstDifference};
ghost use Rattle.kf_simplex.specs.Entries.{no_entry, number_in};
ghost use Rattle.kf_simplex.specs.Flat.{cell};
ghost use Rattle.kf_simplex.specs.Columns.{deciding};

use crate::row::{Entry, Row, next_pair, number_at};
use kf_frac::gcd;
use std::alloc::{AllocError, Global};
use std::cmp::Ordering;

// A product of two narrow numbers.
fn product(a: i128, b: i128) -> i128
    requires a { IsNarrowNumber a }
    requires b { IsNarrowNumber b }
    ensures value { result ≡ a *ℤ b }
    ensures below { unsigned_abs result ≤ 2 ^ 124 }
{
    a * b
}

// `p * x - a * y`.
fn crossed(p: i128, a: i128, x: i128, y: i128) -> i128
    requires p { IsNarrowNumber p }
    requires a { IsNarrowNumber a }
    requires x { IsNarrowNumber x }
    requires y { IsNarrowNumber y }
    ensures value { result ≡ p *ℤ x -ℤ a *ℤ y }
    ensures below { unsigned_abs result ≤ 2 ^ 125 }
{
    product(p, x) - product(a, y)
}

// The row times `p`, less the other row times `a`.
fn cross_row(alloc: Global, row: &Row, other: &Row, p: i128, a: i128) -> Result<Row, AllocError>
    requires p { IsNarrowNumber p }
    requires a { IsNarrowNumber a }
    requires row { AllNarrow (number_in row.now.entries.items) }
    requires other { AllNarrow (number_in other.now.entries.items) }
    ensures value { IfOk result (λ new. (k : ℕ) → number_in new.entries.items k ≡ p *ℤ number_in row.now.entries.items k -ℤ a *ℤ number_in other.now.entries.items k) }
    ensures below { IfOk result (λ new. AllBelow (number_in new.entries.items) (2 ^ 125)) }
{
    let mut entries = Vec::with_capacity(alloc, row.entries.len().max(other.entries.len()))?;
    let mut xs = row.entries.as_slice();
    let mut ys = other.entries.as_slice();
    while let Some(pair) = next_pair(xs, ys) {
        let number = crossed(p, a, pair.x, pair.y);
        if number != 0 {
            entries.push(Entry {
                column: pair.column,
                number,
            })?;
        }
        xs = pair.xs;
        ys = pair.ys;
    }
    Ok(Row { entries })
}

// The greatest common divisor of a row's entries.
fn common_factor(row: &Row) -> u128
    ensures { IsCommonGcd (map (λ e. e.number) row.now.entries.items) (length row.now.entries.items) result }
{
    let mut g = 0;
    for e in row.entries.as_slice() {
        if g == 1 {
            return 1;
        }
        g = gcd(g, e.number.unsigned_abs());
    }
    g
}

// A number over a divisor of it, by one division of 64 bits where both fit.
fn quotient(x: i128, g: i128) -> i128
    requires positive { pos 0 <ℤ g }
    requires divides { unsigned_abs g ∣ unsigned_abs x }
    ensures { g *ℤ result ≡ x }
{
    match (i64::try_from(x), i64::try_from(g)) {
        (Ok(x), Ok(g)) => i128::from(x / g),
        _ => x / g,
    }
}

// Each number over a common divisor.
fn divided(alloc: Global, row: &Row, g: i128) -> Result<Row, AllocError>
    requires positive { pos 0 <ℤ g }
    requires divides { (k : ℕ) → unsigned_abs g ∣ unsigned_abs (number_in row.now.entries.items k) }
    ensures { IfOk result (λ new. (k : ℕ) → g *ℤ number_in new.entries.items k ≡ number_in row.now.entries.items k) }
{
    let mut entries = Vec::with_capacity(alloc, row.entries.len())?;
    for e in row.entries.as_slice() {
        let number = quotient(e.number, g);
        entries.push(Entry {
            column: e.column,
            number,
        })?;
    }
    Ok(Row { entries })
}

// Whether no entry passes 2^62 in absolute value.
fn are_narrow(entries: &[Entry]) -> bool
    ensures { IsTrue result ↔ EachIndex entries.now (λ k. IsNarrowNumber ((slice_index_or entries.now k no_entry).number)) }
{
    entries.iter().all(|e| e.number.unsigned_abs() <= 1 << 62)
}

// Whether no number passes 2^62 in absolute value.
fn is_narrow(row: &Row) -> bool
    ensures { IsTrue result ↔ AllNarrow (number_in row.now.entries.items) }
{
    are_narrow(row.entries.as_slice())
}

// The same of all rows.
pub(crate) fn are_all_narrow(rows: &[Row]) -> bool
    ensures { IsTrue result ↔ ((i : ℕ) → AllNarrow (cell rows.now i)) }
{
    for i in 0..rows.len() {
        if !is_narrow(&rows[i]) {
            return false;
        }
    }
    true
}

// The row over its greatest common divisor, if that is not 0.
fn primitive(alloc: Global, row: Row) -> Result<Row, AllocError>
    requires { AllBelow (number_in row.entries.items) (2 ^ 125) }
    ensures { IfOk result (λ new. IsReducedRow (number_in row.entries.items) (number_in new.entries.items)) }
{
    let factor = common_factor(&row);
    if factor > 1 {
        divided(alloc, &row, factor as i128)
    } else {
        Ok(row)
    }
}

// The greatest common divisor of two numbers, or 1 where both are 0.
fn shared(p: i128, a: i128) -> i128
    requires p { IsNarrowNumber p }
    requires a { IsNarrowNumber a }
    ensures positive { pos 0 <ℤ result }
    ensures first { unsigned_abs result ∣ unsigned_abs p }
    ensures second { unsigned_abs result ∣ unsigned_abs a }
{
    match gcd(p.unsigned_abs(), a.unsigned_abs()) {
        0 => 1,
        shared => shared as i128,
    }
}

// The row made 0 at column `c` by the chosen row, without common factor.
fn reduced(alloc: Global, row: &Row, chosen: &Row, c: usize) -> Result<Row, AllocError>
    requires row { AllNarrow (number_in row.now.entries.items) }
    requires chosen { AllNarrow (number_in chosen.now.entries.items) }
    ensures { IfOk result (λ new. IsReducedRow (λ k. number_in chosen.now.entries.items c *ℤ number_in row.now.entries.items k
        -ℤ number_in row.now.entries.items c *ℤ number_in chosen.now.entries.items k) (number_in new.entries.items)) }
{
    let p = number_at(chosen, c);
    let a = number_at(row, c);
    let shared = shared(p, a);
    let crossed = cross_row(alloc, row, chosen, quotient(p, shared), quotient(a, shared))?;
    primitive(alloc, crossed)
}

// Makes row `i` 0 at column `c` by row `r`, and answers whether it is narrow then. A row that is 0 there
// has no common factor, and stays.
fn reduce_at(
    alloc: Global,
    rows: &mut [Row],
    i: usize,
    r: usize,
    c: usize,
) -> Result<bool, AllocError>
    requires i { i < length rows.old }
    requires r { r < length rows.old }
    requires row { AllNarrow (cell rows.old i) }
    requires chosen { AllNarrow (cell rows.old r) }
    ensures passed { IfOk result (λ narrow. PassesAt (cell rows.old) (cell rows.new) r c i) }
    ensures narrow { IfOk result (λ narrow. IsTrue narrow ↔ AllNarrow (cell rows.new i)) }
{
    if i == r || number_at(&rows[i], c) == 0 {
        return Ok(true);
    }
    let row = reduced(alloc, &rows[i], &rows[r], c)?;
    let narrow = is_narrow(&row);
    rows[i] = row;
    Ok(narrow)
}

// Makes column `c` 0 in each row but row `r`, and answers whether all rows are narrow then.
pub(crate) fn reduce_rows(
    alloc: Global,
    rows: &mut [Row],
    r: usize,
    c: usize,
) -> Result<bool, AllocError>
    requires row { r < length rows.old }
    requires narrow { (i : ℕ) → AllNarrow (cell rows.old i) }
    ensures passed { IfOk result (λ narrow. PassesRows (cell rows.old) (cell rows.new) r c (length rows.old)) }
    ensures narrow { IfOk result (λ narrow. IsTrue narrow ↔ ((i : ℕ) → AllNarrow (cell rows.new i))) }
{
    let mut narrow = true;
    for i in 0..rows.len() {
        if !reduce_at(alloc, rows, i, r, c)? {
            narrow = false;
        }
    }
    Ok(narrow)
}

// How `x / p` lies to `y / q`.
fn cross_order(x: i128, q: i128, y: i128, p: i128) -> Ordering
    requires x { IsNarrowNumber x }
    requires q { IsNarrowNumber q }
    requires y { IsNarrowNumber y }
    requires p { IsNarrowNumber p }
    ensures less { result ≡ Ordering.Less → (x *ℤ q) <ℤ (y *ℤ p) }
    ensures greater { result ≡ Ordering.Greater → (y *ℤ p) <ℤ (x *ℤ q) }
    ensures equal { result ≡ Ordering.Equal → x *ℤ q ≡ y *ℤ p }
{
    let left = product(x, q);
    let right = product(y, p);
    if left < right {
        Ordering::Less
    } else if right < left {
        Ordering::Greater
    } else {
        Ordering::Equal
    }
}

// The same for numbers at a column, where it lies from column `from` on and before column `to`.
fn order_at(column: usize, x: i128, y: i128, from: usize, to: usize, p: i128, q: i128) -> Ordering
    requires x { IsNarrowNumber x }
    requires q { IsNarrowNumber q }
    requires y { IsNarrowNumber y }
    requires p { IsNarrowNumber p }
    ensures less { result ≡ Ordering.Less → (from ≤ column) × (column < to) × ((x *ℤ q) <ℤ (y *ℤ p)) }
    ensures greater { result ≡ Ordering.Greater → (from ≤ column) × (column < to) × ((y *ℤ p) <ℤ (x *ℤ q)) }
    ensures equal { result ≡ Ordering.Equal → from ≤ column → column < to → x *ℤ q ≡ y *ℤ p }
{
    if from <= column && column < to {
        cross_order(x, q, y, p)
    } else {
        Ordering::Equal
    }
}

// How the numbers of `a` over `p` lie to those of `b` over `q`, from column `from` on and before column `to`.
fn tail_order(a: &Row, b: &Row, from: usize, to: usize, p: i128, q: i128) -> Ordering
    requires p { IsNarrowNumber p }
    requires q { IsNarrowNumber q }
    requires a { AllNarrow (number_in a.now.entries.items) }
    requires b { AllNarrow (number_in b.now.entries.items) }
    ensures { IsFirstDifference (λ m. number_in a.now.entries.items (from + m) *ℤ q) (λ m. number_in b.now.entries.items (from + m) *ℤ p) (to - from) result }
{
    let mut xs = a.entries.as_slice();
    let mut ys = b.entries.as_slice();
    while let Some(pair) = next_pair(xs, ys) {
        match order_at(pair.column, pair.x, pair.y, from, to, p, q) {
            Ordering::Less => return Ordering::Less,
            Ordering::Greater => return Ordering::Greater,
            Ordering::Equal => {}
        }
        xs = pair.xs;
        ys = pair.ys;
    }
    Ordering::Equal
}

// How the deciding list of `a`, over its entry at the column, lies to that of `b`.
pub(crate) fn key_order(a: &Row, b: &Row, unknowns: usize, right: usize, column: usize) -> Ordering
    requires a { AllNarrow (number_in a.now.entries.items) }
    requires b { AllNarrow (number_in b.now.entries.items) }
    requires right { unknowns ≤ right }
    ensures { IsFirstDifference (λ m. number_in a.now.entries.items (deciding unknowns right m) *ℤ number_in b.now.entries.items column)
        (λ m. number_in b.now.entries.items (deciding unknowns right m) *ℤ number_in a.now.entries.items column) (right + 1 - unknowns) result }
{
    let p = number_at(a, column);
    let q = number_at(b, column);
    match cross_order(number_at(a, right), q, number_at(b, right), p) {
        Ordering::Less => Ordering::Less,
        Ordering::Greater => Ordering::Greater,
        Ordering::Equal => tail_order(a, b, unknowns, right, p, q),
    }
}

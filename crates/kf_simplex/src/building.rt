ghost use Rattle.std.specs.Prelude.{◌≡◌, ℕ, ◌+◌, ◌*◌, ◌<◌, ◌≤◌, ◌^◌, ◌+ℤ◌, ℤ, pos, length, slice_index, unsigned_abs, IfOk};
ghost use Rattle.std.specs.List.{All};
ghost use Rattle.kf_simplex.specs.Base.{at, total};
ghost use Rattle.kf_simplex.specs.Cells.{AllNarrow};
ghost use Rattle.kf_simplex.specs.Entries.{IsRowWithin, number_in};
ghost use Rattle.kf_simplex.specs.Flat.{IsWithin, cell};
ghost use Rattle.kf_simplex.specs.Turns.{InRun};
ghost use Rattle.kf_simplex.specs.Building.{Built};
ghost use Rattle.kf_simplex.specs.Views.{entry, sparse, sparse_number};

use crate::row::{Entry, Row};
use crate::table::Table;
use crate::{SparseEquation, SparseSystem};
use std::alloc::{AllocError, Global};

// The table of the first basis, all artificials: the equations themselves, and their sum.
pub(crate) fn first_table(alloc: Global, s: SparseSystem) -> Result<Table, AllocError>
    requires { (length s.rows.items + 1) * (s.unknowns + length s.rows.items + 1) < 4000001 }
    ensures shape { IfOk result (λ t. (t.unknowns ≡ s.unknowns) × (t.equations ≡ length s.rows.items)) }
    ensures within { IfOk result (λ t. IsWithin (t.unknowns + t.equations) (cell t.rows.items)) }
    ensures first { IfOk result (λ t. (limit : ℕ) → InRun (sparse s) limit 0 (cell t.rows.items) t.basis.items) }
{
    let unknowns = s.unknowns as usize;
    let equations = s.rows.len();
    let mut sums = zeros(alloc, unknowns + equations + 1)?;
    let mut rows = equation_rows(alloc, s.rows, unknowns, &mut sums)?;
    let objective = dense_row(alloc, &sums)?;
    rows.push(objective)?;
    let basis = first_basis(alloc, unknowns, equations)?;
    Ok(Table {
        unknowns,
        equations,
        rows,
        basis,
    })
}

// So many zeros.
fn zeros(alloc: Global, count: usize) -> Result<Vec<i128>, AllocError>
    ensures len { IfOk result (λ xs. length xs.items ≡ count) }
    ensures zero { IfOk result (λ xs. (c : ℕ) → at xs.items c ≡ pos 0) }
{
    let xs = vec![in alloc; 0i128; count]?;
    Ok(xs)
}

// A row for each equation, and their sums by columns.
fn equation_rows(
    alloc: Global,
    list: Vec<SparseEquation>,
    unknowns: usize,
    sums: &mut [i128],
) -> Result<Vec<Row>, AllocError>
    requires len { length sums.old ≡ unknowns + length list.items + 1 }
    requires small { length sums.old < 4000001 }
    requires within { All (λ q. IsRowWithin unknowns q.coefs.entries.items) list.items }
    requires empty { (c : ℕ) → at sums.old c ≡ pos 0 }
    ensures { let e = length list.items in IfOk result (λ rows. Built unknowns e (sparse_number unknowns list.items) rows.items sums.new e) }
{
    let equations = list.len();
    let mut rows = Vec::with_capacity(alloc, equations + 1)?;
    for equation in list {
        let row = equation_row(equation, rows.len(), unknowns, equations)?;
        add_row(sums, &row);
        rows.push(row)?;
    }
    Ok(rows)
}

// The row of equation `k`: its entries, with 1 at its artificial column and its right side after them.
fn equation_row(
    equation: SparseEquation,
    k: usize,
    unknowns: usize,
    equations: usize,
) -> Result<Row, AllocError>
    requires equation { k < equations }
    requires small { unknowns + equations < 4000001 }
    requires within { IsRowWithin unknowns equation.coefs.entries.items }
    ensures inside { IfOk result (λ row. IsRowWithin (unknowns + equations + 1) row.entries.items) }
    ensures numbers { IfOk result (λ row. (c : ℕ) → number_in row.entries.items c ≡ entry unknowns equations (number_in equation.coefs.entries.items) equation.rhs k c) }
{
    let mut entries = equation.coefs.entries;
    entries.push(Entry {
        column: unknowns + k,
        number: 1,
    })?;
    if equation.rhs != 0 {
        entries.push(Entry {
            column: unknowns + equations,
            number: equation.rhs as i128,
        })?;
    }
    Ok(Row { entries })
}

// Adds each number of the row to that at its column.
fn add_row(sums: &mut [i128], row: &Row)
    requires small { length sums.old < 4000001 }
    requires inside { IsRowWithin (length sums.old) row.now.entries.items }
    requires narrow { AllNarrow (number_in row.now.entries.items) }
    requires sums { (c : ℕ) → unsigned_abs (at sums.old c) ≤ 2 ^ 100 }
    ensures { (c : ℕ) → c < length sums.old → at sums.new c ≡ at sums.old c +ℤ number_in row.now.entries.items c }
{
    for e in row.entries.as_slice() {
        sums[e.column] = sums[e.column] + e.number;
    }
}

// A row of all numbers but zeros.
fn dense_row(alloc: Global, numbers: &[i128]) -> Result<Row, AllocError>
    ensures { IfOk result (λ row. (c : ℕ) → number_in row.entries.items c ≡ at numbers.now c) }
{
    let mut entries = Vec::new(alloc);
    for column in 0..numbers.len() {
        if numbers[column] != 0 {
            entries.push(Entry {
                column,
                number: numbers[column],
            })?;
        }
    }
    Ok(Row { entries })
}

// The artificial columns in order.
fn first_basis(alloc: Global, unknowns: usize, equations: usize) -> Result<Vec<usize>, AllocError>
    requires { unknowns + equations < 4000001 }
    ensures len { IfOk result (λ basis. length basis.items ≡ equations) }
    ensures artificial { IfOk result (λ basis. (k : ℕ) → k < equations → slice_index basis.items k ≡ unknowns + k) }
{
    let mut basis = Vec::with_capacity(alloc, equations)?;
    for k in 0..equations {
        basis.push(unknowns + k)?;
    }
    Ok(basis)
}

ghost use Rattle.std.specs.Prelude.{◌≡◌, ℕ, length, IfOk};
ghost use Rattle.kf_simplex.specs.Base.{at};
ghost use Rattle.kf_simplex.specs.Entries.{IsRowWithin, number_in};
ghost use Rattle.kf_simplex.specs.Views.{linear, sparse};

use crate::row::{Entry, Row};
use crate::{SparseEquation, SparseSystem, System};
use std::alloc::{AllocError, Global};

// The same system, by its coefficients that aren't 0.
pub(crate) fn sparse_of(alloc: Global, s: &System) -> Result<SparseSystem, AllocError>
    ensures { IfOk result (λ t. sparse t ≡ linear s.now) }
{
    let equations = s.rows.as_slice();
    let mut rows = Vec::with_capacity(alloc, equations.len())?;
    for equation in equations {
        let coefs = row_of(alloc, equation.coefs.as_slice())?;
        rows.push(SparseEquation {
            coefs,
            rhs: equation.rhs,
        })?;
    }
    Ok(SparseSystem {
        unknowns: s.unknowns,
        rows,
    })
}

// The row of all coefficients but zeros.
fn row_of(alloc: Global, coefs: &[i64]) -> Result<Row, AllocError>
    ensures inside { IfOk result (λ row. IsRowWithin (length coefs.now) row.entries.items) }
    ensures numbers { IfOk result (λ row. (c : ℕ) → number_in row.entries.items c ≡ at coefs.now c) }
{
    let mut entries = Vec::new(alloc);
    for column in 0..coefs.len() {
        if coefs[column] != 0 {
            entries.push(Entry {
                column,
                number: coefs[column] as i128,
            })?;
        }
    }
    Ok(Row { entries })
}

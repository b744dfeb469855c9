//! The matrix of a solution.

ghost use Rattle.std.specs.Prelude.{◌≡◌, ◌*◌, length, IfOk};
ghost use Rattle.kf_refine.specs.Verdicts.{IsMatrixOf};
ghost use Rattle.kf_refine.specs.Views.{matrix_tree};

use crate::{FracRowList, Matrix};
use kf_simplex::FracList;
use kf_value::Mem;
use std::alloc::Global;

/// The matrix that a solution is, row after row.
pub(crate) fn matrix(
    alloc: Global,
    rows: usize,
    columns: usize,
    solution: &FracList,
) -> Result<Matrix, Mem>
    requires { length solution.now ≡ rows * columns }
    ensures { IfOk result (λ m. IsMatrixOf rows columns solution.now (matrix_tree m)) }
{
    let entries = solution.as_slice();
    let mut list = Vec::with_capacity(alloc, rows)?;
    for i in 0..rows {
        let row = entries[i * columns..(i + 1) * columns].to_vec(alloc)?;
        list.push(FracList::new(row))?;
    }
    Ok(Matrix {
        rows: FracRowList::new(list),
    })
}

//! Columns erased: all that told them apart is gone.

ghost use Rattle.std.specs.Prelude.{◌≡◌, ◌≢◌, ◌≤◌, ◌<◌, [], ◌∷◌, ℕ, All, IfOk, sum_by};
ghost use Rattle.kf_frac.specs.Fractions.{limit};
ghost use Rattle.kf_column.specs.Columns.{total, weight_at};
ghost use Rattle.kf_column.specs.Joint.{mass};
ghost use Rattle.kf_column.specs.Shapes.{IsBelow};
ghost use Rattle.kf_push.specs.Erased.{IsErased};

use kf_hyper::{Column, ColumnList, Columns, gathered};
use kf_value::Mem;
use std::alloc::Global;

/// One column alone.
pub fn alone(alloc: Global, scale: u128, column: Column) -> Result<Columns, Mem>
    requires some { 0 < scale }
    requires narrow { scale ≤ limit }
    requires fits { total column ≤ scale }
    ensures { IfOk result (λ one. one ≡ record { scale = scale; columns = column ∷ [] }) }
{
    let mut columns = Vec::new(alloc);
    columns.push(column)?;
    Ok(Columns::new(scale, ColumnList::new(columns)))
}

/// The sum of all columns: what is left of them where nothing tells them apart.
pub fn sum_of(alloc: Global, columns: &Columns) -> Result<Column, Mem>
    requires some { columns.now.columns ≢ [] }
    ensures weights { IfOk result (λ sum. (x : ℕ) → weight_at sum x ≡ sum_by (λ c. weight_at c x) columns.now.columns) }
    ensures total { IfOk result (λ sum. total sum ≡ mass columns.now.columns) }
    ensures below { IfOk result (λ sum. (size : ℕ) → All (IsBelow size) columns.now.columns → IsBelow size sum) }
{
    let columns = columns.columns().as_slice();
    if let [column] = columns {
        return column.copy(alloc);
    }
    let mut entries = Vec::new(alloc);
    for column in columns {
        entries.extend_from_slice(column.entries().as_slice())?;
    }
    Ok(gathered(entries))
}

/// Over the same scale no column where there is none, and else the one column that is the sum of all.
pub fn erase(alloc: Global, columns: &Columns) -> Result<Columns, Mem>
    ensures erased { IfOk result (λ erased. IsErased columns.now.columns erased.columns) }
    ensures scale { IfOk result (λ erased. erased.scale ≡ columns.now.scale) }
    ensures mass { IfOk result (λ erased. mass erased.columns ≡ mass columns.now.columns) }
    ensures below { IfOk result (λ erased. (size : ℕ) → All (IsBelow size) columns.now.columns → All (IsBelow size) erased.columns) }
{
    if columns.columns().as_slice().is_empty() {
        return Ok(Columns::new(columns.scale(), ColumnList::new(Vec::new(alloc))));
    }
    let sum = sum_of(alloc, columns)?;
    alone(alloc, columns.scale(), sum)
}

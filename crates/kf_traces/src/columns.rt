//! How much weight the stores behind a trace give to each value of the target.

ghost use Rattle.std.specs.Prelude.{◌≡◌, ℕ, ◌<◌, ◌≤◌, ◌==◌, [], ◌∷◌, All, filter, length, IfOk};
ghost use Rattle.kf_frac.specs.Fractions.{limit};
ghost use Rattle.kf_value.specs.Shapes.{shape_size};
ghost use Rattle.kf_value.specs.Numbers.{target_size};
ghost use Rattle.kf_value.specs.Views.{items_of};
ghost use Rattle.kf_core.specs.Checked.{IsChecked};
ghost use Rattle.kf_core.specs.Joint.{target_number};
ghost use Rattle.kf_core.specs.Views.{program_tree};
ghost use Rattle.kf_column.specs.Columns.{IsColumn, weight_at, total};
ghost use Rattle.kf_column.specs.Shapes.{IsBelow};
ghost use Rattle.kf_hyper.specs.Sums.{summed};
ghost use Rattle.kf_traces.specs.Laws.{sum_of};
ghost use Rattle.kf_traces.specs.Views.{Fits};

use kf_column::projection_laws;
use kf_core::Program;
use kf_hyper::{Column, ColumnList, Columns, Entry, gathered, project};
use kf_value::Mem;
use std::alloc::Global;

/// The stores as the values of a column.
fn entries_of(alloc: Global, stores: &[(u64, u128)]) -> Result<Vec<Entry>, Mem>
    ensures { IfOk result (λ es. es.items ≡ summed stores.now) }
{
    let mut entries = Vec::new(alloc);
    for store in stores {
        entries.push(Entry {
            value: store.0,
            weight: store.1,
        })?;
    }
    Ok(entries)
}

/// The column of a joint matrix that has one alone.
fn only_column(alloc: Global, joint: &Columns) -> Result<Column, Mem>
    requires { length joint.now.columns ≡ 1 }
    ensures only { IfOk result (λ column. joint.now.columns ≡ column ∷ []) }
    ensures column { IfOk result (λ column. IsColumn column) }
{
    joint.columns().as_slice()[0].copy(alloc)
}

/// How much weight lies on each value of the target: the column of the stores, about the target's variables alone.
///
/// Weights are whole, over `scale`, which they don't pass together.
pub fn column(
    alloc: Global,
    program: &Program,
    scale: u128,
    stores: Vec<(u64, u128)>,
) -> Result<Column, Mem>
    requires checked { IsChecked (program_tree program.now) }
    requires fits { Fits (shape_size program.now.shape) stores.items }
    requires some { 1 ≤ length stores.items }
    requires positive { All (λ e. 0 < e.1) stores.items }
    requires within { sum_of stores.items ≤ scale }
    requires narrow { scale ≤ limit }
    ensures weights { IfOk result (λ column. (x : ℕ)
        → weight_at column x ≡ sum_of (filter (λ e. target_number (program_tree program.now) e.0 == x) stores.items)) }
    ensures below { IfOk result (λ column. IsBelow (target_size (items_of program.now.target)) column) }
    ensures total { IfOk result (λ column. total column ≡ sum_of stores.items) }
    ensures column { IfOk result (λ column. IsColumn column) }
{
    projection_laws();
    let entries = entries_of(alloc, stores.as_slice())?;
    let mut columns = Vec::new(alloc);
    columns.push(gathered(entries))?;
    let joint = Columns::new(scale, ColumnList::new(columns));
    let about = project(alloc, &joint, &program.shape, &program.target_slots)?;
    let column = only_column(alloc, &about)?;
    Ok(column)
}

//! The table of a cleared program: its traces, each with the column of the stores behind it.

ghost use Rattle.std.specs.Prelude.{◌≡◌, ◌<◌, ◌≤◌, ◌==◌, All, filter, length, map, IfOk};
ghost use Rattle.kf_frac.specs.Fractions.{limit};
ghost use Rattle.kf_value.specs.Shapes.{shape_size};
ghost use Rattle.kf_value.specs.Numbers.{target_size};
ghost use Rattle.kf_value.specs.Views.{items_of};
ghost use Rattle.kf_core.specs.Checked.{IsChecked};
ghost use Rattle.kf_core.specs.Joint.{joint_of, target_number};
ghost use Rattle.kf_core.specs.Views.{program_tree};
ghost use Rattle.kf_core.specs.Rows.{AreRowsOf};
ghost use Rattle.kf_column.specs.Columns.{IsColumn, weight_at, total};
ghost use Rattle.kf_column.specs.Shapes.{IsBelow};
ghost use Rattle.kf_hyper.specs.Tables.{table_row};
ghost use Rattle.kf_hyper.specs.Views.{rows_of};
ghost use Rattle.kf_support.specs.Cleared.{program_of, turns_of, whole_scale};
ghost use Rattle.kf_traces.specs.Laws.{sum_of};
ghost use Rattle.kf_traces.specs.Views.{traced_of, AllFit};

use crate::columns::column;
use crate::laws::traced_laws;
use crate::states::State;
use crate::walks::walk_program;
use kf_core::{Program, run_laws};
use kf_hyper::{TraceRow, TraceRowList, TraceTable};
use kf_support::Cleared;
use kf_value::{Mem, ValueList};
use std::alloc::Global;

/// A row for each state: its trace, and the column of the stores behind it.
fn rows_for(
    alloc: Global,
    program: &Program,
    scale: u128,
    states: Vec<State>,
) -> Result<Vec<TraceRow>, Mem>
    requires checked { IsChecked (program_tree program.now) }
    requires fits { AllFit (shape_size program.now.shape) (map traced_of states.items) }
    requires some { All (λ s. 1 ≤ length s.stores) (map traced_of states.items) }
    requires positive { All (λ s. All (λ e. 0 < e.1) s.stores) (map traced_of states.items) }
    requires within { All (λ s. sum_of s.stores ≤ scale) (map traced_of states.items) }
    requires narrow { scale ≤ limit }
    ensures traces { IfOk result (λ rs. map (λ r. r.trace) (map table_row rs.items) ≡ map (λ s. s.trace) (map traced_of states.items)) }
    ensures weights { IfOk result (λ rs. map (λ r. weight_at r.column) (map table_row rs.items)
        ≡ map (λ s. λ x. sum_of (filter (λ e. target_number (program_tree program.now) e.0 == x) s.stores)) (map traced_of states.items)) }
    ensures totals { IfOk result (λ rs. map (λ r. total r.column) (map table_row rs.items) ≡ map (λ s. sum_of s.stores) (map traced_of states.items)) }
    ensures below { IfOk result (λ rs. All (λ r. IsBelow (target_size (items_of program.now.target)) r.column) (map table_row rs.items)) }
    ensures columns { IfOk result (λ rs. All (λ r. IsColumn r.column) (map table_row rs.items)) }
{
    let mut rows = Vec::new(alloc);
    for state in states {
        let column = column(alloc, program, scale, state.stores)?;
        rows.push(TraceRow {
            trace: ValueList::new(state.trace),
            column,
        })?;
    }
    Ok(rows)
}

/// The traces of a cleared program, ascending, each with the weights of the target's values behind it.
///
/// Weights are whole, over the program's scale, which is the table's and their sum. A trace that no run has is not
/// listed. Each trace is kept, however many there are. The one error is want of memory.
pub fn table(alloc: Global, c: &Cleared) -> Result<TraceTable, Mem>
    ensures rows { IfOk result (λ t. AreRowsOf (joint_of (turns_of c.now) (program_tree (program_of c.now))) (rows_of t)) }
    ensures scale { IfOk result (λ t. t.scale ≡ whole_scale c.now) }
    ensures target { IfOk result (λ t. items_of t.target ≡ items_of (program_of c.now).target) }
{
    run_laws();
    traced_laws();
    let states = walk_program(alloc, c)?;
    let rows = rows_for(alloc, c.program(), c.scale(), states)?;
    Ok(TraceTable {
        target: c.program().target.copy(alloc)?,
        scale: c.scale(),
        rows: TraceRowList::new(rows),
    })
}

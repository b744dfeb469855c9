//! How columns of stores begin: behind the declarations, with the carried copies set.

ghost use Rattle.std.specs.Prelude.{◌≡◌, ◌≤◌, ◌<◌, [], ◌∷◌, List, All, IfOk, IsOk};
ghost use Rattle.kf_frac.specs.Fractions.{limit};
ghost use Rattle.kf_value.specs.Shapes.{shape_size};
ghost use Rattle.kf_column.specs.declared.entry.Entry.{Entry};
ghost use Rattle.kf_column.specs.Shapes.{IsBelow};
ghost use Rattle.kf_core.specs.Checked.{IsChecked};
ghost use Rattle.kf_core.specs.Ready.{IsReady, IsStart};
ghost use Rattle.kf_core.specs.Scale.{scale_of};
ghost use Rattle.kf_core.specs.Support.{program_pass};
ghost use Rattle.kf_core.specs.Views.{program_tree};
ghost use Rattle.kf_support.specs.Cleared.{program_of, turns_of, whole_scale};

use crate::steps::{assign, copy};
use kf_core::{Program, choice_laws, run_laws};
use kf_hyper::{Column, ColumnList, Columns, Entry, EntryList};
use kf_support::Cleared;
use kf_value::Mem;
use std::alloc::Global;

/// The one column that has all weight on the first store.
fn first(alloc: Global, scale: u128) -> Result<Columns, Mem>
    requires some { 0 < scale }
    requires narrow { scale ≤ limit }
    ensures column { IfOk result (λ first. first.columns ≡ (record { value = 0; weight = scale } ∷ []) ∷ []) }
    ensures scale { IfOk result (λ first. first.scale ≡ scale) }
{
    let mut entries = Vec::new(alloc);
    entries.push(Entry {
        value: 0,
        weight: scale,
    })?;
    let mut columns = Vec::new(alloc);
    columns.push(Column::new(EntryList::new(entries)))?;
    Ok(Columns::new(scale, ColumnList::new(columns)))
}

/// The column behind the declarations of a program that meets no fault with so many turns, and has this scale.
fn begin(alloc: Global, program: &Program, turns: u32, scale: u128) -> Result<Columns, Mem>
    requires checked { IsChecked (program_tree program.now) }
    requires clear { IsOk (program_pass turns (program_tree program.now)) }
    requires scale_is { scale ≡ scale_of turns (program_tree program.now) }
    requires narrow { scale ≤ limit }
    ensures start { IfOk result (λ first. (column : List Entry) × (first.columns ≡ column ∷ []) × IsStart turns (program_tree program.now) column) }
    ensures scale { IfOk result (λ first. first.scale ≡ scale) }
    ensures below { IfOk result (λ first. All (IsBelow (shape_size program.now.shape)) first.columns) }
    ensures ready { IfOk result (λ first. IsReady (program_tree program.now).types turns (program_tree program.now).body first.columns) }
{
    choice_laws();
    run_laws();
    let decls = program.decls.as_slice();
    let mut now = first(alloc, scale)?;
    for (i, dist) in decls.iter().enumerate() {
        now = assign(alloc, &program.shape, i, dist, &now)?;
    }
    let start = copy(alloc, program, &now)?;
    Ok(start)
}

/// The one column of stores behind the declarations, with their carried copies set, over the program's scale.
pub fn start(alloc: Global, c: &Cleared) -> Result<Columns, Mem>
    ensures start { IfOk result (λ first. (column : List Entry) × (first.columns ≡ column ∷ []) × IsStart (turns_of c.now) (program_tree (program_of c.now)) column) }
    ensures scale { IfOk result (λ first. first.scale ≡ whole_scale c.now) }
    ensures below { IfOk result (λ first. All (IsBelow (shape_size (program_of c.now).shape)) first.columns) }
    ensures ready { IfOk result (λ first. IsReady (program_tree (program_of c.now)).types (turns_of c.now) (program_tree (program_of c.now)).body first.columns) }
{
    begin(alloc, c.program(), c.turns(), c.scale())
}

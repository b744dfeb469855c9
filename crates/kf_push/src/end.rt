//! Columns of stores as the hyper about a program's target.

ghost use Rattle.std.specs.Prelude.{◌≡◌, ◌≤◌, All, IfOk};
ghost use Rattle.kf_value.specs.Shapes.{shape_size};
ghost use Rattle.kf_column.specs.Columns.{IsColumn};
ghost use Rattle.kf_column.specs.Joint.{mass};
ghost use Rattle.kf_column.specs.Shapes.{IsBelow};
ghost use Rattle.kf_hyper.specs.Views.{inners_of, scale_of, target_of};
ghost use Rattle.kf_core.specs.Checked.{IsChecked};
ghost use Rattle.kf_core.specs.Views.{program_tree};
ghost use Rattle.kf_push.specs.Meanings.{IsFinished};

use kf_column::projection_laws;
use kf_core::Program;
use kf_hyper::{Columns, Hyper, abstract_columns, project};
use kf_value::Mem;
use std::alloc::Global;

/// That each of them is a column, as its own type promises. It goes through them, and changes nothing.
pub fn are_columns(columns: &Columns)
    ensures are { All IsColumn columns.now.columns }
    ensures fits { mass columns.now.columns ≤ columns.now.scale }
{
    for column in columns.columns().as_slice() {
        column.is_column();
    }
}

/// The hyper of columns of stores that have all weight, about the program's target.
pub fn about_target(alloc: Global, program: &Program, columns: &Columns) -> Result<Hyper, Mem>
    requires checked { IsChecked (program_tree program.now) }
    requires below { All (IsBelow (shape_size program.now.shape)) columns.now.columns }
    requires mass { mass columns.now.columns ≡ columns.now.scale }
    ensures hyper { IfOk result (λ h. IsFinished (program_tree program.now) columns.now.columns (inners_of h)) }
    ensures scale { IfOk result (λ h. scale_of h ≡ columns.now.scale) }
    ensures target { IfOk result (λ h. target_of h ≡ (program_tree program.now).target) }
{
    projection_laws();
    are_columns(columns);
    let about = project(alloc, columns, &program.shape, &program.target_slots)?;
    are_columns(&about);
    let target = program.target.copy(alloc)?;
    let hyper = abstract_columns(alloc, target, about)?;
    Ok(hyper)
}

//! A program as columns of stores pushed through its outermost statements.

ghost use Rattle.std.specs.Prelude.{◌≡◌, ◌≤◌, [], ◌∷◌, List, All, length, take, drop, IfOk};
ghost use Rattle.kf_column.specs.declared.entry.Entry.{Entry};
ghost use Rattle.kf_column.specs.Joint.{mass};
ghost use Rattle.kf_column.specs.Shapes.{IsBelow};
ghost use Rattle.kf_core.specs.Ready.{IsPushed, IsReady, IsStart};
ghost use Rattle.kf_core.specs.Views.{program_tree};
ghost use Rattle.kf_push.specs.Meanings.{Meaning, IsMeaning, runs_between, store_count};

use kf_core::Program;
use kf_hyper::Columns;
use kf_value::Mem;
use std::alloc::Global;

/// A program, by what any of its outermost statements make of columns of stores. All columns are over its scale.
pub trait Pusher {
    /// The program, the turns that a loop may have, and the scale of all runs.
    ghost meaning: { Self → Meaning };

    fn program(&self) -> &Program
        ensures program { program_tree result.now ≡ (meaning self.now).program }
        ensures meaning { IsMeaning (meaning self.now) };

    /// What every weight is divided by to give a probability.
    fn scale(&self) -> u128
        ensures { result ≡ (meaning self.now).scale };

    /// The one column of stores behind the declarations, with their carried copies set.
    fn start(&self, alloc: Global) -> Result<Columns, Mem>
        ensures start { IfOk result (λ first. (column : List Entry) × (first.columns ≡ column ∷ []) × IsStart (meaning self.now).turns (meaning self.now).program column) }
        ensures scale { IfOk result (λ first. first.scale ≡ (meaning self.now).scale) }
        ensures below { IfOk result (λ first. All (IsBelow (store_count (meaning self.now))) first.columns) }
        ensures mass { IfOk result (λ first. mass first.columns ≡ (meaning self.now).scale) }
        ensures ready { IfOk result (λ first. IsReady (meaning self.now).program.types (meaning self.now).turns (meaning self.now).program.body first.columns) };

    /// What the columns become in the outermost statements from the one at `from` on, counted from 0, up to but not with the one at
    /// `to`, with those of one posterior added up.
    fn push(&self, alloc: Global, from: usize, to: usize, columns: &Columns) -> Result<Columns, Mem>
        requires order { from ≤ to }
        requires within { to ≤ length (meaning self.now).program.body }
        requires scale { columns.now.scale ≡ (meaning self.now).scale }
        requires below { All (IsBelow (store_count (meaning self.now))) columns.now.columns }
        requires ready { IsReady (meaning self.now).program.types (meaning self.now).turns (drop from (meaning self.now).program.body) columns.now.columns }
        ensures pushed { IfOk result (λ after. IsPushed (runs_between (meaning self.now) from to) columns.now.columns after.columns) }
        ensures scale { IfOk result (λ after. after.scale ≡ (meaning self.now).scale) }
        ensures below { IfOk result (λ after. All (IsBelow (store_count (meaning self.now))) after.columns) }
        ensures mass { IfOk result (λ after. mass after.columns ≡ mass columns.now.columns) }
        ensures ready { IfOk result (λ after. IsReady (meaning self.now).program.types (meaning self.now).turns (drop to (meaning self.now).program.body) after.columns) };
}

//! A program as its stages, and its hyper told by them alone.

ghost use Rattle.std.specs.Prelude.{◌≡◌, ◌≤◌, ◌<◌, ◌+◌, [], ◌∷◌, List, All, length, take, drop, map, IfOk, IsOk};
ghost use Rattle.kf_frac.specs.Fractions.{limit};
ghost use Rattle.kf_value.specs.Types.{count as size_of_type, product};
ghost use Rattle.kf_column.specs.declared.entry.Entry.{Entry};
ghost use Rattle.kf_column.specs.Joint.{mass};
ghost use Rattle.kf_column.specs.Shapes.{IsBelow};
ghost use Rattle.kf_hyper.specs.Views.{inners_of, scale_of, target_of};
ghost use Rattle.kf_core.specs.Joint.{joint_of};
ghost use Rattle.kf_core.specs.Pushing.{IsTrail};
ghost use Rattle.kf_core.specs.Ready.{IsPushed, IsReady, IsStart};
ghost use Rattle.kf_core.specs.Rows.{IsHyperOf};
ghost use Rattle.kf_core.specs.Runs.{all_runs};
ghost use Rattle.kf_core.specs.Sts.{sts};
ghost use Rattle.kf_core.specs.Views.{program_tree};
ghost use Rattle.kf_push.specs.Meanings.{Meaning, IsMeaning, AreApart, IsFinished, runs_between, store_count};

use kf_core::{choice_laws, run_laws};
use kf_hyper::{Columns, CountList, Hyper};
use kf_value::Mem;
use std::alloc::Global;

/// A program as the list of its outermost statements, by what they make of columns of stores.
///
/// It hands out no statement and no trace. All columns are over its scale. What is passed through a statement has no two columns in
/// proportion and all weight, so whoever stands on this carries no more past an outermost statement than one column for each posterior.
pub trait Stages {
    /// The program, the turns that a loop may have, and the scale of all runs.
    ghost meaning: { Self → Meaning };

    /// How many outermost statements there are.
    fn count(&self) -> usize
        ensures count { result ≡ length (meaning self.now).program.body }
        ensures meaning { IsMeaning (meaning self.now) };

    /// The one column of stores behind the declarations, with their carried copies set.
    fn start(&self, alloc: Global) -> Result<Columns, Mem>
        ensures start { IfOk result (λ first. (column : List Entry) × (first.columns ≡ column ∷ []) × IsStart (meaning self.now).turns (meaning self.now).program column) }
        ensures scale { IfOk result (λ first. first.scale ≡ (meaning self.now).scale) }
        ensures below { IfOk result (λ first. All (IsBelow (store_count (meaning self.now))) first.columns) }
        ensures mass { IfOk result (λ first. mass first.columns ≡ (meaning self.now).scale) }
        ensures ready { IfOk result (λ first. IsReady (meaning self.now).program.types (meaning self.now).turns (meaning self.now).program.body first.columns) };

    /// What the columns become in the outermost statement `at`, from 0, with those of one posterior added up. It takes columns of
    /// which no two are in proportion, and which sum to the scale.
    fn pass(&self, alloc: Global, at: usize, columns: &Columns) -> Result<Columns, Mem>
        requires within { at < length (meaning self.now).program.body }
        requires scale { columns.now.scale ≡ (meaning self.now).scale }
        requires below { All (IsBelow (store_count (meaning self.now))) columns.now.columns }
        requires apart { AreApart columns.now.columns }
        requires mass { mass columns.now.columns ≡ (meaning self.now).scale }
        requires ready { IsReady (meaning self.now).program.types (meaning self.now).turns (drop at (meaning self.now).program.body) columns.now.columns }
        ensures pushed { IfOk result (λ after. IsPushed (runs_between (meaning self.now) at (at + 1)) columns.now.columns after.columns) }
        ensures scale { IfOk result (λ after. after.scale ≡ (meaning self.now).scale) }
        ensures below { IfOk result (λ after. All (IsBelow (store_count (meaning self.now))) after.columns) }
        ensures mass { IfOk result (λ after. mass after.columns ≡ (meaning self.now).scale) }
        ensures ready { IfOk result (λ after. IsReady (meaning self.now).program.types (meaning self.now).turns (drop (at + 1) (meaning self.now).program.body) after.columns) };

    /// The hyper of the columns, about the program's target.
    fn finish(&self, alloc: Global, columns: &Columns) -> Result<Hyper, Mem>
        requires scale { columns.now.scale ≡ (meaning self.now).scale }
        requires below { All (IsBelow (store_count (meaning self.now))) columns.now.columns }
        requires mass { mass columns.now.columns ≡ (meaning self.now).scale }
        ensures hyper { IfOk result (λ h. IsFinished (meaning self.now).program columns.now.columns (inners_of h)) }
        ensures scale { IfOk result (λ h. scale_of h ≡ (meaning self.now).scale) }
        ensures target { IfOk result (λ h. target_of h ≡ (meaning self.now).program.target) };
}

/// The hyper of a program, got by carrying merged columns of stores through its outermost statements, one after the other.
pub fn hyper_of<S: Stages>(alloc: Global, s: &S) -> Result<Hyper, Mem>
    ensures hyper { IfOk result (λ h. IsHyperOf (joint_of (S.meaning s.now).turns (S.meaning s.now).program) (inners_of h)) }
    ensures scale { IfOk result (λ h. scale_of h ≡ (S.meaning s.now).scale) }
    ensures target { IfOk result (λ h. target_of h ≡ (S.meaning s.now).program.target) }
{
    choice_laws();
    run_laws();
    let count = s.count();
    let mut columns = s.start(alloc)?;
    for at in 0..count {
        columns = s.pass(alloc, at, &columns)?;
    }
    let hyper = s.finish(alloc, &columns)?;
    Ok(hyper)
}

/// How many columns there are.
fn number_of(columns: &Columns) -> u64
    ensures { result ≡ length columns.now.columns }
{
    columns.columns().as_slice().len() as u64
}

/// How many classes of proportional columns of whole stores, carried copies among the variables, stand behind the
/// declarations and behind each outermost statement.
pub fn trail<S: Stages>(alloc: Global, s: &S) -> Result<CountList, Mem>
    ensures { IfOk result (λ counts. IsTrail (S.meaning s.now).turns (S.meaning s.now).program counts) }
{
    choice_laws();
    run_laws();
    let mut counts = Vec::new(alloc);
    let start = s.start(alloc)?;
    counts.push(number_of(&start))?;
    let mut now = start;
    for at in 0..s.count() {
        now = s.pass(alloc, at, &now)?;
        counts.push(number_of(&now))?;
    }
    Ok(CountList::new(counts))
}

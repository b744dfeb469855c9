//! The columns of a program before one of its outermost statements, and the hyper where one statement within it is silent.

ghost use Rattle.std.specs.Prelude.{◌≡◌, ◌<◌, ◌+◌, ◌∷◌, List, length, IfOk, OnOk};
ghost use Rattle.kf_column.specs.declared.entry.Entry.{Entry};
ghost use Rattle.kf_hyper.specs.Views.{inners_of, scale_of, target_of};
ghost use Rattle.kf_core.specs.Rows.{IsHyperOf};
ghost use Rattle.kf_core.specs.Views.{program_tree};
ghost use Rattle.kf_support.specs.Cleared.{program_of, turns_of, whole_scale};
ghost use Rattle.kf_silent.specs.Silent.{silent_joint};
ghost use Rattle.kf_silent.specs.Paths.{only};
ghost use Rattle.kf_push.specs.Meanings.{IsMeaning};
ghost use Rattle.kf_run.specs.Before.{IsBefore, cleared_before, meant, place_before};
ghost use Rattle.kf_run.specs.Behind.{Behind};

use crate::pushes::{push_all, push_one};
use crate::stages::Stages;
use kf_core::{Program, choice_laws, run_laws};
use kf_hyper::{Columns, Hyper};
use kf_push::about_target;
use kf_support::Cleared;
use kf_value::Mem;
use std::alloc::Global;

/// The hyper of a program in which this statement within the outermost one at `at` is silent, from the columns before that one.
fn hyper_where(
    alloc: Global,
    program: &Program,
    turns: u32,
    at: usize,
    path: &[usize],
    columns: &Columns,
) -> Result<Hyper, Mem>
    requires meaning { IsMeaning (meant program.now turns columns.now) }
    requires behind { (column : List Entry) × Behind (meant program.now turns columns.now) at column columns.now }
    requires within { at < length (program_tree program.now).body }
    ensures hyper { IfOk result (λ h. IsHyperOf (silent_joint (only (at ∷ path.now)) turns (program_tree program.now)) (inners_of h)) }
    ensures scale { IfOk result (λ h. scale_of h ≡ columns.now.scale) }
    ensures target { IfOk result (λ h. target_of h ≡ (program_tree program.now).target) }
{
    choice_laws();
    run_laws();
    let statements = program.body.as_slice();
    let statement = &statements[at];
    let silenced = push_one(alloc, &program.shape, turns, statement, Some(path), columns)?;
    let after = push_all(
        alloc,
        &program.shape,
        turns,
        &statements[at + 1..],
        None,
        silenced,
    )?;
    let hyper = about_target(alloc, program, &after)?;
    Ok(hyper)
}

/// The columns of a cleared program before one of its outermost statements, which all lines within that statement begin with.
#[derive(Drop)]
pub struct Before<'a> {
    cleared: &'a Cleared,
    at: usize,
    columns: Columns,
}

impl<'a> Before<'a> {
    /// The columns before the first statement.
    pub fn first(alloc: Global, cleared: &'a Cleared) -> Result<Before<'a>, Mem>
        ensures before { IfOk result (λ b. IsBefore b) }
        ensures cleared { IfOk result (λ b. cleared_before b ≡ cleared.now) }
        ensures place { IfOk result (λ b. place_before b ≡ 0) }
    {
        let columns = cleared.start(alloc)?;
        Ok(Before {
            cleared,
            at: 0,
            columns,
        })
    }

    /// Goes on to the next statement.
    pub fn next(&mut self, alloc: Global) -> Result<(), Mem>
        requires before { IsBefore self.old }
        requires within { place_before self.old < length (program_tree (program_of (cleared_before self.old))).body }
        ensures before { OnOk result (IsBefore self.new) }
        ensures cleared { cleared_before self.new ≡ cleared_before self.old }
        ensures place { OnOk result (place_before self.new ≡ place_before self.old + 1) }
    {
        choice_laws();
        run_laws();
        let count = self.cleared.count();
        let after = self.cleared.pass(alloc, self.at, &self.columns)?;
        self.columns = after;
        self.at += 1;
        Ok(())
    }

    /// The hyper of the program in which one statement shows nothing: the one that this path names within the statement at hand. The
    /// empty path names that statement itself; then come the number of a block, 0 or for `else` 1, the place of a statement in it,
    /// from 0, and so on. A path that names no statement leaves the program as it is.
    pub fn hyper_without(&self, alloc: Global, path: &[usize]) -> Result<Hyper, Mem>
        requires before { IsBefore self.now }
        requires within { place_before self.now < length (program_tree (program_of (cleared_before self.now))).body }
        ensures hyper { IfOk result (λ h. IsHyperOf (silent_joint (only (place_before self.now ∷ path.now)) (turns_of (cleared_before self.now)) (program_tree (program_of (cleared_before self.now)))) (inners_of h)) }
        ensures scale { IfOk result (λ h. scale_of h ≡ whole_scale (cleared_before self.now)) }
        ensures target { IfOk result (λ h. target_of h ≡ (program_tree (program_of (cleared_before self.now))).target) }
    {
        let program = self.cleared.program();
        let hyper = hyper_where(
            alloc,
            program,
            self.cleared.turns(),
            self.at,
            path,
            &self.columns,
        )?;
        Ok(hyper)
    }
}

//! A cleared program, by what any of its outermost statements make of columns.

ghost use Rattle.std.specs.Prelude.{◌≡◌};
ghost use Rattle.kf_core.specs.Views.{program_tree};
ghost use Rattle.kf_support.specs.Cleared.{program_of, turns_of, whole_scale};
ghost use Rattle.kf_run.specs.Pushings.{cleared_of, owned_by};

use crate::first_columns::start;
use crate::pushes::push;
use kf_core::{Program, choice_laws, run_laws};
use kf_hyper::Columns;
use kf_push::{Pusher, are_columns};
use kf_support::Cleared;
use kf_value::Mem;
use std::alloc::Global;

/// A cleared program that columns can be pushed through.
#[derive(Drop)]
pub struct Pushing {
    cleared: Cleared,
}

/// A borrowed cleared program that columns can be pushed through.
#[derive(Drop)]
pub struct PushingRef<'a> {
    cleared: &'a Cleared,
}

impl Pushing {
    /// It means what the cleared program means: the program with its turns and its scale.
    pub fn new(cleared: Cleared) -> Pushing
        ensures { owned_by result ≡ cleared }
    {
        Pushing { cleared }
    }
}

impl<'a> PushingRef<'a> {
    /// It means what the cleared program means: the program with its turns and its scale.
    pub fn new(cleared: &'a Cleared) -> PushingRef<'a>
        ensures { cleared_of result ≡ cleared.now }
    {
        PushingRef { cleared }
    }
}

impl Pusher for Pushing {
    ghost meaning = { λ p. record {
      program = program_tree (program_of (owned_by p));
      turns = turns_of (owned_by p);
      scale = whole_scale (owned_by p);
    } };

    fn program(&self) -> &Program {
        self.cleared.program()
    }

    fn scale(&self) -> u128 {
        self.cleared.scale()
    }

    fn start(&self, alloc: Global) -> Result<Columns, Mem> {
        let lent = PushingRef {
            cleared: &self.cleared,
        };
        lent.start(alloc)
    }

    fn push(
        &self,
        alloc: Global,
        from: usize,
        to: usize,
        columns: &Columns,
    ) -> Result<Columns, Mem> {
        let lent = PushingRef {
            cleared: &self.cleared,
        };
        lent.push(alloc, from, to, columns)
    }
}

impl Pusher for PushingRef<'_> {
    ghost meaning = { λ p. record {
      program = program_tree (program_of (cleared_of p));
      turns = turns_of (cleared_of p);
      scale = whole_scale (cleared_of p);
    } };

    fn program(&self) -> &Program {
        self.cleared.program()
    }

    fn scale(&self) -> u128 {
        self.cleared.scale()
    }

    fn start(&self, alloc: Global) -> Result<Columns, Mem> {
        choice_laws();
        run_laws();
        let columns = start(alloc, self.cleared)?;
        Ok(columns)
    }

    fn push(
        &self,
        alloc: Global,
        from: usize,
        to: usize,
        columns: &Columns,
    ) -> Result<Columns, Mem> {
        run_laws();
        are_columns(columns);
        let after = push(alloc, self.cleared, from, to, columns)?;
        Ok(after)
    }
}

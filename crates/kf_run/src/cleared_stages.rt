//! The stages of a cleared program: its own statements, one at a time.

ghost use Rattle.kf_core.specs.Views.{program_tree};
ghost use Rattle.kf_support.specs.Cleared.{program_of, turns_of, whole_scale};

use crate::first_columns::start;
use crate::pushes::push_at;
use crate::stages::Stages;
use kf_core::{choice_laws, run_laws};
use kf_hyper::{Columns, Hyper};
use kf_push::{about_target, are_columns};
use kf_support::Cleared;
use kf_value::Mem;
use std::alloc::Global;

impl Stages for Cleared {
    ghost meaning = { λ c. record { program = program_tree (program_of c); turns = turns_of c; scale = whole_scale c } };

    fn count(&self) -> usize {
        self.program().body.as_slice().len()
    }

    fn start(&self, alloc: Global) -> Result<Columns, Mem> {
        choice_laws();
        run_laws();
        let columns = start(alloc, self)?;
        Ok(columns)
    }

    fn pass(&self, alloc: Global, at: usize, columns: &Columns) -> Result<Columns, Mem> {
        run_laws();
        are_columns(columns);
        let after = push_at(alloc, self, at, columns)?;
        Ok(after)
    }

    fn finish(&self, alloc: Global, columns: &Columns) -> Result<Hyper, Mem> {
        let hyper = about_target(alloc, self.program(), columns)?;
        Ok(hyper)
    }
}

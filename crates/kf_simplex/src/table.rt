ghost use Rattle.std.specs.Prelude.{◌≡◌, ℕ, ◌+◌, ◌-◌, ◌<◌, length, pos, slice_set, ℤ, IsTrue, IfOk, ◌↔◌};
ghost use Rattle.kf_simplex.specs.Cells.{AllNarrow, PassesRows, IsFirstDifference, key_at, IsLeaving, IsEntering};
ghost use Rattle.kf_simplex.specs.Systems.{IsSystem};
ghost use Rattle.kf_simplex.specs.Runs.{Ends};
ghost use Rattle.kf_simplex.specs.Flat.{IsWithin, cell, tableau_of};
ghost use Rattle.kf_simplex.specs.Turns.{InRun, IsEnd, IsInside, Judges, cause_of, system};

use crate::row::{Row, number_at};
use crate::rows::{are_all_narrow, key_order, reduce_rows};
use std::alloc::{AllocError, Global};
use std::cmp::Ordering;

// Why a run ends.
#[derive(Clone, Copy)]
pub(crate) enum Stop {
    Wide,
    Solution,
    Multipliers,
    Budget,
}

// How a run ended, and after how many pivots.
#[derive(Clone, Copy)]
pub(crate) struct Ending {
    pub stop: Stop,
    pub pivots: u32,
}

// What the next turn of a run does.
#[derive(Clone, Copy)]
pub(crate) enum Turn {
    Ends(Stop),
    Pivot { row: usize, column: usize },
}

// The tableau of a basis: the rows of the equations, then the objective's. A row has the unknowns, the
// artificials and the right side.
#[derive(Drop)]
pub(crate) struct Table {
    pub(crate) unknowns: usize,
    pub(crate) equations: usize,
    pub(crate) rows: Vec<Row>,
    pub(crate) basis: Vec<usize>,
    ghost rows_len: { length rows.items ≡ equations + 1 },
    ghost basis_len: { length basis.items ≡ equations },
    ghost small: { unknowns + equations < 4000001 },
}

impl Table {
    // Goes from basis to basis until the run ends.
    pub(crate) fn run(&mut self, alloc: Global, limit: u32) -> Result<Ending, AllocError>
        requires { IsWithin (self.old.unknowns + self.old.equations) (cell self.old.rows.items) }
        ensures shape { IfOk result (λ ending. (self.new.unknowns ≡ self.old.unknowns) × (self.new.equations ≡ self.old.equations)) }
        ensures within { IfOk result (λ ending. IsWithin (self.old.unknowns + self.old.equations) (cell self.new.rows.items)) }
        ensures runs { IfOk result (λ ending. (number : ℕ → ℕ → ℤ) → let s = system self.old.unknowns self.old.equations number in
            IsSystem s → InRun s limit 0 (cell self.old.rows.items) self.old.basis.items → InRun s limit ending.pivots (cell self.new.rows.items) self.new.basis.items) }
        ensures ends { IfOk result (λ ending. (number : ℕ → ℕ → ℤ) → let s = system self.old.unknowns self.old.equations number in
            IsSystem s → InRun s limit 0 (cell self.old.rows.items) self.old.basis.items
            → Ends s limit ending.pivots (tableau_of s (cell self.new.rows.items) self.new.basis.items) (cause_of ending.stop)) }
    {
        let mut narrow = are_all_narrow(&self.rows);
        let mut pivots = 0;
        loop {
            match self.turn(narrow, limit, pivots) {
                Turn::Ends(stop) => return Ok(Ending { stop, pivots }),
                Turn::Pivot { row, column } => narrow = self.pivot(alloc, row, column)?,
            }
            pivots += 1;
        }
    }

    // The first cause that applies to the tableau, or the next pivot.
    fn turn(&self, narrow: bool, limit: u32, made: u32) -> Turn
        requires within { IsWithin (self.now.unknowns + self.now.equations) (cell self.now.rows.items) }
        requires narrow { IsTrue narrow ↔ ((i : ℕ) → AllNarrow (cell self.now.rows.items i)) }
        ensures judges { (number : ℕ → ℕ → ℤ) → let s = system self.now.unknowns self.now.equations number in
            IsSystem s → InRun s limit made (cell self.now.rows.items) self.now.basis.items
            → Judges s limit made (tableau_of s (cell self.now.rows.items) self.now.basis.items) result }
        ensures inside { IsInside self.now.unknowns self.now.equations (cell self.now.rows.items) result }
        ensures goes_on { made ≡ limit → IsEnd result }
    {
        if !narrow {
            return Turn::Ends(Stop::Wide);
        }
        if self.objective_right() == 0 {
            return Turn::Ends(Stop::Solution);
        }
        let Some(column) = self.entering() else {
            return Turn::Ends(Stop::Multipliers);
        };
        if made == limit {
            return Turn::Ends(Stop::Budget);
        }
        match self.leaving(column) {
            Some(row) => Turn::Pivot { row, column },
            // Some row has a positive entry in the column.
            None => Turn::Ends(Stop::Budget),
        }
    }

    // Makes column `c` 0 in all rows but row `r`, and puts it into the basis. Whether all rows are narrow now.
    fn pivot(&mut self, alloc: Global, r: usize, c: usize) -> Result<bool, AllocError>
        requires row { r < self.old.equations }
        requires column { c < self.old.unknowns }
        requires narrow { (i : ℕ) → AllNarrow (cell self.old.rows.items i) }
        ensures shape { IfOk result (λ narrow. (self.new.unknowns ≡ self.old.unknowns) × (self.new.equations ≡ self.old.equations)) }
        ensures rows { IfOk result (λ narrow. PassesRows (cell self.old.rows.items) (cell self.new.rows.items) r c (self.old.equations + 1)) }
        ensures basis { IfOk result (λ narrow. self.new.basis.items ≡ slice_set self.old.basis.items r c) }
        ensures narrow { IfOk result (λ narrow. IsTrue narrow ↔ ((i : ℕ) → AllNarrow (cell self.new.rows.items i))) }
    {
        let narrow = reduce_rows(alloc, &mut self.rows, r, c)?;
        self.basis[r] = c;
        Ok(narrow)
    }

    // The row with the least deciding list over its entry at column `c`, among those with a positive one.
    fn leaving(&self, c: usize) -> Option<usize>
        requires { (i : ℕ) → AllNarrow (cell self.now.rows.items i) }
        ensures { IsLeaving (cell self.now.rows.items) (self.now.unknowns + self.now.equations + 1) self.now.unknowns c self.now.equations result }
    {
        let mut best = None;
        for i in 0..self.equations {
            if number_at(&self.rows[i], c) > 0 {
                best = match best {
                    None => Some(i),
                    Some(r) => match self.row_order(i, r, c) {
                        Ordering::Less => Some(i),
                        _ => Some(r),
                    },
                };
            }
        }
        best
    }

    // How the deciding list of row `i`, over its entry at column `c`, lies to that of row `r`.
    fn row_order(&self, i: usize, r: usize, c: usize) -> Ordering
        requires i { i < self.now.equations }
        requires r { r < self.now.equations }
        requires narrow { (i : ℕ) → AllNarrow (cell self.now.rows.items i) }
        ensures { let w = self.now.unknowns + self.now.equations + 1 in
            IsFirstDifference (key_at (cell self.now.rows.items) w self.now.unknowns c i r) (key_at (cell self.now.rows.items) w self.now.unknowns c r i) (w - self.now.unknowns) result }
    {
        key_order(
            &self.rows[i],
            &self.rows[r],
            self.unknowns,
            self.unknowns + self.equations,
            c,
        )
    }

    // The first unknown with a positive entry in the objective row.
    fn entering(&self) -> Option<usize>
        ensures { IsEntering (cell self.now.rows.items self.now.equations) self.now.unknowns result }
    {
        for e in self.rows[self.equations].entries.as_slice() {
            if e.number > 0 {
                return if e.column < self.unknowns {
                    Some(e.column)
                } else {
                    None
                };
            }
        }
        None
    }

    // The objective row's right side.
    fn objective_right(&self) -> i128
        ensures { result ≡ cell self.now.rows.items self.now.equations (self.now.unknowns + self.now.equations) }
    {
        number_at(&self.rows[self.equations], self.unknowns + self.equations)
    }
}

ghost use Rattle.std.specs.Prelude.{◌≡◌, ◌≢◌, ◌+◌, ◌*◌, ◌≤◌, length, IfOk, Err};
ghost use Rattle.kf_simplex.specs.Answers.{IsAnswer};
ghost use Rattle.kf_simplex.specs.Laws.{ways};
ghost use Rattle.kf_simplex.specs.Views.{linear, sparse};
ghost use Rattle.kf_simplex.specs.Solutions.{IsRight};

use crate::building::first_table;
use crate::conversion::sparse_of;
use crate::table::Stop;
use crate::{Outcome, SimplexError, SparseSystem, System};
use std::alloc::Global;

/// Decides whether the system has a solution without negative entries, within so many pivots.
pub fn solve(alloc: Global, s: &System, pivots: u32) -> Result<Outcome, SimplexError>
    requires { (length s.now.rows + 1) * (s.now.unknowns + length s.now.rows + 1) ≤ 4000000 }
    ensures run { IsAnswer (linear s.now) pivots result }
    ensures right { IfOk result (λ outcome. IsRight (linear s.now) outcome) }
    ensures enough { ways (s.now.unknowns + length s.now.rows) (length s.now.rows) ≤ pivots → result ≢ Err SimplexError.Budget }
{
    let system = sparse_of(alloc, s)?;
    solve_sparse(alloc, system, pivots)
}

/// The same of a system whose equations have few coefficients each.
pub fn solve_sparse(alloc: Global, s: SparseSystem, pivots: u32) -> Result<Outcome, SimplexError>
    requires { (length s.rows.items + 1) * (s.unknowns + length s.rows.items + 1) ≤ 4000000 }
    ensures run { IsAnswer (sparse s) pivots result }
    ensures right { IfOk result (λ outcome. IsRight (sparse s) outcome) }
    ensures enough { ways (s.unknowns + length s.rows.items) (length s.rows.items) ≤ pivots → result ≢ Err SimplexError.Budget }
{
    let mut table = first_table(alloc, s)?;
    let ending = table.run(alloc, pivots)?;
    match ending.stop {
        Stop::Wide => Err(SimplexError::Wide {
            pivots: ending.pivots,
        }),
        Stop::Budget => Err(SimplexError::Budget),
        Stop::Solution => Ok(Outcome::Solution(table.solution(alloc)?)),
        Stop::Multipliers => Ok(Outcome::Multipliers(table.multipliers(alloc)?)),
    }
}

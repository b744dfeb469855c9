//! The columns before one of a program's outermost statements.

ghost use Rattle.std.specs.Prelude.{◌≡◌, ◌≤◌, length, IfOk, OnOk};
ghost use Rattle.kf_quiet.specs.Standing.{StandsBefore};

use kf_core::{choice_laws, run_laws};
use kf_hyper::Columns;
use kf_push::Pusher;
use kf_value::Mem;
use std::alloc::Global;

/// The columns before the outermost statement `at`, counted from 0, or behind the last.
#[derive(Drop)]
pub struct Before {
    pub at: usize,
    pub columns: Columns,
}

/// The columns before the first statement.
pub fn first_before<P: Pusher>(alloc: Global, p: &P) -> Result<Before, Mem>
    ensures place { IfOk result (λ b. b.at ≡ 0) }
    ensures stands { IfOk result (λ b. StandsBefore (P.meaning p.now) 0 b.columns) }
{
    let columns = p.start(alloc)?;
    Ok(Before { at: 0, columns })
}

/// Pushes the columns on to those before the statement `to`, or behind the last.
pub fn bring<P: Pusher>(alloc: Global, p: &P, before: &mut Before, to: usize) -> Result<(), Mem>
    requires order { before.old.at ≤ to }
    requires within { to ≤ length (P.meaning p.now).program.body }
    requires stands { StandsBefore (P.meaning p.now) before.old.at before.old.columns }
    ensures place { OnOk result (before.new.at ≡ to) }
    ensures stands { OnOk result (StandsBefore (P.meaning p.now) before.new.at before.new.columns) }
{
    choice_laws();
    run_laws();
    p.program();
    if before.at == to {
        return Ok(());
    }
    let after = p.push(alloc, before.at, to, &before.columns)?;
    before.columns = after;
    before.at = to;
    Ok(())
}

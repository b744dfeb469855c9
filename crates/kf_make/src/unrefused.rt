//! The program of the made text, cleared.

ghost use Rattle.std.specs.Prelude.{◌≡◌, ◌≤◌, ℕ, IfOk};
ghost use Rattle.kf_core.specs.Views.{program_tree};
ghost use Rattle.kf_load.specs.Stops.{IsProper};
ghost use Rattle.kf_support.specs.Cleared.{program_of, turns_of};
ghost use Rattle.kf_make.specs.Made.{made_program};

use crate::laws::made_laws;
use crate::source::make_source;
use kf_check::type_laws;
use kf_lex::one_reading;
use kf_load::{Stop, Text, cleared_text, text_of_bytes};
use kf_parse::{grammar, refusals};
use kf_support::Cleared;
use kf_value::Mem;
use std::alloc::Global;

// The made text, typed. It stands in no file.
fn typed(alloc: Global, count: u32) -> Result<Text, Mem>
    requires few { count ≤ 60 }
    ensures program { IfOk result (λ text. program_tree text.program ≡ made_program count) }
    ensures proper { IfOk result IsProper }
{
    made_laws();
    one_reading();
    grammar();
    refusals();
    type_laws();
    let bytes = make_source(alloc, count)?;
    match text_of_bytes(alloc, "", bytes) {
        Ok(text) => Ok(text),
        Err(Stop::Mem) => Err(Mem),
        Err(Stop::Refused(_)) => unreachable!(),
    }
}

/// The program of the text of `count` noisy observations, 60 at most, cleared: it meets no fault, however often a loop may turn.
///
/// The one error is want of memory.
pub fn made(alloc: Global, count: u32, turns: u32) -> Result<Cleared, Mem>
    requires few { count ≤ 60 }
    requires some_turns { 1 ≤ turns }
    requires few_turns { turns ≤ 65535 }
    ensures program { IfOk result (λ c. program_tree (program_of c) ≡ made_program count) }
    ensures turns { IfOk result (λ c. turns_of c ≡ turns) }
{
    made_laws();
    let Text { bytes, program, .. } = typed(alloc, count)?;
    match cleared_text(alloc, "", &bytes, program, turns) {
        Ok(cleared) => Ok(cleared),
        Err(Stop::Mem) => Err(Mem),
        Err(Stop::Refused(_)) => unreachable!(),
    }
}

ghost use Rattle.std.specs.Prelude.{◌≡◌, ◌<◌, ◌≤◌, ℕ, Err, IfOk, IsOk};
ghost use Rattle.kf_frac.specs.Fractions.{limit};
ghost use Rattle.kf_core.specs.Checked.{IsChecked};
ghost use Rattle.kf_core.specs.Views.{program_tree};
ghost use Rattle.kf_core.specs.Scale.{scale_of};
ghost use Rattle.kf_core.specs.Support.{program_pass};
ghost use Rattle.kf_support.specs.Answers.{halted};
ghost use Rattle.kf_support.specs.Cleared.{program_of, turns_of};
ghost use Rattle.kf_support.specs.declared.faults.RunFault.{RunFault};

use crate::cleared::Cleared;
use crate::faults::Halt;
use crate::laws::carry_laws;
use crate::passes::pass_program;
use crate::ways::{PASSED, scale_in};
use kf_core::Program;
use std::alloc::Global;

/// Follows all stores of a checked program to their ends, where each loop has at most `turns` turns, 1 to 65,535.
///
/// Its first fault decides: declarations and statements go in order, a conditional's first branch before its second, loops
/// turn by turn, and at one distribution the stores go in ascending number. Where there is none, the scale must be at most
/// 2^127 - 1.
pub fn clear(alloc: Global, program: Program, turns: u32) -> Result<Cleared, Halt>
    requires checked { IsChecked (program_tree program) }
    requires some_turns { 1 ≤ turns }
    requires few_turns { turns ≤ 65535 }
    ensures cleared { IfOk result (λ c. (program_of c ≡ program) × (turns_of c ≡ turns)) }
    ensures fault { (kind : RunFault) (at : ℕ) → result ≡ Err (Halt.Fault kind at) → program_pass turns (program_tree program) ≡ Err (halted kind at) }
    ensures scale { result ≡ Err Halt.Scale → IsOk (program_pass turns (program_tree program)) × (limit < scale_of turns (program_tree program)) }
{
    carry_laws();
    let reached = pass_program(alloc, &program, turns)?;
    let scale = scale_in(reached.as_slice());
    if scale >= PASSED {
        return Err(Halt::Scale);
    }
    Ok(Cleared {
        program,
        turns,
        scale,
    })
}

//! Which variables a distribution reads.

ghost use Rattle.std.specs.Prelude.{◌≡◌, ◌<◌, ℕ, true, All, Contains, IfOk, length, map};
ghost use Rattle.std.specs.List.{list_any};
ghost use Rattle.kf_value.specs.Shapes.{shape_types};
ghost use Rattle.kf_core.specs.Views.{dx_case_tree, dx_shape, ex_tree};
ghost use Rattle.kf_core.specs.Each.{exs as exs_tree};
ghost use Rattle.kf_eval.specs.Reads.{case_reads as case_reads_at, dist_reads as dist_reads_at, reads as reads_at, some_reads as some_reads_at};

use kf_core::{Dx, DxCase, DxNode, Ex};
use kf_value::{Mem, Shape};
use std::alloc::Global;

/// Whether the expression names the variable.
#[cycle(reads)]
#[tactic(auto, using(kf_core::proofs::Trees::constructors))]
fn reads(e: &Ex, slot: usize) -> bool
    ensures { result ≡ reads_at slot (ex_tree e.now) }
{
    match e {
        Ex::Const(_) => false,
        Ex::Slot(i) => usize::from(*i) == slot,
        Ex::Apply { args, .. } => some_reads(args.as_slice(), slot),
        Ex::Tuple(parts) => some_reads(parts.as_slice(), slot),
        Ex::SetOf(members) => some_reads(members.as_slice(), slot),
        Ex::Part { of, .. } => reads(of, slot),
    }
}

#[cycle(reads)]
fn some_reads(exs: &[Ex], slot: usize) -> bool
    ensures { result ≡ some_reads_at slot (exs_tree (map ex_tree exs.now)) }
{
    for ex in exs {
        if reads(ex, slot) {
            return true;
        }
    }
    false
}

fn case_reads(cases: &[DxCase], slot: usize) -> bool
    ensures { result ≡ list_any (case_reads_at slot) (map dx_case_tree cases.now) }
{
    for case in cases {
        if reads(&case.value, slot) || reads(&case.weight, slot) {
            return true;
        }
    }
    false
}

/// Whether one of the distribution's expressions names the variable.
pub fn dist_reads(dist: &Dx, slot: usize) -> bool
    ensures { result ≡ dist_reads_at slot (dx_shape dist.now.node) }
{
    match &dist.node {
        DxNode::Sure(x) => reads(x, slot),
        DxNode::UniformSet(x) => reads(x, slot),
        DxNode::UniformRange(x, y) => reads(x, slot) || reads(y, slot),
        DxNode::Choose(cases) => case_reads(cases.as_slice(), slot),
        DxNode::Flip { .. } => false,
    }
}

/// The variables that the distribution reads, ascending, each once.
pub fn slots_read(alloc: Global, shape: &Shape, dist: &Dx) -> Result<Vec<usize>, Mem>
    ensures within { IfOk result (λ slots. All (λ i. i < length (shape_types shape.now)) slots.items) }
    ensures all { IfOk result (λ slots. (i : ℕ) → i < length (shape_types shape.now) → dist_reads_at i (dx_shape dist.now.node) ≡ true → Contains slots.items i) }
{
    let mut slots = Vec::new(alloc);
    for i in 0..shape.types().as_slice().len() {
        if dist_reads(dist, i) {
            slots.push(i)?;
        }
    }
    Ok(slots)
}

//! The pass over statements: which stores they reach, and by which scales.

ghost use Rattle.std.specs.Prelude.{[], map, IfOk};
ghost use Rattle.kf_value.specs.Kinds.{TruthKind};
ghost use Rattle.kf_value.specs.Shapes.{shape_types, shape_size};
ghost use Rattle.kf_core.specs.Checked.{AreSound, DistKinded, IsChecked, IsSound};
ghost use Rattle.kf_core.specs.Views.{dx_tree, st_tree, program_tree};
ghost use Rattle.kf_core.specs.Runs.{tried};
ghost use Rattle.kf_core.specs.Sts.{sts};
ghost use Rattle.kf_eval.specs.Kinds.{shape_kinds};
ghost use Rattle.kf_support.specs.Answers.{AnswersPass, AreReached};
ghost use Rattle.kf_support.specs.Carried.{carry, carry_all, carry_loop, carry_program};

use crate::faults::Halt;
use crate::laws::carry_laws;
use crate::steps::{assign, copy, guard, last_guard, observe};
use crate::ways::{FEW, add_all, settled, shortened};
use kf_core::{Dx, Program, St};
use kf_value::Shape;
use std::alloc::Global;

/// Where a statement leads. A conditional's first branch goes before its second one.
#[cycle(pass)]
fn pass(
    alloc: Global,
    shape: &Shape,
    turns: u32,
    statement: &St,
    from: Vec<(u64, u128)>,
) -> Result<Vec<(u64, u128)>, Halt>
    requires sound { IsSound (shape_kinds shape.now) (st_tree statement.now) }
    requires ways { AreReached (shape_size shape.now) from.items }
    ensures answer { AnswersPass result (carry (shape_types shape.now) turns (st_tree statement.now) from.items) }
    ensures ways { IfOk result (λ m. AreReached (shape_size shape.now) m.items) }
{
    match statement {
        St::Skip => Ok(from),
        St::Assign { slot, dist, .. } => assign(
            alloc,
            shape,
            usize::from(*slot),
            dist,
            from.as_slice(),
        ),
        St::Observe(dist) => observe(alloc, shape, dist, from),
        St::If {
            guard: test,
            yes,
            no,
        } => {
            let branches = guard(alloc, shape, test, from.as_slice(), Vec::new(alloc))?;
            let left = settled(alloc, branches.left)?;
            let one = pass_all(alloc, shape, turns, yes.as_slice(), branches.taken)?;
            let other = pass_all(alloc, shape, turns, no.as_slice(), left)?;
            let reached = add_all(alloc, one, other)?;
            Ok(reached)
        }
        St::While { guard: test, body } => {
            pass_while(alloc, shape, turns, test, body.as_slice(), from)
        }
    }
}

/// Where a loop leads, turn by turn.
#[cycle(pass)]
fn pass_while(
    alloc: Global,
    shape: &Shape,
    turns: u32,
    test: &Dx,
    body: &[St],
    from: Vec<(u64, u128)>,
) -> Result<Vec<(u64, u128)>, Halt>
    requires kinded { DistKinded (shape_kinds shape.now) (dx_tree test.now) TruthKind }
    requires sound { AreSound (shape_kinds shape.now) (map st_tree body.now) }
    requires ways { AreReached (shape_size shape.now) from.items }
    ensures answer { AnswersPass result (carry_loop turns (tried (shape_types shape.now) (dx_tree test.now)) test.now.at (carry_all (shape_types shape.now) turns (sts (map st_tree body.now))) [] from.items) }
    ensures ways { IfOk result (λ m. AreReached (shape_size shape.now) m.items) }
{
    carry_laws();
    let mut states = from;
    let mut gone = Vec::new(alloc);
    let mut room = FEW;
    for _turn in 0..turns {
        let branches = guard(alloc, shape, test, states.as_slice(), gone)?;
        gone = shortened(alloc, branches.left, &mut room)?;
        if branches.taken.is_empty() {
            let reached = settled(alloc, gone)?;
            return Ok(reached);
        }
        states = pass_all(alloc, shape, turns, body, branches.taken)?;
    }
    last_guard(alloc, shape, test, states.as_slice(), gone)
}

/// Where statements lead, one after the other.
#[cycle(pass)]
pub fn pass_all(
    alloc: Global,
    shape: &Shape,
    turns: u32,
    statements: &[St],
    from: Vec<(u64, u128)>,
) -> Result<Vec<(u64, u128)>, Halt>
    requires sound { AreSound (shape_kinds shape.now) (map st_tree statements.now) }
    requires ways { AreReached (shape_size shape.now) from.items }
    ensures answer { AnswersPass result (carry_all (shape_types shape.now) turns (sts (map st_tree statements.now)) from.items) }
    ensures ways { IfOk result (λ m. AreReached (shape_size shape.now) m.items) }
{
    let mut states = from;
    for statement in statements {
        states = pass(alloc, shape, turns, statement, states)?;
    }
    Ok(states)
}

/// Where a whole program leads: its declarations from the first store, its carried copies, its statements.
pub fn pass_program(alloc: Global, program: &Program, turns: u32) -> Result<Vec<(u64, u128)>, Halt>
    requires { IsChecked (program_tree program.now) }
    ensures answer { AnswersPass result (carry_program turns (program_tree program.now)) }
    ensures ways { IfOk result (λ m. AreReached (shape_size program.now.shape) m.items) }
{
    let decls = program.decls.as_slice();
    let mut states = Vec::new(alloc);
    states.push((0, 1))?;
    for (i, dist) in decls.iter().enumerate() {
        states = assign(alloc, &program.shape, i, dist, states.as_slice())?;
    }
    let copied = copy(alloc, program, states)?;
    pass_all(
        alloc,
        &program.shape,
        turns,
        program.body.as_slice(),
        copied,
    )
}

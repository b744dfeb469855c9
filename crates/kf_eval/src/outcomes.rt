//! What a distribution chooses in a store.

ghost use Rattle.std.specs.Prelude.{◌≡◌, [], ◌∷◌, ◌<◌, ◌≤◌, ◌+◌, ◌^◌, List, length, map, IfOk, IfSome, Ok};
ghost use Rattle.std.specs.List.{All};
ghost use Rattle.kf_value.specs.Values.{ValueTree};
ghost use Rattle.kf_value.specs.Forms.{IsWellFormed, HasKind};
ghost use Rattle.kf_value.specs.Kinds.{KindTree};
ghost use Rattle.kf_value.specs.Shapes.{shape_types, shape_size};
ghost use Rattle.kf_value.specs.Numbers.{IsStore};
ghost use Rattle.kf_value.specs.Views.{value_tree};
ghost use Rattle.kf_core.specs.Runs.{store_at};
ghost use Rattle.kf_core.specs.Checked.{DistKinded};
ghost use Rattle.kf_core.specs.Choices.{choices as choices_of, once};
ghost use Rattle.kf_core.specs.Views.{dx_tree, dx_shape};
ghost use Rattle.kf_eval.specs.Choices.{AnswersChoice, weighted_trees};
ghost use Rattle.kf_eval.specs.Gathering.{AnswersWeights};
ghost use Rattle.kf_eval.specs.Kinds.{shape_kinds};

use crate::choice::{Choice, ChoiceError, Weighted, WeightedList};
use crate::scalars::scalar_of;
use crate::weights::{choose, flip, sure, total_of, uniform_range, uniform_set};
use kf_core::{Dx, DxNode, choice_laws, evaluation_laws};
use kf_value::{Shape, Value};
use std::alloc::Global;

/// What a checked distribution chooses in a store, named by its number in the shape.
///
/// Equal values are added, and the weights are in lowest terms. The first fault decides: expressions are evaluated in
/// order, of a case its weight before its value, and a value of weight 0 isn't evaluated.
pub fn choices(alloc: Global, d: &Dx, shape: &Shape, store: u64) -> Result<Choice, ChoiceError>
    requires store { store < shape_size shape.now }
    requires kinded { (k : KindTree) × DistKinded (shape_kinds shape.now) (dx_tree d.now) k }
    ensures choice { (s : List ValueTree) → IsStore (shape_types shape.now) store s → AnswersChoice result (choices_of s (dx_shape d.now.node)) }
    ensures kind { (k : KindTree) → DistKinded (shape_kinds shape.now) (dx_tree d.now) k
        → IfOk result (λ c. All (λ w. HasKind w.value k × IsWellFormed w.value) (weighted_trees c)) }
    ensures some { IfOk result (λ c. 1 ≤ length (weighted_trees c)) }
{
    choices_in(alloc, Vec::new(alloc), d, shape, store)
}

/// The same, in the memory of an empty list where one value is chosen for certain.
pub(crate) fn choices_in(
    alloc: Global,
    room: Vec<Weighted>,
    d: &Dx,
    shape: &Shape,
    store: u64,
) -> Result<Choice, ChoiceError>
    requires empty { room.items ≡ [] }
    requires store { store < shape_size shape.now }
    requires kinded { (k : KindTree) × DistKinded (shape_kinds shape.now) (dx_tree d.now) k }
    ensures choice { (s : List ValueTree) → IsStore (shape_types shape.now) store s → AnswersChoice result (choices_of s (dx_shape d.now.node)) }
    ensures kind { (k : KindTree) → DistKinded (shape_kinds shape.now) (dx_tree d.now) k
        → IfOk result (λ c. All (λ w. HasKind w.value k × IsWellFormed w.value) (weighted_trees c)) }
    ensures some { IfOk result (λ c. 1 ≤ length (weighted_trees c)) }
{
    evaluation_laws();
    choice_laws();
    let items = weights_of(alloc, room, d, shape, store)?;
    let total = total_of(&items);
    Ok(Choice {
        items: WeightedList::new(items),
        total,
    })
}

/// The value that a distribution chooses for certain, where this is a truth or a whole number. `None` promises nothing.
pub(crate) fn sure_in(d: &Dx, shape: &Shape, store: u64) -> Option<Value>
    requires store { store < shape_size shape.now }
    requires kinded { (k : KindTree) × DistKinded (shape_kinds shape.now) (dx_tree d.now) k }
    ensures chosen { IfSome result (λ v. choices_of (store_at (shape_types shape.now) store) (dx_shape d.now.node) ≡ Ok (once (value_tree v) ∷ [])) }
    ensures kind { (k : KindTree) → DistKinded (shape_kinds shape.now) (dx_tree d.now) k
        → IfSome result (λ v. HasKind (value_tree v) k × IsWellFormed (value_tree v)) }
{
    evaluation_laws();
    choice_laws();
    match &d.node {
        DxNode::Sure(x) => scalar_of(x, shape, store),
        _ => None,
    }
}

fn weights_of(
    alloc: Global,
    room: Vec<Weighted>,
    d: &Dx,
    shape: &Shape,
    store: u64,
) -> Result<Vec<Weighted>, ChoiceError>
    requires empty { room.items ≡ [] }
    requires store { store < shape_size shape.now }
    requires kinded { (k : KindTree) × DistKinded (shape_kinds shape.now) (dx_tree d.now) k }
    ensures { AnswersWeights result (choices_of (store_at (shape_types shape.now) store) (dx_shape d.now.node)) }
{
    match &d.node {
        DxNode::Sure(x) => sure(alloc, room, x, shape, store),
        DxNode::UniformSet(x) => uniform_set(alloc, x, shape, store),
        DxNode::UniformRange(x, y) => uniform_range(alloc, x, y, shape, store),
        DxNode::Choose(cases) => choose(alloc, cases.as_slice(), shape, store),
        DxNode::Flip { num, den } => flip(alloc, *num, *den),
    }
}

//! What a distribution chose, kept for all stores that agree in the variables that it reads.

ghost use Rattle.std.specs.Prelude.{◌≡◌, [], ◌<◌, ◌≤◌, ◌^◌, All, List, length, IfErr, IfOk};
ghost use Rattle.kf_value.specs.Kinds.{KindTree};
ghost use Rattle.kf_value.specs.Numbers.{IsStore};
ghost use Rattle.kf_value.specs.Shapes.{shape_size, shape_sizes, shape_types};
ghost use Rattle.kf_value.specs.Values.{ValueTree};
ghost use Rattle.kf_core.specs.Checked.{DistKinded};
ghost use Rattle.kf_core.specs.Choices.{choices as choices_of};
ghost use Rattle.kf_core.specs.Views.{dx_shape, dx_tree};
ghost use Rattle.kf_eval.specs.Choices.{IsChoiceFaultOf};
ghost use Rattle.kf_eval.specs.Kinds.{shape_kinds};
ghost use Rattle.kf_eval.specs.Memos.{IsChosen, number_in};
ghost use Rattle.kf_eval.specs.Reads.{span};

use crate::choice::{Choice, ChoiceError, Weighted};
use crate::outcomes::{choices_in, sure_in};
use crate::read_slots::slots_read;
use kf_core::{Dx, choice_laws};
use kf_value::{Mem, Shape, store_laws};
use std::alloc::Global;

/// The choices of one distribution in the stores that were asked for.
#[derive(Drop)]
pub struct Memo {
    /// The variables that the distribution reads.
    slots: Vec<usize>,
    /// By the number of their values, the place of the choice counted from 1, and 0 where it isn't known yet. Where
    /// nothing is kept, there are none.
    places: Vec<usize>,
    choices: Vec<Choice>,
}

/// How many values the variables at the slots have together, or 0 where these are more than `room`.
fn places_within(shape: &Shape, slots: &[usize], room: usize) -> usize
    requires { All (λ i. i < length (shape_types shape.now)) slots.now }
    ensures few { result ≤ room }
    ensures all { 0 < result → result ≡ span (shape_sizes shape.now) slots.now }
{
    let mut count: usize = 1;
    for slot in slots {
        let Some(more) = count.checked_mul(shape.size(*slot) as usize) else {
            return 0;
        };
        count = more;
    }
    if count > room { 0 } else { count }
}

/// The number of a store's values at the slots.
fn number_at(shape: &Shape, slots: &[usize], store: u64) -> usize
    requires store { store < shape_size shape.now }
    requires within { All (λ i. i < length (shape_types shape.now)) slots.now }
    requires fits { span (shape_sizes shape.now) slots.now < 2 ^ 64 }
    ensures number { result ≡ number_in shape.now slots.now store }
    ensures below { result < span (shape_sizes shape.now) slots.now }
{
    store_laws();
    let mut number = 0;
    for slot in slots {
        number = number * shape.size(*slot) as usize + shape.slot(store, *slot) as usize;
    }
    number
}

/// An empty list, in the memory of the last choice where there is one.
fn room_of(alloc: Global, choices: &mut Vec<Choice>) -> Vec<Weighted>
    ensures { result.items ≡ [] }
{
    match choices.pop() {
        Some(choice) => choice.items.emptied(),
        None => Vec::new(alloc),
    }
}

/// What a distribution chooses in a store.
fn chosen_in(
    alloc: Global,
    room: Vec<Weighted>,
    shape: &Shape,
    dist: &Dx,
    store: u64,
) -> Result<Choice, ChoiceError>
    requires empty { room.items ≡ [] }
    requires store { store < shape_size shape.now }
    requires kinded { (k : KindTree) × DistKinded (shape_kinds shape.now) (dx_tree dist.now) k }
    ensures choice { IfOk result (λ c. IsChosen shape.now (dx_tree dist.now) (store, c)) }
    ensures fault { IfErr result (λ e. (s : List ValueTree) → IsStore (shape_types shape.now) store s → IsChoiceFaultOf (choices_of s (dx_shape dist.now.node)) e) }
{
    choice_laws();
    match choices_in(alloc, room, dist, shape, store) {
        Ok(choice) => Ok(choice),
        Err(error) => Err(error),
    }
}

impl Memo {
    ghost use Rattle.std.specs.Prelude.{◌≡◌, ◌<◌, List, length, slice_get, Some, IfErr, IfOk, OnOk};
    ghost use Rattle.kf_value.specs.Kinds.{KindTree};
    ghost use Rattle.kf_value.specs.Numbers.{IsStore};
    ghost use Rattle.kf_value.specs.Shapes.{shape_size, shape_types};
    ghost use Rattle.kf_value.specs.Values.{ValueTree};
    ghost use Rattle.kf_core.specs.Checked.{DistKinded};
    ghost use Rattle.kf_core.specs.Choices.{choices as choices_of};
    ghost use Rattle.kf_core.specs.Views.{dx_shape, dx_tree};
    ghost use Rattle.kf_eval.specs.Choices.{IsChoiceFaultOf};
    ghost use Rattle.kf_eval.specs.Kinds.{shape_kinds};
    ghost use Rattle.kf_eval.specs.Memos.{IsKeptAt, IsMemoOf, kept};

    /// Nothing is known yet. `asked` is how many stores will be asked for. Where these aren't twice as many as the values
    /// that the variables which the distribution reads have together, nothing is kept, and each store is evaluated anew.
    pub fn new(alloc: Global, shape: &Shape, dist: &Dx, asked: usize) -> Result<Memo, Mem>
        ensures { IfOk result (λ m. IsMemoOf shape.now (dx_tree dist.now) m) }
    {
        let slots = slots_read(alloc, shape, dist)?;
        let places = vec![in alloc; 0usize; places_within(shape, &slots, asked / 2)]?;
        Ok(Memo {
            slots,
            places,
            choices: Vec::new(alloc),
        })
    }

    /// Works out what the distribution chooses in the store, unless that is known, and gives its place.
    pub fn find(
        &mut self,
        alloc: Global,
        shape: &Shape,
        dist: &Dx,
        store: u64,
    ) -> Result<usize, ChoiceError>
        requires store { store < shape_size shape.now }
        requires kinded { (k : KindTree) × DistKinded (shape_kinds shape.now) (dx_tree dist.now) k }
        requires memo { IsMemoOf shape.now (dx_tree dist.now) self.old }
        ensures memo { OnOk result (IsMemoOf shape.now (dx_tree dist.now) self.new) }
        ensures found { IfOk result (λ place. IsKeptAt shape.now (dx_tree dist.now) store self.new place) }
        ensures within { IfOk result (λ place. place < length (kept self.new)) }
        ensures fault { IfErr result (λ e. (s : List ValueTree) → IsStore (shape_types shape.now) store s → IsChoiceFaultOf (choices_of s (dx_shape dist.now.node)) e) }
    {
        if self.places.is_empty() {
            if let Some(value) = sure_in(dist, shape, store) {
                if !self.choices.is_empty() {
                    self.choices[0].become_sure(value)?;
                    return Ok(0);
                }
            }
            let room = room_of(alloc, &mut self.choices);
            let choice = chosen_in(alloc, room, shape, dist, store)?;
            self.choices.clear();
            self.choices.push(choice)?;
            return Ok(0);
        }
        let number = number_at(shape, &self.slots, store);
        let known = self.places[number];
        if known > 0 {
            return Ok(known - 1);
        }
        store_laws();
        let room = Vec::with_capacity(alloc, 1)?;
        let choice = chosen_in(alloc, room, shape, dist, store)?;
        self.choices.push(choice)?;
        self.places[number] = self.choices.len();
        Ok(self.choices.len() - 1)
    }

    /// What is kept at a place.
    pub fn at(&self, place: usize) -> &Choice
        requires { place < length (kept self.now) }
        ensures { slice_get (kept self.now) place ≡ Some result.now }
    {
        &self.choices[place]
    }
}

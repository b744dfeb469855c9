//! The weights that each form of distribution gives its values.

ghost use Rattle.std.specs.Prelude.{◌≡◌, [], ◌<◌, ◌≤◌, ◌+◌, ◌^◌, List, length, map, pos, ◌-◌, ◌+ℤ◌, ◌≤ℤ◌, IfOk, IfSome, MatchResult, Ok};
ghost use Rattle.std.specs.List.Sorted.{IsStrictlySortedBy};
ghost use Rattle.kf_value.specs.Kinds.{KindTree, SetKind, WholeKind};
ghost use Rattle.kf_value.specs.Shapes.{shape_size, shape_types};
ghost use Rattle.kf_value.specs.Types.{Range, values};
ghost use Rattle.kf_value.specs.Values.{ValueTree, Whole, order, whole};
ghost use Rattle.kf_value.specs.Views.{value_tree};
ghost use Rattle.kf_core.specs.Runs.{store_at};
ghost use Rattle.kf_core.specs.Checked.{CasesKinded, Kinded};
ghost use Rattle.kf_core.specs.Results.{then_ok};
ghost use Rattle.kf_core.specs.Choices.{case_listed, choices as choices_of, lowest, gathered, once, some_of, total};
ghost use Rattle.kf_core.specs.Dxs.{Choose, Flip, Sure, UniformRange, UniformSet};
ghost use Rattle.kf_core.specs.Evaluation.{ev};
ghost use Rattle.kf_core.specs.Views.{dx_case_tree, ex_tree};
ghost use Rattle.kf_eval.specs.Answers.{IsFaultOf};
ghost use Rattle.kf_eval.specs.Choices.{weighted_tree};
ghost use Rattle.kf_eval.specs.Gathering.{AnswersCase, AnswersWeights};
ghost use Rattle.kf_eval.specs.Kinds.{IsKinded, shape_kinds};

use crate::choice::{ChoiceError, Weighted};
use crate::evaluation::eval;
use crate::fault::EvalError;
use crate::scalars::whole_of;
use crate::weighted::{add, in_lowest_terms};
use kf_core::{DxCase, Ex};
use kf_value::{Shape, Value};
use std::alloc::Global;

/// The value of the expression, for certain, in the memory of an empty list.
pub fn sure(
    alloc: Global,
    mut room: Vec<Weighted>,
    x: &Ex,
    shape: &Shape,
    store: u64,
) -> Result<Vec<Weighted>, ChoiceError>
    requires empty { room.items ≡ [] }
    requires store { store < shape_size shape.now }
    requires kinded { IsKinded (shape_kinds shape.now) (ex_tree x.now) }
    ensures { AnswersWeights result (choices_of (store_at (shape_types shape.now) store) (Sure (ex_tree x.now))) }
{
    let value = eval(alloc, x, shape, store)?;
    room.push(Weighted { value, weight: 1 })?;
    Ok(room)
}

/// Each element of a set alike.
pub fn uniform_set(
    alloc: Global,
    x: &Ex,
    shape: &Shape,
    store: u64,
) -> Result<Vec<Weighted>, ChoiceError>
    requires store { store < shape_size shape.now }
    requires kinded { (k : KindTree) × Kinded (shape_kinds shape.now) (ex_tree x.now) (SetKind k) }
    ensures { AnswersWeights result (choices_of (store_at (shape_types shape.now) store) (UniformSet (ex_tree x.now))) }
{
    match eval(alloc, x, shape, store)? {
        Value::Set(elements) => each_once(alloc, elements.as_slice()),
        _ => unreachable!(),
    }
}

/// Each whole number from the first to the second alike.
pub fn uniform_range(
    alloc: Global,
    x: &Ex,
    y: &Ex,
    shape: &Shape,
    store: u64,
) -> Result<Vec<Weighted>, ChoiceError>
    requires store { store < shape_size shape.now }
    requires first { Kinded (shape_kinds shape.now) (ex_tree x.now) WholeKind }
    requires last { Kinded (shape_kinds shape.now) (ex_tree y.now) WholeKind }
    ensures { AnswersWeights result (choices_of (store_at (shape_types shape.now) store) (UniformRange (ex_tree x.now) (ex_tree y.now))) }
{
    let first = whole(alloc, x, shape, store)?;
    let last = whole(alloc, y, shape, store)?;
    let span = first.abs_diff(last);
    if first > last {
        Err(ChoiceError::NoWeight)
    } else if span >= 65_536 {
        Err(ChoiceError::RangeLong)
    } else {
        each_number(alloc, first, span as u32 + 1)
    }
}

/// The values of the cases, added up in order.
pub fn choose(
    alloc: Global,
    cases: &[DxCase],
    shape: &Shape,
    store: u64,
) -> Result<Vec<Weighted>, ChoiceError>
    requires store { store < shape_size shape.now }
    requires kinded { (k : KindTree) × CasesKinded (shape_kinds shape.now) (map dx_case_tree cases.now) k }
    ensures { AnswersWeights result (choices_of (store_at (shape_types shape.now) store) (Choose (map dx_case_tree cases.now))) }
{
    let mut items = Vec::with_capacity(alloc, cases.len())?;
    for case in cases {
        if let Some(item) = weighed(alloc, case, shape, store)? {
            add(&mut items, item)?;
        }
    }
    if items.is_empty() {
        Err(ChoiceError::NoWeight)
    } else {
        Ok(in_lowest_terms(items))
    }
}

/// `false` and `true`, of those that have some weight.
pub fn flip(alloc: Global, num: u32, den: u32) -> Result<Vec<Weighted>, ChoiceError>
    requires some { 1 ≤ den }
    requires within { num ≤ den }
    ensures { (s : List ValueTree) → AnswersWeights result (choices_of s (Flip num den)) }
{
    let mut items = Vec::with_capacity(alloc, 2)?;
    if num < den {
        items.push(Weighted {
            value: Value::Bool(false),
            weight: u128::from(den - num),
        })?;
    }
    if num > 0 {
        items.push(Weighted {
            value: Value::Bool(true),
            weight: u128::from(num),
        })?;
    }
    Ok(in_lowest_terms(items))
}

/// The weight of a case is evaluated before its value, and the value only where the weight isn't 0.
fn weighed(
    alloc: Global,
    case: &DxCase,
    shape: &Shape,
    store: u64,
) -> Result<Option<Weighted>, ChoiceError>
    requires store { store < shape_size shape.now }
    requires value { IsKinded (shape_kinds shape.now) (ex_tree case.now.value) }
    requires weight { Kinded (shape_kinds shape.now) (ex_tree case.now.weight) WholeKind }
    ensures listed { AnswersCase result (case_listed (store_at (shape_types shape.now) store) (dx_case_tree case.now)) }
    ensures within { IfOk result (λ item. IfSome item (λ w. (0 < w.weight) × (w.weight < 2 ^ 63))) }
{
    let weight = whole(alloc, &case.weight, shape, store)?;
    if weight < 0 {
        return Err(ChoiceError::NegativeWeight);
    }
    if weight == 0 {
        return Ok(None);
    }
    let value = eval(alloc, &case.value, shape, store)?;
    Ok(Some(Weighted {
        value,
        weight: u128::from(weight.unsigned_abs()),
    }))
}

/// The whole number that an expression of that kind is.
fn whole(alloc: Global, x: &Ex, shape: &Shape, store: u64) -> Result<i64, EvalError>
    requires store { store < shape_size shape.now }
    requires kinded { Kinded (shape_kinds shape.now) (ex_tree x.now) WholeKind }
    ensures { let defined = ev (store_at (shape_types shape.now) store) (ex_tree x.now) in
        MatchResult result (λ n. defined ≡ Ok (Whole n)) (IsFaultOf defined) }
{
    match whole_of(x, shape, store) {
        Some(number) => Ok(number),
        None => Ok(number_in(&eval(alloc, x, shape, store)?)),
    }
}

/// The number that a value is, which is a whole number.
#[tactic(auto, using(kf_value::proofs::Trees::constructors))]
fn number_in(value: &Value) -> i64
    ensures { result ≡ whole (value_tree value.now) }
{
    match value {
        Value::Int(number) => *number,
        Value::Bool(_) | Value::Tuple(_) | Value::Set(_) => 0,
    }
}

/// Distinct values in ascending order, each with weight 1.
fn each_once(alloc: Global, values: &[Value]) -> Result<Vec<Weighted>, ChoiceError>
    requires { IsStrictlySortedBy order (map value_tree values.now) }
    ensures { AnswersWeights result (then_ok (some_of (map once (map value_tree values.now))) (λ ws. Ok (lowest (gathered ws)))) }
{
    if values.is_empty() {
        return Err(ChoiceError::NoWeight);
    }
    let mut items = Vec::with_capacity(alloc, values.len())?;
    for value in values {
        items.push(Weighted {
            value: value.copy(alloc)?,
            weight: 1,
        })?;
    }
    Ok(items)
}

/// So many whole numbers from the first on, each with weight 1.
fn each_number(alloc: Global, first: i64, count: u32) -> Result<Vec<Weighted>, ChoiceError>
    requires some { 1 ≤ count }
    requires fits { (first +ℤ pos count) ≤ℤ pos (2 ^ 63) }
    ensures { AnswersWeights result (then_ok (some_of (map once (values (Range first (first +ℤ pos (count - 1)))))) (λ ws. Ok (lowest (gathered ws)))) }
{
    let mut items = Vec::with_capacity(alloc, count as usize)?;
    for k in 0..count {
        items.push(Weighted {
            value: Value::Int(first + i64::from(k)),
            weight: 1,
        })?;
    }
    Ok(items)
}

/// The sum of all weights.
pub fn total_of(items: &[Weighted]) -> u128
    requires { total (map weighted_tree items.now) < 2 ^ 127 }
    ensures { result ≡ total (map weighted_tree items.now) }
{
    let mut total = 0;
    for item in items {
        total += item.weight;
    }
    total
}

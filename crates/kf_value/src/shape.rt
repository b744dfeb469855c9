ghost use Rattle.std.specs.Prelude.{◌≡◌, ◌≤◌, ◌^◌, ◌-◌, min, map, length, None, IsTrue};
ghost use Rattle.std.specs.List.{All, list_all};
ghost use Rattle.kf_value.specs.Types.{count, product};
ghost use Rattle.kf_value.specs.Sizes.{fault_of, well_formed};
ghost use Rattle.kf_value.specs.TypeViews.{type_tree};
ghost use Rattle.kf_value.specs.Numbers.{weights as place_weights};
ghost use Rattle.kf_value.specs.Views.{type_trees};

use crate::divisor::Divisor;
use crate::numbers::number;
use crate::sizes::known_size;
use crate::{Mem, Ty, TyList, Value};
use std::alloc::{AllocError, AllocFailed, Global};

/// The types of a program's variables, in their order, and with them the numbers of its stores.
///
/// A store gives each variable a value of its type. Its number is mixed radix over the values' numbers, the first
/// variable most significant.
#[derive(Drop)]
pub struct Shape {
    types: TyList,
    places: Vec<Place>,
    pub ghost formed: { IsTrue (list_all well_formed (type_trees types)) },
    pub ghost sized: { All (λ t. fault_of t ≡ None) (type_trees types) },
    pub ghost some: { 1 ≤ length (type_trees types) },
    pub ghost few: { length (type_trees types) ≤ 32 },
    pub ghost fits: { product (map count (type_trees types)) ≤ 2 ^ 63 },
    ghost sizes_are: { map (λ p. p.size.divisor) places.items ≡ map count (type_trees types) },
    ghost weights_are: { map (λ p. p.weight.divisor) places.items ≡ place_weights (map count (type_trees types)) },
}

/// What one step of a variable's digit weighs in a store's number, and how many values the variable's type has.
#[derive(Drop)]
struct Place {
    weight: Divisor,
    size: Divisor,
}

/// Why types make no shape.
#[derive(Debug, Drop)]
pub enum ShapeError {
    /// There are more than `2^63` stores.
    StoreTooWide,
    Mem,
}

/// A value that is not of the variable's type.
#[derive(Clone, Copy, Debug, PartialEq, Eq)]
pub struct OutOfRange;

impl From<AllocError> for ShapeError {
    ghost use Rattle.kf_value.specs.declared.shape.ShapeError.TheVariants as errors;

    ghost from_gives = { λ _ e. e ≡ errors.Mem };

    fn from(_: AllocError) -> Self {
        ShapeError::Mem
    }
}

impl<T: Drop> From<AllocFailed<T>> for ShapeError {
    ghost use Rattle.kf_value.specs.declared.shape.ShapeError.TheVariants as errors;

    ghost from_gives = { λ _ e. e ≡ errors.Mem };

    fn from(_: AllocFailed<T>) -> Self {
        ShapeError::Mem
    }
}

impl Shape {
    ghost use Rattle.std.specs.Prelude.{ℕ, List, ◌<◌, ◌↔◌, slice_get, slice_set, slice_index, Some, Err, IfOk, OnErr};
    ghost use Rattle.kf_value.specs.Types.{TypeTree};
    ghost use Rattle.kf_value.specs.Sizes.{HasNumber};
    ghost use Rattle.kf_value.specs.Values.{ValueTree};
    ghost use Rattle.kf_value.specs.Forms.{IsWellFormed};
    ghost use Rattle.kf_value.specs.Numbers.{digits, IsStore, HasDigit};
    ghost use Rattle.kf_value.specs.Shapes.{shape_types, shape_sizes, shape_size};
    ghost use Rattle.kf_value.specs.Views.{value_tree};

    /// The shape of variables of these types.
    pub fn new(alloc: Global, types: TyList) -> Result<Shape, ShapeError>
        requires formed { IsTrue (list_all well_formed (type_trees types)) }
        requires sized { All (λ t. fault_of t ≡ None) (type_trees types) }
        requires some { 1 ≤ length (type_trees types) }
        requires few { length (type_trees types) ≤ 32 }
        ensures types { IfOk result (λ shape. shape_types shape ≡ type_trees types) }
        ensures too_wide { (result ≡ Err ShapeError.StoreTooWide) ↔ (2 ^ 63 < product (map count (type_trees types))) }
    {
        let stores = store_count(types.as_slice());
        if stores > 1 << 63 {
            return Err(ShapeError::StoreTooWide);
        }
        let mut places = Vec::new(alloc);
        let mut weight = stores;
        for ty in types.as_slice() {
            let size = u64::from(known_size(ty));
            weight /= size;
            places.push(Place {
                weight: Divisor::new(weight),
                size: Divisor::new(size),
            })?;
        }
        Ok(Shape { types, places })
    }

    /// The types of the variables, in their order.
    pub fn types(&self) -> &TyList
        ensures { type_trees result.now ≡ shape_types self.now }
    {
        &self.types
    }

    /// How many values the type of variable `i` has.
    pub fn size(&self, i: usize) -> u32
        requires { i < length (shape_types self.now) }
        ensures { result ≡ slice_index (shape_sizes self.now) i }
    {
        self.places[i].size.number() as u32
    }

    /// The number, in its type, of the value of variable `i` in a store.
    pub fn slot(&self, store: u64, i: usize) -> u32
        requires store { store < shape_size self.now }
        requires variable { i < length (shape_types self.now) }
        ensures digit { result ≡ slice_index (digits (shape_sizes self.now) store) i }
        ensures value { HasDigit (shape_types self.now) store i result }
        ensures below { result < slice_index (shape_sizes self.now) i }
    {
        let place = &self.places[i];
        let steps = place.weight.quotient(store);
        place.size.remainder(steps) as u32
    }

    /// The store with variable `i` changed to the value, and all others as before.
    pub fn with_slot(&self, store: u64, i: usize, v: &Value) -> Result<u64, OutOfRange>
        requires store { store < shape_size self.now }
        requires variable { i < length (shape_types self.now) }
        requires formed { IsWellFormed (value_tree v.now) }
        ensures changed { IfOk result (λ after. (s : List ValueTree) → IsStore (shape_types self.now) store s
            → IsStore (shape_types self.now) after (slice_set s i (value_tree v.now))) }
        ensures digits { IfOk result (λ after. (t : TypeTree) → slice_get (shape_types self.now) i ≡ Some t
            → (n : ℕ) × HasNumber t (value_tree v.now) n
            × (digits (shape_sizes self.now) after ≡ slice_set (digits (shape_sizes self.now) store) i n)) }
        ensures below { IfOk result (λ after. after < shape_size self.now) }
        ensures out_of_range { OnErr result ((t : TypeTree) → slice_get (shape_types self.now) i ≡ Some t
            → (n : ℕ) → ¬ HasNumber t (value_tree v.now) n) }
    {
        let ty = &self.types.as_slice()[i];
        let Some(n) = number(ty, v) else {
            return Err(OutOfRange);
        };
        Ok(self.with_digit(store, i, n))
    }

    /// The store with variable `i` changed to the value with the number `n` in its type, and all others as before.
    pub fn with_digit(&self, store: u64, i: usize, n: u32) -> u64
        requires store { store < shape_size self.now }
        requires variable { i < length (shape_types self.now) }
        requires digit { n < slice_index (shape_sizes self.now) i }
        ensures digits { digits (shape_sizes self.now) result ≡ slice_set (digits (shape_sizes self.now) store) i n }
        ensures below { result < shape_size self.now }
    {
        let weight = self.places[i].weight.number();
        let old = u64::from(self.slot(store, i));
        let new = u64::from(n);
        store - old * weight + new * weight
    }
}

/// The number of stores, or as much of it as 64 bits hold.
fn store_count(types: &[Ty]) -> u64
    requires { All (λ t. fault_of t ≡ None) (map type_tree types.now) }
    ensures { result ≡ min (product (map count (map type_tree types.now))) (2 ^ 64 - 1) }
{
    let mut stores: u64 = 1;
    for ty in types {
        stores = stores.saturating_mul(u64::from(known_size(ty)));
    }
    stores
}

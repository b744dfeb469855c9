//! Where one change leads a store.

ghost use Rattle.std.specs.Prelude.{◌≡◌, ◌<◌, false, Some, length, get_or, slice_get, slice_set, IfSome};
ghost use Rattle.kf_value.specs.Values.{Truth};
ghost use Rattle.kf_value.specs.Forms.{IsWellFormed};
ghost use Rattle.kf_value.specs.Views.{value_tree};
ghost use Rattle.kf_value.specs.Shapes.{shape_types, shape_size};
ghost use Rattle.kf_core.specs.Checked.{IsChecked};
ghost use Rattle.kf_core.specs.Views.{program_tree};
ghost use Rattle.kf_core.specs.Runs.{copied, replaced, store_at};
ghost use Rattle.kf_support.specs.Moves.{store_behind};

use kf_core::Program;
use kf_value::{Shape, Value, store_laws};

/// The store with the variable at `slot` changed; none where the value isn't of its type.
pub fn moved(shape: &Shape, slot: usize, store: u64, value: &Value) -> Option<u64>
    requires variable { slot < length (shape_types shape.now) }
    requires store { store < shape_size shape.now }
    requires formed { IsWellFormed (value_tree value.now) }
    ensures moved { result ≡ replaced (shape_types shape.now) slot (value_tree value.now) store }
    ensures below { IfSome result (λ after. after < shape_size shape.now) }
{
    match shape.with_slot(store, slot, value) {
        Ok(after) => Some(after),
        Err(_) => None,
    }
}

/// The store behind a choice of the value: where a variable takes it, as `moved` says, else the same.
pub fn store_behind(shape: &Shape, into: Option<usize>, store: u64, value: &Value) -> Option<u64>
    requires variable { IfSome into (λ slot. slot < length (shape_types shape.now)) }
    requires store { store < shape_size shape.now }
    requires formed { IsWellFormed (value_tree value.now) }
    ensures behind { result ≡ store_behind (shape_types shape.now) into store (value_tree value.now) }
    ensures below { IfSome result (λ after. after < shape_size shape.now) }
{
    match into {
        Some(slot) => moved(shape, slot, store, value),
        None => Some(store),
    }
}

/// The store where the variable `to` has the value of `from`, which is of its type.
fn copied_to(shape: &Shape, store: u64, from: usize, to: usize) -> u64
    requires store { store < shape_size shape.now }
    requires from { from < length (shape_types shape.now) }
    requires to { to < length (shape_types shape.now) }
    requires alike { slice_get (shape_types shape.now) to ≡ slice_get (shape_types shape.now) from }
    ensures copied { store_at (shape_types shape.now) result
        ≡ slice_set (store_at (shape_types shape.now) store) to (get_or (store_at (shape_types shape.now) store) from (Truth false)) }
    ensures below { result < shape_size shape.now }
{
    store_laws();
    let digit = shape.slot(store, from);
    shape.with_digit(store, to, digit)
}

/// The store with the carried copies set.
pub fn copied_store(program: &Program, store: u64) -> u64
    requires checked { IsChecked (program_tree program.now) }
    requires store { store < shape_size program.now.shape }
    ensures copied { result ≡ copied (program_tree program.now) store }
    ensures below { result < shape_size program.now.shape }
{
    let mut to = program.decls.as_slice().len();
    let mut after = store;
    for slot in program.copies.as_slice() {
        after = copied_to(&program.shape, after, usize::from(*slot), to);
        to += 1;
    }
    after
}

//! The reading of gain tables.

ghost use Rattle.std.specs.Prelude.{◌≡◌, ◌≢◌, Ok, Err, Some, None, IfOk, IfErr};
ghost use Rattle.serde_json.specs.View.{view};
ghost use Rattle.kf_value.specs.Views.{items_of};
ghost use Rattle.kf_gain.specs.declared.error.TableError.TheVariants as broken;
ghost use Rattle.kf_json.specs.Json.{json_of};
ghost use Rattle.kf_gain.specs.Tables.{IsTable, IsTableOf};
ghost use Rattle.kf_gain.specs.Forms.{fault_in};
ghost use Rattle.kf_gain.specs.Shapes.{IsTableShape};
ghost use Rattle.kf_gain.specs.Views.{table_tree};

mod content;
mod rules;

use crate::{Action, ActionList, GainTable, TableError};
use content::{actions, is_once};
use kf_json::{parse, whole_or_zero};
use kf_value::Target;
use rules::broken_form;
use serde_json::Value;
use std::alloc::Global;

/// The table with these numbers and actions.
fn table(over: u128, rest: i128, actions: Vec<Action>) -> GainTable
    requires shape { IsTableShape (record { over = over; rest = rest; actions = actions.items }) }
    ensures { table_tree result ≡ record { over = over; rest = rest; actions = actions.items } }
{
    GainTable {
        over,
        rest,
        actions: ActionList::new(actions),
    }
}

/// The table that a file's value says, or the first rule that it breaks.
fn table_in(alloc: Global, target: &Target, value: &Value) -> Result<GainTable, TableError>
    ensures fault { IfOk result (λ _. fault_in (items_of target.now) (view value.now) ≡ None) }
    ensures is { IfOk result (λ t. IsTableOf (items_of target.now) (view value.now) (table_tree t)) }
    ensures err { IfErr result (λ e. e ≢ broken.Mem → fault_in (items_of target.now) (view value.now) ≡ Some e) }
{
    if let Some(fault) = broken_form(value) {
        return Err(fault);
    }
    let once = is_once(alloc, value)?;
    let actions = actions(alloc, target, value)?;
    if !once {
        return Err(TableError::Twice);
    }
    let over = whole_or_zero(value.get("over")).unsigned_abs();
    let rest = whole_or_zero(value.get("rest"));
    Ok(table(over, rest, actions))
}

/// The gain table that the bytes say for a target: JSON with the keys `actions`, `format`, `over` and `rest`.
///
/// An entry names a value of the target by the text that it prints as. Its gain is over the table's `over`, and so is
/// `rest`, the gain at each value that an action doesn't name. The error is that of the first broken rule, each rule being
/// tested over the whole value before the next: `Json`, `Form` from 1 to 6, `Wide`, `Empty`, `Unknown`, `Twice`; or `Mem`,
/// want of memory.
pub fn read_table(alloc: Global, bytes: &[u8], target: &Target) -> Result<GainTable, TableError>
    ensures is { IfOk result (λ t. IsTable (items_of target.now) bytes.now (Ok (table_tree t))) }
    ensures err { IfErr result (λ e. e ≢ broken.Mem → IsTable (items_of target.now) bytes.now (Err e)) }
{
    let value = parse(alloc, bytes)?;
    table_in(alloc, target, &value)
}

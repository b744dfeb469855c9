//! The rules on a gain table that look at the target's values, and the table that it says.

ghost use Rattle.std.specs.Prelude.{◌≡◌, ◌≢◌, map, IfOk, IfErr, true, false};
ghost use Rattle.std.specs.List.{AllZip, list_all};
ghost use Rattle.serde_json.specs.View.{view};
ghost use Rattle.kf_value.specs.Views.{items_of};
ghost use Rattle.kf_gain.specs.declared.error.TableError.TheVariants as broken;
ghost use Rattle.kf_json.specs.Json.{members as member_list, at_place, whole_of};
ghost use Rattle.kf_gain.specs.Tables.{actions_at, gains_at, value_texts, is_value_text};
ghost use Rattle.kf_json.specs.Rules.{are_distinct as distinct};
ghost use Rattle.kf_gain.specs.Reading.{IsEntry, IsRead};
ghost use Rattle.kf_gain.specs.Forms.{all_known, all_once, action_names};

use crate::{Action, GainEntry, GainEntryList, TableError};
use kf_json::{are_distinct, members, text, whole_or_zero};
use kf_value::{Mem, Name, Target, number_of};
use serde_json::Value;
use std::alloc::Global;

/// The entry of a gain at a value.
fn entry(value: u64, gain: &Value) -> GainEntry
    ensures value { result.value ≡ value }
    ensures gain { result.gain ≡ whole_of (at_place 1 (view gain.now)) }
{
    GainEntry {
        value,
        gain: whole_or_zero(gain.get(1usize)),
    }
}

/// The gains that an action names, in the file's order, each at the number of its value.
fn entries(alloc: Global, target: &Target, action: &Value) -> Result<Vec<GainEntry>, TableError>
    ensures ok { IfOk result (λ es. AllZip (IsEntry (items_of target.now)) (member_list (gains_at (view action.now))) es.items) }
    ensures known { IfOk result (λ _. list_all (is_value_text (items_of target.now)) (value_texts (view action.now)) ≡ true) }
    ensures err { IfErr result (λ e. e ≢ broken.Mem → (e ≡ broken.Unknown)
        × (list_all (is_value_text (items_of target.now)) (value_texts (view action.now)) ≡ false)) }
{
    let mut entries = Vec::new(alloc);
    for gain in members(action.get("gains")) {
        let Some(value) = number_of(alloc, target, text(gain.get(0usize)))? else {
            return Err(TableError::Unknown);
        };
        entries.push(entry(value, gain))?;
    }
    Ok(entries)
}

/// The action that a value says: its gains ascend where it names no value twice.
fn action(alloc: Global, target: &Target, value: &Value) -> Result<Action, TableError>
    ensures ok { IfOk result (λ a. IsRead (items_of target.now) (view value.now) a) }
    ensures known { IfOk result (λ _. list_all (is_value_text (items_of target.now)) (value_texts (view value.now)) ≡ true) }
    ensures err { IfErr result (λ e. e ≢ broken.Mem → (e ≡ broken.Unknown)
        × (list_all (is_value_text (items_of target.now)) (value_texts (view value.now)) ≡ false)) }
{
    let mut entries = entries(alloc, target, value)?;
    entries.sort_unstable_by_key(|entry| entry.value);
    Ok(Action {
        name: Name::new(String::from_str(alloc, text(value.get("name")))?),
        gains: GainEntryList::new(entries),
    })
}

/// The actions of a table, or `Unknown` where one of them names no value of the target.
pub(crate) fn actions(
    alloc: Global,
    target: &Target,
    table: &Value,
) -> Result<Vec<Action>, TableError>
    ensures ok { IfOk result (λ made. AllZip (IsRead (items_of target.now)) (member_list (actions_at (view table.now))) made.items) }
    ensures known { IfOk result (λ _. all_known (items_of target.now) (view table.now) ≡ true) }
    ensures err { IfErr result (λ e. e ≢ broken.Mem → (e ≡ broken.Unknown) × (all_known (items_of target.now) (view table.now) ≡ false)) }
{
    let mut actions = Vec::new(alloc);
    for value in members(table.get("actions")) {
        actions.push(action(alloc, target, value)?)?;
    }
    Ok(actions)
}

/// Whether an action names no value twice.
fn names_once(alloc: Global, action: &Value) -> Result<bool, Mem>
    ensures { IfOk result (λ b. b ≡ distinct (value_texts (view action.now))) }
{
    let mut texts = Vec::new(alloc);
    for gain in members(action.get("gains")) {
        texts.push(text(gain.get(0usize)))?;
    }
    are_distinct(alloc, texts)
}

/// Whether all actions have names of their own.
fn has_own_names(alloc: Global, table: &Value) -> Result<bool, Mem>
    ensures { IfOk result (λ b. b ≡ distinct (action_names (view table.now))) }
{
    let mut names = Vec::new(alloc);
    for action in members(table.get("actions")) {
        names.push(text(action.get("name")))?;
    }
    are_distinct(alloc, names)
}

/// Whether each action names each value once, and no two have one name.
pub(crate) fn is_once(alloc: Global, table: &Value) -> Result<bool, Mem>
    ensures { IfOk result (λ b. b ≡ all_once (view table.now)) }
{
    for action in members(table.get("actions")) {
        if !names_once(alloc, action)? {
            return Ok(false);
        }
    }
    has_own_names(alloc, table)
}

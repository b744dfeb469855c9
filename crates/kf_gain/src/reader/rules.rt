//! The rules on a gain table that look at its file alone.

ghost use Rattle.std.specs.Prelude.{◌≡◌, None, codes, bytes_eq};
ghost use Rattle.std.specs.List.{list_all};
ghost use Rattle.serde_json.specs.View.{view};
ghost use Rattle.kf_json.specs.Json.{members as member_list, at_place, whole_of};
ghost use Rattle.kf_json.specs.Rules.{is_name as is_a_name, first_broken};
ghost use Rattle.kf_gain.specs.Tables as rule;
ghost use Rattle.kf_gain.specs.Forms as single;
ghost use Rattle.kf_json.specs.Seen.{seen};

use crate::TableError;
use kf_json::{has_keys, is_list, is_name, is_text, is_the_text, members, whole, whole_or_zero};
use serde_json::Value;

/// Whether `over` and `rest` are whole numbers, and `over` is at least 1.
fn has_numbers(value: &Value) -> bool
    ensures { result ≡ single.form_3 (view value.now) }
{
    match whole(value.get("over")) {
        Some(over) => whole(value.get("rest")).is_some() && 1 <= over,
        None => false,
    }
}

/// Whether the value is an action's object.
fn is_action(value: &Value) -> bool
    ensures { result ≡ rule.is_action (view value.now) }
{
    has_keys(value, &["gains", "name"])
}

/// Whether the actions are a list of objects with the keys of one.
fn has_actions(value: &Value) -> bool
    ensures { result ≡ single.form_4 (view value.now) }
{
    let found = value.get("actions");
    is_list(found) && members(found).iter().all(is_action)
}

/// Whether the action has a name.
fn is_named(action: &Value) -> bool
    ensures { result ≡ is_a_name (rule.name_at (view action.now)) }
{
    is_name(action.get("name"))
}

/// Whether all actions have names.
fn has_names(value: &Value) -> bool
    ensures { result ≡ single.form_5 (view value.now) }
{
    members(value.get("actions")).iter().all(is_named)
}

/// Whether the value is a list of a text and a whole number.
fn is_gain(value: &Value) -> bool
    ensures { result ≡ rule.is_gain (view value.now) }
{
    is_list(Some(value))
        && members(Some(value)).len() == 2
        && is_text(value.get(0usize))
        && whole(value.get(1usize)).is_some()
}

/// Whether the action's gains are a list of such.
fn is_gaining(action: &Value) -> bool
    ensures { result ≡ single.are_gains (rule.gains_at (view action.now)) }
{
    let found = action.get("gains");
    is_list(found) && members(found).iter().all(is_gain)
}

/// Whether all actions have gains.
fn has_gains(value: &Value) -> bool
    ensures { result ≡ single.form_6 (view value.now) }
{
    members(value.get("actions")).iter().all(is_gaining)
}

/// Whether the number that was found is narrow; true where there is none.
fn is_narrow(found: Option<&Value>) -> bool
    ensures { result ≡ rule.is_narrow (whole_of (seen found.entry)) }
{
    whole_or_zero(found).unsigned_abs() <= 1_000_000_000
}

/// Whether all gains of the action are narrow.
fn has_narrow_gains(action: &Value) -> bool
    ensures { result ≡ list_all (λ g. rule.is_narrow (whole_of (at_place 1 g))) (member_list (rule.gains_at (view action.now))) }
{
    members(action.get("gains"))
        .iter()
        .all(|gain| is_narrow(gain.get(1usize)))
}

/// Whether all gains of all actions are narrow.
fn has_narrow_actions(value: &Value) -> bool
    ensures { result ≡ list_all (λ a. list_all (λ g. rule.is_narrow (whole_of (at_place 1 g))) (member_list (rule.gains_at a)))
        (member_list (rule.actions_at (view value.now))) }
{
    members(value.get("actions")).iter().all(has_narrow_gains)
}

/// Whether all numbers of the table are narrow.
fn is_narrow_table(value: &Value) -> bool
    ensures { result ≡ rule.narrow (view value.now) }
{
    is_narrow(value.get("over")) && is_narrow(value.get("rest")) && has_narrow_actions(value)
}

/// The first rule on the file alone that the value breaks.
pub(crate) fn broken_form(value: &Value) -> Option<TableError>
    ensures { result ≡ first_broken (rule.form_rules (view value.now)) None }
{
    if !has_keys(value, &["actions", "format", "over", "rest"]) {
        Some(TableError::Form { rule: 1 })
    } else if !is_the_text(value.get("format"), "kuifje-gain-1") {
        Some(TableError::Form { rule: 2 })
    } else if !has_numbers(value) {
        Some(TableError::Form { rule: 3 })
    } else if !has_actions(value) {
        Some(TableError::Form { rule: 4 })
    } else if !has_names(value) {
        Some(TableError::Form { rule: 5 })
    } else if !has_gains(value) {
        Some(TableError::Form { rule: 6 })
    } else if !is_narrow_table(value) {
        Some(TableError::Wide)
    } else if members(value.get("actions")).is_empty() {
        Some(TableError::Empty)
    } else {
        None
    }
}

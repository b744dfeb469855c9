//! The rules of form on a certificate.

ghost use Rattle.std.specs.Prelude.{◌≡◌, ◌==◌, ◌&&◌, nat_le, length, map, None, take};
ghost use Rattle.std.specs.List.{list_all};
ghost use Rattle.kf_json.specs.Json.{is_list as is_a_list, members as member_list};
ghost use Rattle.serde_json.specs.View.{view};
ghost use Rattle.kf_cert.specs.Certificates as rule;
ghost use Rattle.kf_cert.specs.Forms as single;
ghost use Rattle.kf_gain.specs.Tables as gain_rule;
ghost use Rattle.kf_json.specs.Rules.{first_broken};
ghost use Rattle.kf_json.specs.Seen.{seen};

use crate::CertError;
use crate::numerals::{is_fraction_text, is_negative, is_positive_text, is_whole_text};
use kf_json::{has_keys, is_list, is_name, is_text, is_the_text, members, text};
use serde_json::Value;

/// Whether the verdict is yes.
pub(crate) fn says_yes(value: &Value) -> bool
    ensures { result ≡ rule.says_yes (view value.now) }
{
    is_the_text(value.get("verdict"), "yes")
}

/// Whether the verdict is no.
fn says_no(value: &Value) -> bool
    ensures { result ≡ single.says_no (view value.now) }
{
    is_the_text(value.get("verdict"), "no")
}

/// Whether the verdict is one of the two.
fn has_verdict(value: &Value) -> bool
    ensures { result ≡ single.form_1 (view value.now) }
{
    says_yes(value) || says_no(value)
}

/// Whether the keys are those of a matrix that stands row by row.
fn has_matrix_keys(value: &Value) -> bool
    ensures { result ≡ rule.has_matrix_keys (view value.now) }
{
    has_keys(value, &["format", "matrix", "verdict"])
}

/// Whether the keys are those of a matrix by named entries.
pub(crate) fn has_entry_keys(value: &Value) -> bool
    ensures { result ≡ rule.has_entry_keys (view value.now) }
{
    has_keys(value, &["columns", "entries", "format", "rows", "verdict"])
}

/// Whether the keys are those of a no.
fn has_table_keys(value: &Value) -> bool
    ensures { result ≡ rule.has_table_keys (view value.now) }
{
    has_keys(value, &["actions", "format", "over", "rest", "verdict"])
}

/// Whether the keys are those of its verdict, in one of its forms.
fn has_its_keys(value: &Value) -> bool
    ensures { result ≡ single.form_2 (view value.now) }
{
    if says_yes(value) {
        has_matrix_keys(value) || has_entry_keys(value)
    } else {
        has_table_keys(value)
    }
}

/// Whether the format is the first one.
fn is_first_format(value: &Value) -> bool
    ensures { result ≡ rule.is_first_format (view value.now) }
{
    is_the_text(value.get("format"), "kuifje-cert-1")
}

/// Whether the format is the second one.
fn is_second_format(value: &Value) -> bool
    ensures { result ≡ rule.is_second_format (view value.now) }
{
    is_the_text(value.get("format"), "kuifje-cert-2")
}

/// Whether the format is that of a yes with these keys.
fn has_yes_format(value: &Value) -> bool
    ensures { result ≡ rule.has_yes_format (view value.now) }
{
    if has_entry_keys(value) {
        is_second_format(value)
    } else {
        is_first_format(value)
    }
}

/// Whether the format is one of its form.
fn has_format(value: &Value) -> bool
    ensures { result ≡ single.form_3 (view value.now) }
{
    if says_yes(value) {
        has_yes_format(value)
    } else {
        is_first_format(value) || is_second_format(value)
    }
}

/// Whether a text was found that is a fraction.
fn is_fraction(found: Option<&Value>) -> bool
    ensures { result ≡ rule.is_fraction (seen found.entry) }
{
    is_text(found) && is_fraction_text(text(found))
}

/// Whether the value is a list of such.
fn is_row(value: &Value) -> bool
    ensures { result ≡ single.is_row (view value.now) }
{
    is_list(Some(value))
        && members(Some(value))
            .iter()
            .all(|fraction| is_fraction(Some(fraction)))
}

/// Whether the matrix is a list of such lists.
fn has_rows(value: &Value) -> bool
    ensures { result ≡ rule.has_rows (view value.now) }
{
    let found = value.get("matrix");
    is_list(found) && members(found).iter().all(|row| is_row(row))
}

/// Whether a text was found that is a whole number.
fn is_whole_number(found: Option<&Value>) -> bool
    ensures { result ≡ rule.is_whole_number (seen found.entry) }
{
    is_text(found) && is_whole_text(text(found))
}

/// Whether a text was found that is a whole number without a `-`.
fn is_size(found: Option<&Value>) -> bool
    ensures { result ≡ rule.is_size (seen found.entry) }
{
    is_whole_number(found) && !is_negative(text(found))
}

/// Whether the value is a list of so many.
fn is_list_of(value: &Value, count: usize) -> bool
    ensures { result ≡ (is_a_list (view value.now) && (length (member_list (view value.now)) == count)) }
{
    is_list(Some(value)) && members(Some(value)).len() == count
}

/// Whether the value is a list of three: a row and a column, which are such, and a fraction.
fn is_entry(value: &Value) -> bool
    ensures { result ≡ rule.is_entry (view value.now) }
{
    is_list_of(value, 3)
        && is_size(value.get(0usize))
        && is_size(value.get(1usize))
        && is_fraction(value.get(2usize))
}

/// Whether the named entries are a list of such lists.
fn are_entries(value: &Value) -> bool
    ensures { result ≡ (is_a_list (single.entries_at (view value.now))
        && list_all rule.is_entry (member_list (single.entries_at (view value.now)))) }
{
    let found = value.get("entries");
    is_list(found) && members(found).iter().all(|entry| is_entry(entry))
}

/// Whether there are sizes and such entries.
fn has_entries(value: &Value) -> bool
    ensures { result ≡ rule.has_entries (view value.now) }
{
    is_size(value.get("rows")) && is_size(value.get("columns")) && are_entries(value)
}

/// Whether the matrix stands in the way of its keys.
fn has_its_matrix(value: &Value) -> bool
    ensures { result ≡ single.has_its_matrix (view value.now) }
{
    if has_entry_keys(value) {
        has_entries(value)
    } else {
        has_rows(value)
    }
}

/// Whether a yes has such a matrix.
fn has_matrix(value: &Value) -> bool
    ensures { result ≡ single.form_4 (view value.now) }
{
    !says_yes(value) || has_its_matrix(value)
}

/// Whether `over` and `rest` are whole numbers, and `over` is at least 1.
fn has_numbers(value: &Value) -> bool
    ensures { result ≡ rule.has_numbers (view value.now) }
{
    is_whole_number(value.get("over"))
        && is_whole_number(value.get("rest"))
        && is_positive_text(text(value.get("over")))
}

/// Whether the value is an action's object.
fn is_action(value: &Value) -> bool
    ensures { result ≡ gain_rule.is_action (view value.now) }
{
    has_keys(value, &["gains", "name"])
}

/// Whether there is a value, and all are such objects.
fn are_actions(values: &[Value]) -> bool
    ensures { result ≡ (nat_le 1 (length values.now) && list_all gain_rule.is_action (map view values.now)) }
{
    1 <= values.len() && values.iter().all(|action| is_action(action))
}

/// Whether the actions are a list of at least one such object.
fn has_actions(value: &Value) -> bool
    ensures { result ≡ rule.has_actions (view value.now) }
{
    let found = value.get("actions");
    is_list(found) && are_actions(members(found))
}

/// Whether a no has these numbers and actions.
fn has_table(value: &Value) -> bool
    ensures { result ≡ single.form_5 (view value.now) }
{
    says_yes(value) || (has_numbers(value) && has_actions(value))
}

/// Whether the value is a list of two texts, the second a whole number.
fn is_gain(value: &Value) -> bool
    ensures { result ≡ rule.is_gain (view value.now) }
{
    is_list_of(value, 2) && is_text(value.get(0usize)) && is_whole_number(value.get(1usize))
}

/// Whether the action's gains are a list of such.
fn has_gains(action: &Value) -> bool
    ensures { result ≡ (is_a_list (gain_rule.gains_at (view action.now))
        && list_all rule.is_gain (member_list (gain_rule.gains_at (view action.now)))) }
{
    let found = action.get("gains");
    is_list(found) && members(found).iter().all(|gain| is_gain(gain))
}

/// Whether the action has a name and such gains.
fn is_named_action(action: &Value) -> bool
    ensures { result ≡ rule.is_named_action (view action.now) }
{
    is_name(action.get("name")) && has_gains(action)
}

/// Whether each action of a no is such.
fn has_named_actions(value: &Value) -> bool
    ensures { result ≡ single.form_6 (view value.now) }
{
    says_yes(value)
        || members(value.get("actions"))
            .iter()
            .all(|action| is_named_action(action))
}

/// The first rule of form that the value breaks.
pub(crate) fn broken_form(value: &Value) -> Option<CertError>
    ensures { result ≡ first_broken (take 6 (rule.rules (view value.now))) None }
{
    if !has_verdict(value) {
        Some(CertError::Form { rule: 1 })
    } else if !has_its_keys(value) {
        Some(CertError::Form { rule: 2 })
    } else if !has_format(value) {
        Some(CertError::Form { rule: 3 })
    } else if !has_matrix(value) {
        Some(CertError::Form { rule: 4 })
    } else if !has_table(value) {
        Some(CertError::Form { rule: 5 })
    } else if !has_named_actions(value) {
        Some(CertError::Form { rule: 6 })
    } else {
        None
    }
}

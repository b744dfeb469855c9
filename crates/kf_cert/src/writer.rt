//! The writing of certificates.

ghost use Rattle.std.specs.Prelude.{◌≡◌, ◌<◌, ◌++◌, ◌==◌, ◌∷◌, ℕ, List, [], map, unsigned_abs, Ok, IfOk, OnOk, codes, string_bytes};
ghost use Rattle.std.specs.List.{All};
ghost use Rattle.serde_json.specs.Data.{array, member, no_members, put as with_member, string};
ghost use Rattle.serde_json.specs.View.{items_view, members_view, view};
ghost use Rattle.kf_value.specs.Numbers.{target_size};
ghost use Rattle.kf_value.specs.Targets.{target_value_text};
ghost use Rattle.kf_value.specs.Views.{items_of};
ghost use Rattle.kf_frac.specs.Views.{num_of};
ghost use Rattle.kf_gain.specs.Views.{table_tree};
ghost use Rattle.kf_cert.specs.Shapes.{IsWritable, IsWritableAction};
ghost use Rattle.kf_refine.specs.Views.{fraction_of, matrix_tree, verdict_tree};
ghost use Rattle.kf_cert.specs.Certificates.{cert_of};
ghost use Rattle.kf_cert.specs.CertTexts.{action_data, cert_data, cert_text, named_data, named_of, row_entries};
ghost use Rattle.kf_cert.specs.Parts.{entry_data, gain_data, no_data};
ghost use Rattle.kf_cert.specs.Rows.{row_tree, rows_tree};
ghost use Rattle.kf_cert.specs.Views.{read_back, IsSmall, HasSmall};
ghost use Rattle.kf_cert.specs.Order.{widest as widest_of, rows_entries};

use kf_frac::Frac;
use kf_gain::{Action, GainEntry, GainTable};
use kf_refine::{Matrix, Verdict};
use kf_simplex::FracList;
use kf_value::{Mem, Target, print_target};
use serde_json::{Map, Value, put};
use std::alloc::{AllocError, Global};

/// The certificate of a verdict on hypers of this target, as one line of JSON without spaces.
pub fn write_cert(alloc: Global, v: &Verdict, t: &Target) -> Result<Vec<u8>, Mem>
    requires { IsWritable (items_of t.now) (verdict_tree v.now) }
    ensures text { IfOk result (λ bytes. bytes.items ≡ cert_text (items_of t.now) (verdict_tree v.now)) }
    ensures reads_back { IfOk result (λ bytes. cert_of bytes.items ≡ Ok (read_back (items_of t.now) (verdict_tree v.now))) }
{
    let mut line = verdict_value(alloc, v, t)?.to_vec(alloc)?;
    line.push(b'\n')?;
    Ok(line)
}

fn verdict_value(alloc: Global, verdict: &Verdict, target: &Target) -> Result<Value, Mem>
    requires { IsWritable (items_of target.now) (verdict_tree verdict.now) }
    ensures data { IfOk result (λ value. view value ≡ cert_data (items_of target.now) (verdict_tree verdict.now)) }
    ensures small { IfOk result (λ _. HasSmall (verdict_tree verdict.now)) }
{
    match verdict {
        Verdict::Yes(matrix) => yes_value(alloc, matrix),
        Verdict::No(table) => no_value(alloc, table, target),
    }
}

/// A matrix by its entries that aren't 0.
fn yes_value(alloc: Global, matrix: &Matrix) -> Result<Value, Mem>
    ensures data { IfOk result (λ value. view value ≡ named_data (named_of (matrix_tree matrix.now))) }
    ensures small { IfOk result (λ _. IsSmall (matrix_tree matrix.now)) }
{
    let rows = matrix.rows.as_slice();
    let entries = entry_values(alloc, rows)?;
    let mut members = verdict_members(alloc, "yes", "entries", entries)?;
    put_text(
        &mut members,
        alloc,
        "columns",
        widest(rows).to_string(alloc),
    )?;
    put_text(&mut members, alloc, "rows", rows.len().to_string(alloc))?;
    Ok(Value::Object(members))
}

/// The members that say the format and the verdict, beside one with this list.
fn verdict_members(
    alloc: Global,
    verdict: &str,
    key: &str,
    list: Vec<Value>,
) -> Result<Map<String, Value>, Mem>
    ensures { IfOk result (λ members. members_view members.entries
        ≡ with_member (codes "verdict") (string verdict.now) (with_member (codes "format") (string (codes "kuifje-cert-2"))
        (member key.now (array (items_view list.items)) no_members))) }
{
    let mut members = Map::new(alloc);
    put(&mut members, alloc, key, Value::Array(list))?;
    put_text(
        &mut members,
        alloc,
        "format",
        String::from_str(alloc, "kuifje-cert-2"),
    )?;
    put_text(
        &mut members,
        alloc,
        "verdict",
        String::from_str(alloc, verdict),
    )?;
    Ok(members)
}

/// Adds a member with the text that was made.
fn put_text(
    members: &mut Map<String, Value>,
    alloc: Global,
    key: &str,
    text: Result<String, AllocError>,
) -> Result<(), Mem>
    ensures { OnOk result ((bytes : List ℕ) → IfOk text (λ s. string_bytes s ≡ bytes)
        → members_view members.new.entries ≡ with_member key.now (string bytes) (members_view members.old.entries)) }
{
    put(members, alloc, key, Value::String(text?))?;
    Ok(())
}

/// Adds the text that was made to a list.
fn add_text(texts: &mut Vec<Value>, text: Result<String, AllocError>) -> Result<(), Mem>
    ensures { OnOk result ((bytes : List ℕ) → IfOk text (λ s. string_bytes s ≡ bytes)
        → map view texts.new.items ≡ map view texts.old.items ++ string bytes ∷ []) }
{
    texts.push(Value::String(text?))?;
    Ok(())
}

/// How long the longest row is.
fn widest(rows: &[FracList]) -> usize
    ensures { result ≡ widest_of (rows_tree rows.now) }
{
    let mut width = 0;
    for row in rows {
        width = width.max(row.as_slice().len());
    }
    width
}

/// The entries that aren't 0, row by row.
fn entry_values(alloc: Global, rows: &[FracList]) -> Result<Vec<Value>, Mem>
    ensures { IfOk result (λ values. map view values.items ≡ map entry_data (rows_entries 0 (rows_tree rows.now))) }
{
    let mut values = Vec::new(alloc);
    for i in 0..rows.len() {
        add_row(alloc, &mut values, i, rows[i].as_slice())?;
    }
    Ok(values)
}

/// Whether a fraction is 0.
pub(crate) fn is_zero(value: &Frac) -> bool
    ensures { result ≡ (unsigned_abs (num_of value.now) == 0) }
{
    value.num().unsigned_abs() == 0
}

/// Adds those of row `i`, in the order of their columns.
fn add_row(alloc: Global, values: &mut Vec<Value>, i: usize, row: &[Frac]) -> Result<(), Mem>
    ensures { OnOk result (map view values.new.items ≡ map view values.old.items ++ map entry_data (row_entries i 0 (row_tree row.now))) }
{
    for j in 0..row.len() {
        if !is_zero(&row[j]) {
            values.push(entry_value(alloc, i, j, &row[j])?)?;
        }
    }
    Ok(())
}

/// The texts of a row, a column and a value.
fn entry_value(alloc: Global, row: usize, column: usize, value: &Frac) -> Result<Value, Mem>
    ensures { IfOk result (λ made. view made ≡ entry_data (record { row = row; column = column; value = fraction_of value.now })) }
{
    let mut texts = Vec::new(alloc);
    add_text(&mut texts, row.to_string(alloc))?;
    add_text(&mut texts, column.to_string(alloc))?;
    add_text(&mut texts, value.to_string(alloc))?;
    Ok(Value::Array(texts))
}

fn no_value(alloc: Global, table: &GainTable, target: &Target) -> Result<Value, Mem>
    requires { All (IsWritableAction (items_of target.now)) table.now.actions }
    ensures { IfOk result (λ value. view value ≡ no_data (items_of target.now) (table_tree table.now)) }
{
    let actions = action_values(alloc, table.actions.as_slice(), target)?;
    let mut members = verdict_members(alloc, "no", "actions", actions)?;
    put_text(&mut members, alloc, "over", table.over.to_string(alloc))?;
    put_text(&mut members, alloc, "rest", table.rest.to_string(alloc))?;
    Ok(Value::Object(members))
}

fn action_values(alloc: Global, actions: &[Action], target: &Target) -> Result<Vec<Value>, Mem>
    requires { All (IsWritableAction (items_of target.now)) actions.now }
    ensures { IfOk result (λ values. map view values.items ≡ map (action_data (items_of target.now)) actions.now) }
{
    let mut values = Vec::new(alloc);
    for action in actions {
        values.push(action_value(alloc, action, target)?)?;
    }
    Ok(values)
}

fn action_value(alloc: Global, action: &Action, target: &Target) -> Result<Value, Mem>
    requires { IsWritableAction (items_of target.now) action.now }
    ensures { IfOk result (λ value. view value ≡ action_data (items_of target.now) action.now) }
{
    let gains = gain_values(alloc, action.gains.as_slice(), target)?;
    let mut members = Map::new(alloc);
    put(&mut members, alloc, "gains", Value::Array(gains))?;
    let name = String::from_str(alloc, action.name.as_str());
    put_text(&mut members, alloc, "name", name)?;
    Ok(Value::Object(members))
}

fn gain_values(alloc: Global, gains: &[GainEntry], target: &Target) -> Result<Vec<Value>, Mem>
    requires { All (λ e. e.value < target_size (items_of target.now)) gains.now }
    ensures { IfOk result (λ values. map view values.items ≡ map (gain_data (items_of target.now)) gains.now) }
{
    let mut values = Vec::new(alloc);
    for entry in gains {
        values.push(gain_value(alloc, entry, target)?)?;
    }
    Ok(values)
}

/// The text of a value, and that of its gain.
fn gain_value(alloc: Global, entry: &GainEntry, target: &Target) -> Result<Value, Mem>
    requires { entry.now.value < target_size (items_of target.now) }
    ensures { IfOk result (λ value. view value ≡ gain_data (items_of target.now) entry.now) }
{
    let text = value_text(alloc, entry.value, target)?;
    let mut texts = Vec::new(alloc);
    texts.push(Value::String(text))?;
    add_text(&mut texts, entry.gain.to_string(alloc))?;
    Ok(Value::Array(texts))
}

/// The text of the target's value with this number.
fn value_text(alloc: Global, number: u64, target: &Target) -> Result<String, Mem>
    requires { number < target_size (items_of target.now) }
    ensures { IfOk result (λ text. string_bytes text ≡ target_value_text (items_of target.now) number) }
{
    let mut bytes = Vec::new(alloc);
    print_target(alloc, target, number, &mut bytes)?;
    Ok(String::from_utf8(bytes).unwrap())
}

//! What a certificate says, unless a number is too wide.

ghost use Rattle.std.specs.Prelude.{◌≡◌, ◌≢◌, ◌++◌, ◌∷◌, [], map, Ok, Err, IfOk, IfErr, OnOk, true, false};
ghost use Rattle.std.specs.List.{list_all};
ghost use Rattle.serde_json.specs.View.{view};
ghost use Rattle.kf_json.specs.Json.{members as member_list, text_of};
ghost use Rattle.kf_json.specs.Seen.{seen};
ghost use Rattle.kf_refine.specs.Views.{fraction_of, matrix_tree};
ghost use Rattle.kf_cert.specs.Certificates.{named_said, table_said, cert_said};
ghost use Rattle.kf_cert.specs.Parts.{row_said, entry_said, action_said, yes_said};
ghost use Rattle.kf_cert.specs.Numbers as number;
ghost use Rattle.kf_cert.specs.Reading.{gain_said, reads_fraction, reads_row, reads_matrix, reads_whole, reads_entry, reads_named, reads_yes, reads_gain, reads_action, reads_table, reads_cert};
ghost use Rattle.kf_cert.specs.Views.{cert_tree, entry_tree, named_table, named_tree};
ghost use Rattle.kf_cert.specs.declared.cert.CertError.TheVariants as broken;
ghost use Rattle.kf_cert.specs.Forms.{matrix_at, entries_at};
ghost use Rattle.kf_gain.specs.Tables.{actions_at, gains_at};

use crate::forms::{has_entry_keys, says_yes};
use crate::numerals::{fraction_said, whole_said};
use crate::{
    Cert, CertAction, CertActionList, CertEntry, CertEntryList, CertError, CertGain, NamedEntry,
    NamedEntryList, NamedMatrix,
};
use kf_frac::Frac;
use kf_json::{members, text};
use kf_refine::{FracRowList, Matrix};
use kf_simplex::FracList;
use kf_value::Name;
use serde_json::Value;
use std::alloc::Global;

/// Adds what was read to a list.
fn add_read<T: Drop>(made: &mut Vec<T>, read: Result<T, CertError>) -> Result<(), CertError>
    ensures ok { OnOk result ((x : T) × (read ≡ Ok x) × (made.new.items ≡ made.old.items ++ x ∷ [])) }
    ensures err { IfErr result (λ e. e ≢ broken.Mem → read ≡ Err e) }
{
    made.push(read?)?;
    Ok(())
}

/// The fraction that was found.
fn fraction(found: Option<&Value>) -> Result<Frac, CertError>
    ensures ok { IfOk result (λ f. fraction_of f ≡ number.fraction_said (text_of (seen found.entry))) }
    ensures reads { IfOk result (λ _. reads_fraction (seen found.entry) ≡ true) }
    ensures err { IfErr result (λ e. (e ≡ broken.Wide) × (reads_fraction (seen found.entry) ≡ false)) }
{
    fraction_said(text(found)).ok_or(CertError::Wide)
}

/// The fractions of a row.
fn row(alloc: Global, value: &Value) -> Result<FracList, CertError>
    ensures ok { IfOk result (λ made. map fraction_of made ≡ row_said (view value.now)) }
    ensures reads { IfOk result (λ _. reads_row (view value.now) ≡ true) }
    ensures err { IfErr result (λ e. e ≢ broken.Mem → (e ≡ broken.Wide) × (reads_row (view value.now) ≡ false)) }
{
    let mut made = Vec::new(alloc);
    for value in members(Some(value)) {
        add_read(&mut made, fraction(Some(value)))?;
    }
    Ok(FracList::new(made))
}

/// The matrix of a yes.
fn matrix(alloc: Global, cert: &Value) -> Result<Matrix, CertError>
    ensures ok { IfOk result (λ m. matrix_tree m ≡ map row_said (member_list (matrix_at (view cert.now)))) }
    ensures reads { IfOk result (λ _. reads_matrix (view cert.now) ≡ true) }
    ensures err { IfErr result (λ e. e ≢ broken.Mem → (e ≡ broken.Wide) × (reads_matrix (view cert.now) ≡ false)) }
{
    let mut made = Vec::new(alloc);
    for value in members(cert.get("matrix")) {
        add_read(&mut made, row(alloc, value))?;
    }
    Ok(Matrix {
        rows: FracRowList::new(made),
    })
}

/// The whole number that was found.
fn whole(found: Option<&Value>) -> Result<i128, CertError>
    ensures ok { IfOk result (λ z. z ≡ number.whole_said (text_of (seen found.entry))) }
    ensures reads { IfOk result (λ _. reads_whole (seen found.entry) ≡ true) }
    ensures err { IfErr result (λ e. (e ≡ broken.Wide) × (reads_whole (seen found.entry) ≡ false)) }
{
    whole_said(text(found)).ok_or(CertError::Wide)
}

/// The row, the column and the value of a named entry.
fn named_entry(entry: &Value) -> Result<NamedEntry, CertError>
    ensures ok { IfOk result (λ e. entry_tree e ≡ entry_said (view entry.now)) }
    ensures reads { IfOk result (λ _. reads_entry (view entry.now) ≡ true) }
    ensures err { IfErr result (λ e. (e ≡ broken.Wide) × (reads_entry (view entry.now) ≡ false)) }
{
    let row = whole(entry.get(0usize))?;
    let column = whole(entry.get(1usize))?;
    let value = fraction(entry.get(2usize))?;
    Ok(NamedEntry {
        row: row.unsigned_abs(),
        column: column.unsigned_abs(),
        value,
    })
}

/// The named entries of a yes, in the file's order.
fn named_entries(alloc: Global, cert: &Value) -> Result<NamedEntryList, CertError>
    ensures ok { IfOk result (λ made. map entry_tree made ≡ map entry_said (member_list (entries_at (view cert.now)))) }
    ensures reads { IfOk result (λ _. list_all reads_entry (member_list (entries_at (view cert.now))) ≡ true) }
    ensures err { IfErr result (λ e. e ≢ broken.Mem → (e ≡ broken.Wide)
        × (list_all reads_entry (member_list (entries_at (view cert.now))) ≡ false)) }
{
    let mut made = Vec::new(alloc);
    for value in members(cert.get("entries")) {
        add_read(&mut made, named_entry(value))?;
    }
    Ok(NamedEntryList::new(made))
}

/// The matrix of a yes by its named entries.
fn named_matrix(alloc: Global, cert: &Value) -> Result<NamedMatrix, CertError>
    ensures ok { IfOk result (λ m. named_tree m ≡ named_said (view cert.now)) }
    ensures reads { IfOk result (λ _. reads_named (view cert.now) ≡ true) }
    ensures err { IfErr result (λ e. e ≢ broken.Mem → (e ≡ broken.Wide) × (reads_named (view cert.now) ≡ false)) }
{
    let rows = whole(cert.get("rows"))?;
    let columns = whole(cert.get("columns"))?;
    let entries = named_entries(alloc, cert)?;
    Ok(NamedMatrix {
        rows: rows.unsigned_abs(),
        columns: columns.unsigned_abs(),
        entries,
    })
}

/// The certificate of a yes, in the way of its keys.
fn yes(alloc: Global, value: &Value) -> Result<Cert, CertError>
    ensures ok { IfOk result (λ c. cert_tree c ≡ yes_said (view value.now)) }
    ensures reads { IfOk result (λ _. reads_yes (view value.now) ≡ true) }
    ensures err { IfErr result (λ e. e ≢ broken.Mem → (e ≡ broken.Wide) × (reads_yes (view value.now) ≡ false)) }
{
    if has_entry_keys(value) {
        let matrix = named_matrix(alloc, value)?;
        Ok(Cert::Named(matrix))
    } else {
        let matrix = matrix(alloc, value)?;
        Ok(Cert::Yes(matrix))
    }
}

/// The text and the number of a gain.
fn entry(alloc: Global, gain: &Value) -> Result<CertEntry, CertError>
    ensures ok { IfOk result (λ e. e ≡ gain_said (view gain.now)) }
    ensures reads { IfOk result (λ _. reads_gain (view gain.now) ≡ true) }
    ensures err { IfErr result (λ e. e ≢ broken.Mem → (e ≡ broken.Wide) × (reads_gain (view gain.now) ≡ false)) }
{
    let number = whole(gain.get(1usize))?;
    let value = String::from_str(alloc, text(gain.get(0usize)))?;
    Ok(CertEntry {
        value: Name::new(value),
        gain: number,
    })
}

/// The gains that an action names, in the file's order.
fn entries(alloc: Global, action: &Value) -> Result<CertEntryList, CertError>
    ensures ok { IfOk result (λ made. made ≡ map gain_said (member_list (gains_at (view action.now)))) }
    ensures reads { IfOk result (λ _. reads_action (view action.now) ≡ true) }
    ensures err { IfErr result (λ e. e ≢ broken.Mem → (e ≡ broken.Wide) × (reads_action (view action.now) ≡ false)) }
{
    let mut made = Vec::new(alloc);
    for gain in members(action.get("gains")) {
        add_read(&mut made, entry(alloc, gain))?;
    }
    Ok(CertEntryList::new(made))
}

/// The action that a value says.
fn action(alloc: Global, value: &Value) -> Result<CertAction, CertError>
    ensures ok { IfOk result (λ a. a ≡ action_said (view value.now)) }
    ensures reads { IfOk result (λ _. reads_action (view value.now) ≡ true) }
    ensures err { IfErr result (λ e. e ≢ broken.Mem → (e ≡ broken.Wide) × (reads_action (view value.now) ≡ false)) }
{
    let name = String::from_str(alloc, text(value.get("name")))?;
    let gains = entries(alloc, value)?;
    Ok(CertAction {
        name: Name::new(name),
        gains,
    })
}

/// The actions of a no, in the file's order.
fn actions(alloc: Global, cert: &Value) -> Result<CertActionList, CertError>
    ensures ok { IfOk result (λ made. made ≡ map action_said (member_list (actions_at (view cert.now)))) }
    ensures reads { IfOk result (λ _. list_all reads_action (member_list (actions_at (view cert.now))) ≡ true) }
    ensures err { IfErr result (λ e. e ≢ broken.Mem → (e ≡ broken.Wide)
        × (list_all reads_action (member_list (actions_at (view cert.now))) ≡ false)) }
{
    let mut made = Vec::new(alloc);
    for value in members(cert.get("actions")) {
        add_read(&mut made, action(alloc, value))?;
    }
    Ok(CertActionList::new(made))
}

/// The gain table of a no.
fn table(alloc: Global, cert: &Value) -> Result<CertGain, CertError>
    ensures ok { IfOk result (λ t. named_table t ≡ table_said (view cert.now)) }
    ensures reads { IfOk result (λ _. reads_table (view cert.now) ≡ true) }
    ensures err { IfErr result (λ e. e ≢ broken.Mem → (e ≡ broken.Wide) × (reads_table (view cert.now) ≡ false)) }
{
    let over = whole(cert.get("over"))?;
    let rest = whole(cert.get("rest"))?;
    let actions = actions(alloc, cert)?;
    Ok(CertGain {
        over: over.unsigned_abs(),
        rest,
        actions,
    })
}

/// The certificate that a value of its form says; `Wide` where a number is too wide.
pub(crate) fn cert(alloc: Global, value: &Value) -> Result<Cert, CertError>
    ensures ok { IfOk result (λ c. cert_tree c ≡ cert_said (view value.now)) }
    ensures reads { IfOk result (λ _. reads_cert (view value.now) ≡ true) }
    ensures err { IfErr result (λ e. e ≢ broken.Mem → (e ≡ broken.Wide) × (reads_cert (view value.now) ≡ false)) }
{
    if says_yes(value) {
        let cert = yes(alloc, value)?;
        Ok(cert)
    } else {
        let table = table(alloc, value)?;
        Ok(Cert::No(table))
    }
}

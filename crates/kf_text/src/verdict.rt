ghost use Rattle.std.specs.Prelude.{◌≡◌, ◌<◌, ◌++◌, ◌∷◌, [], All, IfOk, OnOk, flat_map, map, length};
ghost use Rattle.kf_value.specs.Numbers.{target_size};
ghost use Rattle.kf_value.specs.Views.{items_of};
ghost use Rattle.kf_gain.specs.Views.{table_tree};
ghost use Rattle.kf_cert.specs.Shapes.{IsWritable, IsWritableAction};
ghost use Rattle.kf_refine.specs.Verdicts.{Yes, No};
ghost use Rattle.kf_refine.specs.Views.{fraction_of, matrix_tree, verdict_tree};
ghost use Rattle.kf_text.specs.Views.{own_text};
ghost use Rattle.kf_text.specs.VerdictTexts.{action_lines, verdict_text as text_of_verdict};
ghost use Rattle.kf_text.specs.Parts.{actions_lines, fractions_line, gain_line, no_text, shape_line, spaced, width as columns_of, yes_text};

use crate::items::{print_bytes, print_count, print_frac, print_line, print_number};
use kf_frac::Frac;
use kf_gain::{Action, GainEntry, GainTable};
use kf_refine::{Matrix, Verdict};
use kf_simplex::FracList;
use kf_value::{Mem, Target};
use std::alloc::Global;

// Appends fractions, a space between them.
fn print_fractions(row: &[Frac], out: &mut Vec<u8>) -> Result<(), Mem>
    ensures { OnOk result (out.new.items ≡ out.old.items ++ spaced (map own_text row.now)) }
{
    let [first, others @ ..] = row else {
        return Ok(());
    };
    print_frac(*first, out)?;
    for fraction in others {
        print_bytes(b" ", out)?;
        print_frac(*fraction, out)?;
    }
    Ok(())
}

// Appends the line of a row of a matrix.
fn print_row(row: &FracList, out: &mut Vec<u8>) -> Result<(), Mem>
    ensures { OnOk result (out.new.items ≡ out.old.items ++ fractions_line (map fraction_of row.now)) }
{
    print_fractions(row.as_slice(), out)?;
    print_bytes(b"\n", out)
}

// How many columns the matrix has.
fn width(rows: &[FracList]) -> usize
    ensures { result ≡ columns_of (map (λ row. map fraction_of row) rows.now) }
{
    match rows {
        [first, ..] => first.as_slice().len(),
        [] => 0,
    }
}

// Appends the line of how many rows and columns a matrix has.
fn print_shape(rows: usize, columns: usize, out: &mut Vec<u8>) -> Result<(), Mem>
    ensures { OnOk result (out.new.items ≡ out.old.items ++ shape_line rows columns) }
{
    print_bytes(b"matrix ", out)?;
    print_number(rows, out)?;
    print_count(b" ", columns, out)
}

// Appends the lines of rows.
fn print_rows(rows: &[FracList], out: &mut Vec<u8>) -> Result<(), Mem>
    ensures { OnOk result (out.new.items ≡ out.old.items ++ flat_map fractions_line (map (λ row. map fraction_of row) rows.now)) }
{
    for row in rows {
        print_row(row, out)?;
    }
    Ok(())
}

// Appends the lines of a matrix.
fn print_matrix(matrix: &Matrix, out: &mut Vec<u8>) -> Result<(), Mem>
    ensures { OnOk result (out.new.items ≡ out.old.items ++ yes_text (matrix_tree matrix.now)) }
{
    let rows = matrix.rows.as_slice();
    print_bytes(b"refines yes\n", out)?;
    print_shape(rows.len(), width(rows), out)?;
    print_rows(rows, out)
}

// Appends the line of a value and what an action gains there.
fn print_gain(
    alloc: Global,
    target: &Target,
    entry: &GainEntry,
    out: &mut Vec<u8>,
) -> Result<(), Mem>
    requires { entry.now.value < target_size (items_of target.now) }
    ensures { OnOk result (out.new.items ≡ out.old.items ++ gain_line (items_of target.now) entry.now) }
{
    print_line(alloc, target, entry.value, b" ", out)?;
    print_count(b"", entry.gain, out)
}

// Appends the lines of an action.
fn print_action(
    alloc: Global,
    target: &Target,
    action: &Action,
    out: &mut Vec<u8>,
) -> Result<(), Mem>
    requires { All (λ e. e.value < target_size (items_of target.now)) action.now.gains }
    ensures { OnOk result (out.new.items ≡ out.old.items ++ action_lines (items_of target.now) action.now) }
{
    print_bytes(b"action ", out)?;
    print_bytes(action.name.as_str().as_bytes(), out)?;
    print_bytes(b"\n", out)?;
    for entry in action.gains.as_slice() {
        print_gain(alloc, target, entry, out)?;
    }
    Ok(())
}

// Appends how many actions there are, and the lines of each.
fn print_actions(
    alloc: Global,
    target: &Target,
    actions: &[Action],
    out: &mut Vec<u8>,
) -> Result<(), Mem>
    requires { All (IsWritableAction (items_of target.now)) actions.now }
    ensures { OnOk result (out.new.items ≡ out.old.items ++ actions_lines (items_of target.now) actions.now) }
{
    print_count(b"actions ", actions.len(), out)?;
    for action in actions {
        print_action(alloc, target, action, out)?;
    }
    Ok(())
}

// Appends the lines of a gain table: what its gains are divided by, the gain at values that no action names, and its actions.
fn print_table(
    alloc: Global,
    target: &Target,
    table: &GainTable,
    out: &mut Vec<u8>,
) -> Result<(), Mem>
    requires { IsWritable (items_of target.now) (No (table_tree table.now)) }
    ensures { OnOk result (out.new.items ≡ out.old.items ++ no_text (items_of target.now) (table_tree table.now)) }
{
    print_bytes(b"refines no\n", out)?;
    print_count(b"over ", table.over, out)?;
    print_count(b"rest ", table.rest, out)?;
    print_actions(alloc, target, table.actions.as_slice(), out)
}

/// The printed verdict on hypers of this target: the matrix of a yes, or the gain table of a no.
pub fn verdict_text(alloc: Global, v: &Verdict, t: &Target) -> Result<Vec<u8>, Mem>
    requires { IsWritable (items_of t.now) (verdict_tree v.now) }
    ensures { IfOk result (λ text. text.items ≡ text_of_verdict (items_of t.now) (verdict_tree v.now)) }
{
    let mut out = Vec::new(alloc);
    match v {
        Verdict::Yes(matrix) => print_matrix(matrix, &mut out)?,
        Verdict::No(table) => print_table(alloc, t, table, &mut out)?,
    }
    Ok(out)
}

ghost use Rattle.std.specs.Prelude.{◌≡◌, ◌≤◌, ◌<◌, ◌++◌, IfOk, OnOk, length};
ghost use Rattle.kf_frac.specs.Fractions.{limit};
ghost use Rattle.kf_value.specs.Numbers.{target_size};
ghost use Rattle.kf_value.specs.Views.{items_of};
ghost use Rattle.kf_column.specs.Columns.{total};
ghost use Rattle.kf_column.specs.Shapes.{IsBelow};
ghost use Rattle.kf_hyper.specs.Tables.{table_row};
ghost use Rattle.kf_hyper.specs.Views.{rows_of};
ghost use Rattle.kf_text.specs.Parts.{table_lines};
ghost use Rattle.kf_text.specs.Texts.{row_lines, trace_text as text_of_table};

use crate::entries::print_entries;
use crate::items::{print_about, print_bytes, print_count, print_fraction, print_trace};
use kf_frac::share;
use kf_hyper::{TraceRow, TraceTable};
use kf_value::{Mem, Target};
use std::alloc::Global;

// Appends the lines before the traces.
fn print_head(table: &TraceTable, out: &mut Vec<u8>) -> Result<(), Mem>
    ensures { OnOk result (out.new.items ≡ out.old.items ++ table_lines (items_of table.now.target) table.now.scale (length (rows_of table.now))) }
{
    print_about(&table.target, out)?;
    print_count(b"scale ", table.scale, out)?;
    print_count(b"traces ", table.rows.as_slice().len(), out)
}

// Appends the lines of a trace.
fn print_row(
    alloc: Global,
    target: &Target,
    scale: u128,
    row: &TraceRow,
    out: &mut Vec<u8>,
) -> Result<(), Mem>
    requires within { IsBelow (target_size (items_of target.now)) row.now.column }
    requires parts { total row.now.column ≤ scale }
    requires some { 0 < scale }
    requires narrow { scale ≤ limit }
    ensures { OnOk result (out.new.items ≡ out.old.items ++ row_lines (items_of target.now) scale (table_row row.now)) }
{
    let entries = row.column.entries().as_slice();
    let weight = share(row.column.total(), scale);
    print_bytes(b"trace ", out)?;
    print_trace(alloc, row.trace.as_slice(), out)?;
    print_fraction(b" weight ", weight, out)?;
    print_entries(alloc, target, scale, entries, out)
}

/// The printed table: its target, its scale, and each trace with its probability and those of its values.
pub fn trace_text(alloc: Global, table: &TraceTable) -> Result<Vec<u8>, Mem>
    ensures { IfOk result (λ text. text.items ≡ text_of_table (items_of table.now.target) table.now.scale (rows_of table.now)) }
{
    let mut out = Vec::new(alloc);
    print_head(table, &mut out)?;
    for row in table.rows.as_slice() {
        print_row(alloc, &table.target, table.scale, row, &mut out)?;
    }
    Ok(out)
}

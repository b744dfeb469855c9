ghost use Rattle.std.specs.Prelude.{◌≡◌, ◌<◌, ◌++◌, IfOk, OnOk, flat_map, length, slice_index};
ghost use Rattle.kf_channel.specs.Views.{target_of, secrets_of, rows_of, row_at};
ghost use Rattle.kf_text.specs.Texts.{secret_lines, channel_text as text_of_channel};
ghost use Rattle.kf_text.specs.Parts.{cell_line, column_line, columns_lines, rows_lines};

use crate::items::{
    print_about, print_bytes, print_count, print_fraction, print_number, print_trace,
};
use kf_channel::Channel;
use kf_value::{Mem, print_target};
use std::alloc::Global;

// Appends the line of the column `j`.
fn print_column(alloc: Global, channel: &Channel, j: usize, out: &mut Vec<u8>) -> Result<(), Mem>
    requires { j < length (rows_of channel.now) }
    ensures { OnOk result (out.new.items ≡ out.old.items ++ column_line (j, row_at channel.now j)) }
{
    print_bytes(b"column ", out)?;
    print_number(j, out)?;
    print_bytes(b" ", out)?;
    print_trace(alloc, channel.trace(j).as_slice(), out)?;
    print_bytes(b"\n", out)
}

// Appends how many columns there are, and the line of each.
fn print_columns(alloc: Global, channel: &Channel, out: &mut Vec<u8>) -> Result<(), Mem>
    ensures { OnOk result (out.new.items ≡ out.old.items ++ columns_lines (rows_of channel.now)) }
{
    let count = channel.columns();
    print_count(b"columns ", count, out)?;
    for j in 0..count {
        print_column(alloc, channel, j, out)?;
    }
    Ok(())
}

// Appends the line of the cell of the secret `i` and the column `j`.
fn print_cell(channel: &Channel, i: usize, j: usize, out: &mut Vec<u8>) -> Result<(), Mem>
    requires secret { i < length (secrets_of channel.now) }
    requires trace { j < length (rows_of channel.now) }
    ensures { OnOk result (out.new.items ≡ out.old.items ++ cell_line (rows_of channel.now) (slice_index (secrets_of channel.now) i) (row_at channel.now j)) }
{
    let cell = channel.cell(i, j);
    print_fraction(b"  ", cell, out)
}

// Appends the lines of all cells of the secret `i`.
fn print_cells(channel: &Channel, i: usize, out: &mut Vec<u8>) -> Result<(), Mem>
    requires { i < length (secrets_of channel.now) }
    ensures { OnOk result (out.new.items ≡ out.old.items ++ flat_map (cell_line (rows_of channel.now) (slice_index (secrets_of channel.now) i)) (rows_of channel.now)) }
{
    for j in 0..channel.columns() {
        print_cell(channel, i, j, out)?;
    }
    Ok(())
}

// Appends the lines of the secret `i`.
fn print_secret(alloc: Global, channel: &Channel, i: usize, out: &mut Vec<u8>) -> Result<(), Mem>
    requires { i < length (secrets_of channel.now) }
    ensures { OnOk result (out.new.items ≡ out.old.items ++ secret_lines (target_of channel.now) (rows_of channel.now) (slice_index (secrets_of channel.now) i)) }
{
    print_bytes(b"row ", out)?;
    print_target(alloc, channel.target(), channel.secret(i), out)?;
    print_bytes(b"\n", out)?;
    print_cells(channel, i, out)
}

// Appends how many secrets there are, and the lines of each.
fn print_secrets(alloc: Global, channel: &Channel, out: &mut Vec<u8>) -> Result<(), Mem>
    ensures { OnOk result (out.new.items ≡ out.old.items ++ rows_lines (target_of channel.now) (rows_of channel.now) (secrets_of channel.now)) }
{
    let count = channel.rows();
    print_count(b"rows ", count, out)?;
    for i in 0..count {
        print_secret(alloc, channel, i, out)?;
    }
    Ok(())
}

/// The printed channel: its target, its columns with their traces, and each secret with its cells.
pub fn channel_text(alloc: Global, channel: &Channel) -> Result<Vec<u8>, Mem>
    ensures { IfOk result (λ text. text.items ≡ text_of_channel (target_of channel.now) (rows_of channel.now) (secrets_of channel.now)) }
{
    let mut out = Vec::new(alloc);
    print_about(channel.target(), &mut out)?;
    print_columns(alloc, channel, &mut out)?;
    print_secrets(alloc, channel, &mut out)?;
    Ok(out)
}

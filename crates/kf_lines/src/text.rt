//! The printed lines.

ghost use Rattle.std.specs.Prelude.{◌≡◌, ◌≤◌, ◌++◌, ℕ, IfOk, OnOk, codes, flat_map, length};
ghost use Rattle.kf_lines.specs.LineTexts.{lines_text as text_of_lines};
ghost use Rattle.kf_lines.specs.Summaries.{LinesTree};
ghost use Rattle.kf_text.specs.Texts.{line};
ghost use Rattle.kf_text.specs.Views.{own_text};
ghost use Rattle.kf_lines.specs.Views.{ShowLines, ShowsSummary, own_line, own_text_of, place_text};

use crate::summary::{Line, LineList, Summary};
use kf_frac::Frac;
use kf_load::place;
use kf_value::Mem;
use std::alloc::Global;

// Appends a fraction after its name, and ends the line.
fn print_fraction(alloc: Global, name: &[u8], fraction: Frac, out: &mut Vec<u8>) -> Result<(), Mem>
    ensures { OnOk result (out.new.items ≡ out.old.items ++ line (name.now ++ own_text fraction)) }
{
    out.extend_from_slice(name)?;
    let text = format!(in alloc; "{fraction}\n")?;
    out.extend_from_slice(text.as_bytes())?;
    Ok(())
}

// Appends the line of a summary, after what it is a summary of.
fn print_summary(alloc: Global, name: &[u8], s: &Summary, out: &mut Vec<u8>) -> Result<(), Mem>
    ensures { OnOk result (out.new.items ≡ out.old.items ++ own_line name.now s.now) }
{
    out.extend_from_slice(name)?;
    let inners = s.inners;
    let text = format!(in alloc; " inners {inners}")?;
    out.extend_from_slice(text.as_bytes())?;
    print_fraction(alloc, b" posterior ", s.posterior, out)?;
    Ok(())
}

// Appends the line of a statement of the text that has these bytes.
fn print_line(alloc: Global, bytes: &[u8], line: &Line, out: &mut Vec<u8>) -> Result<(), Mem>
    requires { length bytes.now ≤ 1048576 }
    ensures { OnOk result (out.new.items ≡ out.old.items ++ own_text_of bytes.now line.now) }
{
    let (row, column) = place(bytes, line.at);
    let name = format!(in alloc; "{row}:{column}")?;
    print_summary(alloc, name.as_bytes(), &line.left, out)
}

// Appends the lines of statements.
fn print_lines(alloc: Global, bytes: &[u8], lines: &[Line], out: &mut Vec<u8>) -> Result<(), Mem>
    requires { length bytes.now ≤ 1048576 }
    ensures { OnOk result (out.new.items ≡ out.old.items ++ flat_map (own_text_of bytes.now) lines.now) }
{
    for line in lines {
        print_line(alloc, bytes, line, out)?;
    }
    Ok(())
}

/// The printed summary of a whole program, and the lines of its statements, each with its place in the text that has these bytes.
pub(crate) fn lines_text(
    alloc: Global,
    bytes: &[u8],
    all: &Summary,
    lines: &LineList,
) -> Result<Vec<u8>, Mem>
    requires { length bytes.now ≤ 1048576 }
    ensures { (whole : ℕ) (tree : LinesTree) → ShowsSummary whole tree.all all.now → ShowLines whole tree.lines lines.now
        → IfOk result (λ text. text.items ≡ text_of_lines bytes.now whole tree) }
{
    let mut out = Vec::new(alloc);
    print_summary(alloc, b"all", all, &mut out)?;
    print_lines(alloc, bytes, lines.as_slice(), &mut out)?;
    Ok(out)
}

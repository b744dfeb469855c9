ghost use Rattle.std.specs.Prelude.{◌≡◌, ◌++◌, [], ℕ, List, IfOk, OnOk, codes, flat_map};
ghost use Rattle.std.specs.List.{enumerate_from};
ghost use Rattle.kf_quiet.specs.Views.{ShowBlames};
ghost use Rattle.kf_quiet.specs.Summaries.{SummaryTree};
ghost use Rattle.kf_text.specs.BlameTexts.{blame_text as text_of_blame};
ghost use Rattle.kf_text.specs.BlameViews.{own_blame_line, own_without_line};

use crate::items::{print_bytes, print_fraction, print_number};
use kf_quiet::{Blame, BlameList};
use kf_value::Mem;
use std::alloc::Global;

// Appends the line of a blame after what it is a blame of.
fn print_blame(blame: Blame, out: &mut Vec<u8>) -> Result<(), Mem>
    ensures { OnOk result (out.new.items ≡ out.old.items ++ own_blame_line [] blame) }
{
    print_bytes(b" inners ", out)?;
    print_number(blame.inners, out)?;
    print_fraction(b" bayes ", blame.bayes, out)
}

// Appends the line of the whole program.
fn print_all(blame: Blame, out: &mut Vec<u8>) -> Result<(), Mem>
    ensures { OnOk result (out.new.items ≡ out.old.items ++ own_blame_line (codes "all") blame) }
{
    print_bytes(b"all", out)?;
    print_blame(blame, out)
}

// Appends the line where the outermost statement of this number is quiet.
fn print_without(i: usize, blame: Blame, out: &mut Vec<u8>) -> Result<(), Mem>
    ensures { OnOk result (out.new.items ≡ out.old.items ++ own_without_line (i, blame)) }
{
    print_bytes(b"without ", out)?;
    print_number(i, out)?;
    print_blame(blame, out)
}

// Appends the lines of the outermost statements, numbered from 0.
fn print_others(others: &[Blame], out: &mut Vec<u8>) -> Result<(), Mem>
    ensures { OnOk result (out.new.items ≡ out.old.items ++ flat_map own_without_line (enumerate_from 0 others.now)) }
{
    for i in 0..others.len() {
        print_without(i, others[i], out)?;
    }
    Ok(())
}

/// The printed blames: a line for the whole program, and one for each outermost statement, numbered from 0, with how many inners
/// there are and the posterior Bayes vulnerability.
pub fn blame_text(alloc: Global, b: &BlameList) -> Result<Vec<u8>, Mem>
    ensures { (scale : ℕ) (trees : List SummaryTree) → ShowBlames scale trees b.now
        → IfOk result (λ text. text.items ≡ text_of_blame scale trees) }
{
    let mut out = Vec::new(alloc);
    let [all, others @ ..] = b.as_slice() else {
        return Ok(out);
    };
    print_all(*all, &mut out)?;
    print_others(others, &mut out)?;
    Ok(out)
}

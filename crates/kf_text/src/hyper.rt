ghost use Rattle.std.specs.Prelude.{◌≡◌, ◌<◌, ◌++◌, IfOk, OnOk, flat_map, length};
ghost use Rattle.kf_column.specs.Columns.{total};
ghost use Rattle.kf_hyper.specs.Views.{inner_at, inners_of, scale_of, target_of};
ghost use Rattle.kf_text.specs.Texts.{size_lines, entry_line, inner_lines, hyper_text as text_of_hyper};
ghost use Rattle.kf_text.specs.Parts.{head_lines};

use crate::entries::print_entries;
use crate::items::{print_about, print_bytes, print_count, print_fraction, print_number};
use kf_hyper::Hyper;
use kf_value::Mem;
use std::alloc::Global;

// Appends the scale, and how many inners there are.
pub fn print_sizes(hyper: &Hyper, out: &mut Vec<u8>) -> Result<(), Mem>
    ensures { OnOk result (out.new.items ≡ out.old.items ++ size_lines (scale_of hyper.now) (length (inners_of hyper.now))) }
{
    print_count(b"scale ", hyper.scale(), out)?;
    print_count(b"inners ", hyper.count(), out)
}

// Appends the lines before the inners.
fn print_head(hyper: &Hyper, out: &mut Vec<u8>) -> Result<(), Mem>
    ensures { OnOk result (out.new.items ≡ out.old.items ++ head_lines (target_of hyper.now) (scale_of hyper.now) (length (inners_of hyper.now))) }
{
    print_about(hyper.target(), out)?;
    print_sizes(hyper, out)
}

// Appends the lines of all values of the inner `i`.
fn print_posterior(alloc: Global, hyper: &Hyper, i: usize, out: &mut Vec<u8>) -> Result<(), Mem>
    requires { i < length (inners_of hyper.now) }
    ensures { OnOk result (out.new.items ≡ out.old.items ++ flat_map (entry_line (target_of hyper.now) (total (inner_at hyper.now i).entries)) (inner_at hyper.now i).entries) }
{
    hyper.has_shape();
    let inner = hyper.inner(i);
    let entries = inner.entries().as_slice();
    print_entries(alloc, hyper.target(), inner.total(), entries, out)
}

// Appends the lines of the inner `i`.
fn print_inner(alloc: Global, hyper: &Hyper, i: usize, out: &mut Vec<u8>) -> Result<(), Mem>
    requires { i < length (inners_of hyper.now) }
    ensures { OnOk result (out.new.items ≡ out.old.items ++ inner_lines (target_of hyper.now) (scale_of hyper.now) (i, inner_at hyper.now i)) }
{
    let outer = hyper.outer(i);
    print_bytes(b"inner ", out)?;
    print_number(i, out)?;
    print_fraction(b" outer ", outer, out)?;
    print_posterior(alloc, hyper, i, out)
}

/// The printed hyper: its target, its scale, and each inner with its outer and its probabilities.
pub fn hyper_text(alloc: Global, hyper: &Hyper) -> Result<Vec<u8>, Mem>
    ensures { IfOk result (λ text. text.items ≡ text_of_hyper (target_of hyper.now) (scale_of hyper.now) (inners_of hyper.now)) }
{
    let mut out = Vec::new(alloc);
    print_head(hyper, &mut out)?;
    for i in 0..hyper.count() {
        print_inner(alloc, hyper, i, &mut out)?;
    }
    Ok(out)
}

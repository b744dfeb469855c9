ghost use Rattle.std.specs.Prelude.{◌≡◌, ◌++◌, pos, IfOk, OnOk};
ghost use Rattle.kf_frac.specs.Fractions.{reduced_num, reduced_den};
ghost use Rattle.kf_frac.specs.Views.{num_of, den_of};
ghost use Rattle.kf_hyper.specs.Views.{inners_of, scale_of};
ghost use Rattle.kf_text.specs.Texts.{make_text as text_of_make};
ghost use Rattle.kf_text.specs.Parts.{last_line, last_total};

use crate::hyper::print_sizes;
use crate::items::{print_count, print_fraction};
use kf_frac::Frac;
use kf_hyper::Hyper;
use kf_value::Mem;
use std::alloc::Global;

// The outer of the last inner: there is one, since all totals sum to a scale above 0.
fn last_outer(hyper: &Hyper) -> Frac
    ensures num { num_of result ≡ reduced_num (pos (last_total (inners_of hyper.now))) (scale_of hyper.now) }
    ensures den { den_of result ≡ reduced_den (pos (last_total (inners_of hyper.now))) (scale_of hyper.now) }
{
    let count = hyper.count();
    hyper.outer(count - 1)
}

// Appends the line of the outer of the last inner.
fn print_last(hyper: &Hyper, out: &mut Vec<u8>) -> Result<(), Mem>
    ensures { OnOk result (out.new.items ≡ out.old.items ++ last_line (scale_of hyper.now) (inners_of hyper.now)) }
{
    print_fraction(b"last ", last_outer(hyper), out)
}

/// The summary of a made program's hyper: how many observations there were, the scale, how many inners there are, and the
/// outer of the last of them.
pub fn make_text(alloc: Global, n: u32, h: &Hyper) -> Result<Vec<u8>, Mem>
    ensures { IfOk result (λ text. text.items ≡ text_of_make n (scale_of h.now) (inners_of h.now)) }
{
    let mut out = Vec::new(alloc);
    print_count(b"observations ", n, &mut out)?;
    print_sizes(h, &mut out)?;
    print_last(h, &mut out)?;
    Ok(out)
}

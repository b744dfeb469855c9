ghost use Rattle.std.specs.Prelude.{◌≡◌, ◌++◌, codes, IfOk, OnOk};
ghost use Rattle.kf_gain.specs.Views.{gain_tree};
ghost use Rattle.kf_report.specs.Reports.{Leakage};
ghost use Rattle.kf_report.specs.Views.{IsReport};
ghost use Rattle.kf_text.specs.ReportTexts.{gain_text, report_text as text_of_report};
ghost use Rattle.kf_text.specs.Texts.{line};
ghost use Rattle.kf_text.specs.Views.{own_quotient_text, own_lines};

use crate::items::{print_bytes, print_count, print_fraction};
use kf_frac::Frac;
use kf_gain::Gain;
use kf_report::Report;
use kf_value::Mem;
use std::alloc::Global;

// Appends the line of the gain.
pub fn print_gain(gain: &Gain, out: &mut Vec<u8>) -> Result<(), Mem>
    ensures { OnOk result (out.new.items ≡ out.old.items ++ line (codes "gain " ++ gain_text (gain_tree gain.now))) }
{
    match gain {
        Gain::Bayes => print_bytes(b"gain bayes\n", out),
        Gain::Tries(count) => print_count(b"gain tries ", *count, out),
        Gain::Guessing => print_bytes(b"gain guessing\n", out),
        Gain::Table(_) => print_bytes(b"gain table\n", out),
    }
}

// Appends the line of the quotient.
fn print_quotient(quotient: Option<Frac>, out: &mut Vec<u8>) -> Result<(), Mem>
    ensures { OnOk result (out.new.items ≡ out.old.items ++ line (codes "quotient " ++ own_quotient_text quotient)) }
{
    let Some(fraction) = quotient else {
        return print_bytes(b"quotient undefined\n", out);
    };
    print_fraction(b"quotient ", fraction, out)
}

/// The printed report: the gain, the prior, the posterior, their quotient and their difference.
///
/// A table is named without its file. The quotient is `undefined` where the report has none.
pub fn report_text(alloc: Global, g: &Gain, r: &Report) -> Result<Vec<u8>, Mem>
    ensures parts { IfOk result (λ text. text.items ≡ own_lines (gain_tree g.now) r.now) }
    ensures numbers { (l : Leakage) → IsReport l r.now → IfOk result (λ text. text.items ≡ text_of_report (gain_tree g.now) l) }
{
    let mut out = Vec::new(alloc);
    print_gain(g, &mut out)?;
    print_fraction(b"prior ", r.prior, &mut out)?;
    print_fraction(b"posterior ", r.posterior, &mut out)?;
    print_quotient(r.quotient, &mut out)?;
    print_fraction(b"difference ", r.difference, &mut out)?;
    Ok(out)
}

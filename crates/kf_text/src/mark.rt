ghost use Rattle.std.specs.Prelude.{◌≡◌};
ghost use Rattle.kf_text.specs.VerdictTexts.{mark_text as text_of_mark};

use kf_cert::{Mark, Rule};

/// The printed mark of a certificate, without an end of line.
pub fn mark_text(m: &Mark) -> &'static str
    ensures { result.now ≡ text_of_mark m.now }
{
    match m {
        Mark::Accepted => "accepted",
        Mark::Rejected(Rule::Shape) => "rejected shape",
        Mark::Rejected(Rule::Range) => "rejected range",
        Mark::Rejected(Rule::Sum) => "rejected sum",
        Mark::Rejected(Rule::Cell) => "rejected cell",
        Mark::Rejected(Rule::Value) => "rejected value",
        Mark::Rejected(Rule::Order) => "rejected order",
    }
}

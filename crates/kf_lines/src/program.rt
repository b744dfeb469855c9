//! The printed lines of a program.

ghost use Rattle.std.specs.Prelude.{◌≡◌, ◌≤◌, IfOk, IsErrOf, length};
ghost use Rattle.kf_ast.specs.Views.{source_tree};
ghost use Rattle.kf_gain.specs.Views.{gain_tree};
ghost use Rattle.kf_lines.specs.Views.{IsNarrowIn, IsTextOfLines, IsWideIn};

use crate::summaries::{lines_of, summary_of};
use crate::text::lines_text;
use kf_ast::Source;
use kf_gain::{Gain, GainFault};
use kf_run::hyper_of;
use kf_support::Cleared;
use std::alloc::Global;

/// What is printed of a cleared program whose text has these bytes and this source: how much is seen of it under a gain, and how much where
/// each statement that may show something, wherever it stands, is silent.
///
/// `Wide` exactly where the scale times the gain's width on the whole program passes 2^127 - 1, unless memory is wanting.
pub fn program_lines(
    alloc: Global,
    bytes: &[u8],
    source: &Source,
    cleared: &Cleared,
    gain: &Gain,
) -> Result<Vec<u8>, GainFault>
    requires short { length bytes.now ≤ 1048576 }
    ensures text { IfOk result (λ text. IsTextOfLines cleared.now bytes.now (source_tree source.now) (gain_tree gain.now) text.items) }
    ensures narrow { IfOk result (λ _. IsNarrowIn cleared.now (gain_tree gain.now)) }
    ensures wide { IsErrOf result GainFault.Wide → IsWideIn cleared.now (gain_tree gain.now) }
{
    let hyper = hyper_of(alloc, cleared)?;
    let all = match summary_of(alloc, &hyper, gain) {
        Ok(all) => all,
        Err(fault) => return Err(fault),
    };
    drop(hyper);
    let lines = lines_of(alloc, cleared, source.body.as_slice(), gain)?;
    let text = lines_text(alloc, bytes, &all, &lines)?;
    Ok(text)
}

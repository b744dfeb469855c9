//! The leakage of a program under a gain.

ghost use Rattle.std.specs.Prelude.{IfErr};
ghost use Rattle.kf_load.specs.Steps.{After};
ghost use Rattle.kf_load.specs.Views.{program_in};
ghost use Rattle.kf_support.specs.Cleared.{turns_of};
ghost use Rattle.kf_gain.specs.Views.{gain_tree};
ghost use Rattle.kf_top.specs.Answer.{GainIn, OnHyper, ReportOn};
ghost use Rattle.kf_top.specs.TaskAnswers.{Counts, FilesAnswer, names_in};
ghost use Rattle.kf_top.specs.Stops.{Answers, IsOwn};
ghost use Rattle.kf_top.specs.Views.{shown};
ghost use Rattle.kf_words.specs.Jobs.{gain_of};

use crate::gain::gain_in;
use crate::refusal::{Done, Refusal, Stop};
use kf_gain::{Gain, GainFault};
use kf_io::Files;
use kf_report::report_of;
use kf_run::hyper_of;
use kf_support::Cleared;
use kf_text::report_text;
use kf_words::GainWord;
use std::alloc::Global;

// The report of a cleared program under a gain.
fn report<'a>(alloc: Global, cleared: &Cleared, gain: &Gain) -> Result<Done, Stop<'a>>
    ensures answer { Answers shown result (OnHyper (turns_of cleared.now) (program_in cleared.now) (ReportOn (gain_tree gain.now))) }
    ensures read { IfErr result IsOwn }
{
    let hyper = hyper_of(alloc, cleared)?;
    let report = match report_of(alloc, &hyper, gain) {
        Ok(report) => report,
        Err(GainFault::Wide) => return Err(Stop::Refused(Refusal::WideGain)),
        Err(GainFault::Mem) => return Err(Stop::Mem),
    };
    let bytes = report_text(alloc, gain, &report)?;
    Ok(Done { yes: true, bytes })
}

/// The leakage of a cleared program under a gain, whose table is read now.
pub(crate) fn leak<'a, F: Files>(
    alloc: Global,
    files: &mut F,
    cleared: &Cleared,
    word: &'a GainWord,
) -> Result<Done, Stop<'a>>
    ensures answer { FilesAnswer (F.contents files.old) (F.faults files.old) (F.faults files.new) (names_in (gain_of word.now)) shown result
        (λ tables. After (GainIn (program_in cleared.now).target (gain_of word.now) tables)
        (λ gain. OnHyper (turns_of cleared.now) (program_in cleared.now) (ReportOn gain))) }
    ensures counts { Counts (names_in (gain_of word.now)) (F.faults files.old) (F.faults files.new) result }
{
    let gain = gain_in(alloc, files, &cleared.program().target, word)?;
    report(alloc, cleared, &gain)
}

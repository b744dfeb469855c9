//! The attack on a program under a gain, and the number of tries that reach a probability.

ghost use Rattle.std.specs.Prelude.{◌≤◌, pos, ◌<ℤ◌, ◌≤ℤ◌, IfErr};
ghost use Rattle.kf_frac.specs.Parts.{IsFraction};
ghost use Rattle.kf_frac.specs.Views.{num_of, den_of};
ghost use Rattle.kf_attack.specs.Attacks.{IsReach};
ghost use Rattle.kf_text.specs.AttackTexts.{reach_text as text_of_reach};
ghost use Rattle.kf_load.specs.Steps.{After};
ghost use Rattle.kf_load.specs.Views.{program_in};
ghost use Rattle.kf_support.specs.Cleared.{turns_of};
ghost use Rattle.kf_gain.specs.Views.{gain_tree};
ghost use Rattle.kf_top.specs.Answer.{AttackOn, GainIn, OnHyper, PrintsSome};
ghost use Rattle.kf_top.specs.TaskAnswers.{Counts, FilesAnswer, names_in};
ghost use Rattle.kf_top.specs.Stops.{Answers, IsOwn};
ghost use Rattle.kf_top.specs.Views.{shown};
ghost use Rattle.kf_words.specs.Jobs.{gain_of};

use crate::gain::gain_in;
use crate::refusal::{Done, Refusal, Stop};
use kf_attack::{attack_of, reach_of};
use kf_frac::{Frac, share};
use kf_gain::{Gain, GainFault};
use kf_io::Files;
use kf_run::hyper_of;
use kf_support::Cleared;
use kf_text::{attack_text, reach_text};
use kf_words::GainWord;
use std::alloc::Global;

// The attack on a cleared program under a gain.
fn attack_under<'a>(alloc: Global, cleared: &Cleared, gain: &Gain) -> Result<Done, Stop<'a>>
    ensures answer { Answers shown result (OnHyper (turns_of cleared.now) (program_in cleared.now) (AttackOn (gain_tree gain.now))) }
    ensures read { IfErr result IsOwn }
{
    let hyper = hyper_of(alloc, cleared)?;
    let attacks = match attack_of(alloc, &hyper, gain) {
        Ok(attacks) => attacks,
        Err(GainFault::Wide) => return Err(Stop::Refused(Refusal::WideGain)),
        Err(GainFault::Mem) => return Err(Stop::Mem),
    };
    let bytes = attack_text(alloc, &hyper, gain, &attacks)?;
    Ok(Done { yes: true, bytes })
}

/// The attack on a cleared program under a gain, whose table is read now.
pub(crate) fn attack<'a, F: Files>(
    alloc: Global,
    files: &mut F,
    cleared: &Cleared,
    word: &'a GainWord,
) -> Result<Done, Stop<'a>>
    ensures answer { FilesAnswer (F.contents files.old) (F.faults files.old) (F.faults files.new) (names_in (gain_of word.now)) shown result
        (λ tables. After (GainIn (program_in cleared.now).target (gain_of word.now) tables)
        (λ gain. OnHyper (turns_of cleared.now) (program_in cleared.now) (AttackOn gain))) }
    ensures counts { Counts (names_in (gain_of word.now)) (F.faults files.old) (F.faults files.new) result }
{
    let gain = gain_in(alloc, files, &cleared.program().target, word)?;
    attack_under(alloc, cleared, &gain)
}

// What is wanted, in lowest terms.
fn wanted(num: u32, den: u32) -> Frac
    requires some { 1 ≤ num }
    requires part { num ≤ den }
    ensures is { IsFraction result (pos num) den }
    ensures some { pos 0 <ℤ num_of result }
    ensures part { num_of result ≤ℤ pos (den_of result) }
{
    share(u128::from(num), u128::from(den))
}

/// The least number of tries with which the posterior vulnerability of a cleared program is at least `num / den`.
pub(crate) fn reach<'a>(
    alloc: Global,
    cleared: &Cleared,
    num: u32,
    den: u32,
) -> Result<Done, Stop<'a>>
    requires some { 1 ≤ num }
    requires part { num ≤ den }
    ensures answer { Answers shown result (OnHyper (turns_of cleared.now) (program_in cleared.now)
        (λ h. PrintsSome (IsReach h.scale h.inners num den) (text_of_reach h.scale))) }
    ensures read { IfErr result IsOwn }
{
    let hyper = hyper_of(alloc, cleared)?;
    let reach = reach_of(alloc, &hyper, wanted(num, den))?;
    let bytes = reach_text(alloc, &reach)?;
    Ok(Done { yes: true, bytes })
}

//! Whether one program leaks no more than another, whatever the prior.

ghost use Rattle.std.specs.Prelude.{◌≡◌, ◌≤◌, ◌∷◌, [], false, IfErr};
ghost use Rattle.kf_load.specs.Steps.{After};
ghost use Rattle.kf_load.specs.Stops.{IsProper};
ghost use Rattle.kf_load.specs.Views.{program_in, texts_in};
ghost use Rattle.kf_prior.specs.Laws.{IsFull};
ghost use Rattle.kf_support.specs.Cleared.{turns_of};
ghost use Rattle.kf_top.specs.Answer.{CommandOutcome, RefineOutcome};
ghost use Rattle.kf_top.specs.Outcome.{ReadyOf};
ghost use Rattle.kf_top.specs.Stops.{Answers, IsOwn};
ghost use Rattle.kf_top.specs.TaskAnswers.{Counts, TaskAnswer};
ghost use Rattle.kf_words.specs.Task.{Covers, on_files};
ghost use Rattle.kf_top.specs.Views.{shown};

use crate::full::full_pair;
use crate::refusal::{Done, Refusal, Stop, lift};
use crate::verdict::{MOST_PIVOTS, hypers_of, printed_verdict};
use kf_io::Files;
use kf_load::{Pair, Texts, two_texts};
use kf_prior::{covers as decide, full_laws, initial_stores};
use kf_value::{Name, same_target};
use std::alloc::Global;

// Whether the second of two full programs leaks no more than the first.
fn full_covers<'a>(alloc: Global, pair: &Pair) -> Result<Done, Stop<'a>>
    requires turns { turns_of pair.now.first ≡ turns_of pair.now.second }
    requires first { IsFull (program_in pair.now.first) }
    requires second { IsFull (program_in pair.now.second) }
    ensures answer { Answers shown result (RefineOutcome false (turns_of pair.now.first) (program_in pair.now.first) (program_in pair.now.second)) }
    ensures read { IfErr result IsOwn }
{
    full_laws();
    let hypers = hypers_of(alloc, pair)?;
    if !same_target(hypers.a.target(), hypers.b.target()) {
        return Err(Stop::Refused(Refusal::OtherTarget));
    }
    let stores = initial_stores(pair.first.program());
    let verdict = decide(alloc, &hypers.a, &hypers.b, stores, MOST_PIVOTS);
    printed_verdict(alloc, &hypers, verdict, false)
}

// The same of two texts.
fn texts_covers<'a>(
    alloc: Global,
    first: &'a str,
    second: &'a str,
    texts: Texts,
    turns: u32,
) -> Result<Done, Stop<'a>>
    requires first { IsProper texts.first }
    requires second { IsProper texts.second }
    requires some_turns { 1 ≤ turns }
    requires few_turns { turns ≤ 65535 }
    ensures answer { Answers shown result
        (After (ReadyOf Covers turns (texts_in first.now second.now texts)) (CommandOutcome Covers turns [])) }
    ensures read { IfErr result IsOwn }
{
    let pair = full_pair(alloc, first, second, texts, turns)?;
    let done = full_covers(alloc, &pair);
    drop(pair);
    done
}

/// Whether the program of the second file leaks no more than that of the first, whatever the prior.
pub(crate) fn covers<'a, F: Files>(
    alloc: Global,
    files: &mut F,
    first: &'a Name,
    second: &'a Name,
    turns: u32,
) -> Result<Done, Stop<'a>>
    requires some_turns { 1 ≤ turns }
    requires few_turns { turns ≤ 65535 }
    ensures answer { TaskAnswer (F.contents files.old) (F.faults files.old) (F.faults files.new)
        (on_files Covers (first.now ∷ second.now ∷ []) turns) result }
    ensures counts { Counts (first.now ∷ second.now ∷ []) (F.faults files.old) (F.faults files.new) result }
{
    let one = first.as_str();
    let two = second.as_str();
    match two_texts(alloc, files, one, two) {
        Ok(texts) => texts_covers(alloc, one, two, texts, turns),
        Err(stop) => Err(lift(stop)),
    }
}

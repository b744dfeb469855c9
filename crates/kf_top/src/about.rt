//! What is asked about one program or about two, and the answer to it.

ghost use Rattle.std.specs.Prelude.{◌≡◌, ◌≤◌, ◌∷◌, [], length};
ghost use Rattle.kf_load.specs.Views.{program_in, programs_in};
ghost use Rattle.kf_support.specs.Cleared.{turns_of};
ghost use Rattle.kf_top.specs.Answer.{CommandOutcome};
ghost use Rattle.kf_top.specs.TaskAnswers.{Counts, FilesAnswer, TaskAnswer};
ghost use Rattle.kf_top.specs.Views.{command_of, command_on_two, least_of as least_number, shown};
ghost use Rattle.kf_words.specs.Jobs.{IsInRange};
ghost use Rattle.kf_words.specs.Task.{on_files, tables_of};
ghost use Rattle.kf_words.specs.OfWords.{on_file, named};

use crate::attack::{attack, reach};
use crate::capacity::{Composition, capacity, composed_capacities};
use crate::hyper::{channel, hyper, traces, trail};
use crate::leak::leak;
use crate::quiet::{blame, quiet};
use crate::refusal::{Done, Stop, lift};
use crate::verdict::{check, refine};
use kf_io::Files;
use kf_load::{Pair, cleared_program, two_programs};
use kf_support::Cleared;
use kf_value::Name;
use kf_words::GainWord;
use std::alloc::Global;

/// What is asked about one program.
#[derive(Clone, Copy)]
pub(crate) enum AboutOne<'a> {
    Hyper,
    Traces,
    Channel,
    Trail,
    Leak(&'a GainWord),
    Attack(&'a GainWord),
    Reach { num: u32, den: u32 },
    Capacity,
    Quiet { from: u32, to: u32 },
    Blame,
}

/// What is asked about two programs, of which each is taken as it is.
#[derive(Clone, Copy)]
pub(crate) enum AboutTwo<'a> {
    Refine { json: bool },
    Check(&'a Name),
    Compose(Composition),
}

// How many statements a program must have at its top level.
fn least_of(question: &AboutOne<'_>) -> u32
    ensures { result ≡ least_number question.now }
{
    match question {
        AboutOne::Quiet { to, .. } => *to,
        _ => 0,
    }
}

// What is answered about a cleared program. A gain's table is read now.
fn answer_one<'a, F: Files>(
    alloc: Global,
    files: &mut F,
    cleared: &Cleared,
    question: AboutOne<'a>,
) -> Result<Done, Stop<'a>>
    requires range { IsInRange (command_of question) }
    requires long { least_number question ≤ length (program_in cleared.now).body }
    ensures answer { FilesAnswer (F.contents files.old) (F.faults files.old) (F.faults files.new) (tables_of (command_of question.entry)) shown result
        (λ tables. CommandOutcome (command_of question.entry) (turns_of cleared.now) tables (program_in cleared.now ∷ [])) }
    ensures counts { Counts (tables_of (command_of question.entry)) (F.faults files.old) (F.faults files.new) result }
{
    match question {
        AboutOne::Hyper => hyper(alloc, cleared),
        AboutOne::Traces => traces(alloc, cleared),
        AboutOne::Channel => channel(alloc, cleared),
        AboutOne::Trail => trail(alloc, cleared),
        AboutOne::Leak(word) => leak(alloc, files, cleared, word),
        AboutOne::Attack(word) => attack(alloc, files, cleared, word),
        AboutOne::Reach { num, den } => reach(alloc, cleared, num, den),
        AboutOne::Capacity => capacity(alloc, cleared),
        AboutOne::Quiet { from, to } => quiet(alloc, cleared, from, to),
        AboutOne::Blame => blame(alloc, cleared),
    }
}

// What is answered about two cleared programs. A certificate is read now.
fn answer_two<'a, F: Files>(
    alloc: Global,
    files: &mut F,
    pair: &Pair,
    question: AboutTwo<'a>,
) -> Result<Done, Stop<'a>>
    requires range { IsInRange (command_on_two question) }
    requires turns { turns_of pair.now.first ≡ turns_of pair.now.second }
    ensures answer { FilesAnswer (F.contents files.old) (F.faults files.old) (F.faults files.new) (tables_of (command_on_two question.entry)) shown result
        (λ tables. CommandOutcome (command_on_two question.entry) (turns_of pair.now.first) tables (programs_in pair.now)) }
    ensures counts { Counts (tables_of (command_on_two question.entry)) (F.faults files.old) (F.faults files.new) result }
{
    match question {
        AboutTwo::Refine { json } => refine(alloc, pair, json),
        AboutTwo::Check(cert) => check(alloc, files, pair, cert.as_str()),
        AboutTwo::Compose(way) => composed_capacities(alloc, pair, way),
    }
}

/// What is answered about the program of a file.
pub(crate) fn about_one<'a, F: Files>(
    alloc: Global,
    files: &mut F,
    name: &'a Name,
    question: AboutOne<'a>,
    turns: u32,
) -> Result<Done, Stop<'a>>
    requires range { IsInRange (command_of question) }
    requires some_turns { 1 ≤ turns }
    requires few_turns { turns ≤ 65535 }
    ensures answer { TaskAnswer (F.contents files.old) (F.faults files.old) (F.faults files.new) (on_file (command_of question.entry) name.now turns) result }
    ensures counts { Counts (named (on_file (command_of question.entry) name.now turns)) (F.faults files.old) (F.faults files.new) result }
{
    let least = least_of(&question);
    match cleared_program(alloc, files, name.as_str(), least, turns) {
        Ok(cleared) => {
            let answer = answer_one(alloc, files, &cleared, question);
            drop(cleared);
            answer
        }
        Err(stop) => Err(lift(stop)),
    }
}

/// What is answered about the programs of two files.
pub(crate) fn about_two<'a, F: Files>(
    alloc: Global,
    files: &mut F,
    first: &'a Name,
    second: &'a Name,
    question: AboutTwo<'a>,
    turns: u32,
) -> Result<Done, Stop<'a>>
    requires range { IsInRange (command_on_two question) }
    requires some_turns { 1 ≤ turns }
    requires few_turns { turns ≤ 65535 }
    ensures answer { TaskAnswer (F.contents files.old) (F.faults files.old) (F.faults files.new)
        (on_files (command_on_two question.entry) (first.now ∷ second.now ∷ []) turns) result }
    ensures counts { Counts (named (on_files (command_on_two question.entry) (first.now ∷ second.now ∷ []) turns)) (F.faults files.old) (F.faults files.new) result }
{
    match two_programs(alloc, files, first.as_str(), second.as_str(), turns) {
        Ok(pair) => {
            let answer = answer_two(alloc, files, &pair, question);
            drop(pair);
            answer
        }
        Err(stop) => Err(lift(stop)),
    }
}

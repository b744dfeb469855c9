//! The job of a command and the values after its word.
ghost use Rattle.std.specs.Prelude.{◌≡◌, [], ◌∷◌, IfOk, IfSome, IsSomeAnd, None, Ok, length, map, option_map};
ghost use Rattle.kf_words.specs.CommandViews.{arguments_meant, on_gain, on_one, on_two, pair_task, task_meant, values_of};
ghost use Rattle.kf_words.specs.Jobs.{gain_of, task_of_job, IsInRange};
ghost use Rattle.kf_words.specs.Task.{Check, Refine, gain_or_bayes, on_files};

use crate::arguments::Arguments;
use crate::commands::{CommandWord, OneFile, TwoFiles, UnderGain, WithPair};
use crate::gain_words::{GainWord, parse_gain};
use crate::job::Job;
use crate::numbers::{parse_block, parse_observations, parse_probability, parse_threshold};
use kf_value::{Mem, Name};
use std::alloc::Global;

// The name of a file.
fn name_of(alloc: Global, word: &str) -> Result<Name, Mem>
    ensures { IfOk result (λ name. name ≡ word.now) }
{
    Ok(Name::new(word.to_string(alloc)?))
}

// What was read before, with what was read then; where there is no memory for this, what was read before is dropped.
fn beside<A: Drop, B>(first: A, second: Result<B, Mem>) -> Result<(A, B), Mem>
    ensures { IfOk result (λ both. (both.0 ≡ first) × (second ≡ Ok both.1)) }
{
    let second = second?;
    Ok((first, second))
}

// The names of two files.
fn two_names(alloc: Global, a: &str, b: &str) -> Result<(Name, Name), Mem>
    ensures { IfOk result (λ names. (names.0 ≡ a.now) × (names.1 ≡ b.now)) }
{
    beside(name_of(alloc, a)?, name_of(alloc, b))
}

// The gain that `--gain` names; where it doesn't stand, one guess.
fn gain_of_option(alloc: Global, word: Option<&str>) -> Result<Option<GainWord>, Mem>
    ensures { IfOk result (λ gain. option_map gain_of gain ≡ gain_or_bayes (option_map (λ w. w.now) word.entry)) }
{
    match word {
        None => Ok(Some(GainWord::Bayes)),
        Some(word) => parse_gain(alloc, word),
    }
}

// The job of a command on one file.
fn on_one_file(command: OneFile, file: Name, turns: u32) -> Job
    ensures job { task_of_job result ≡ on_files (on_one command) (file ∷ []) turns }
    ensures range { IsInRange (on_one command) }
{
    match command {
        OneFile::Hyper => Job::Hyper { file, turns },
        OneFile::Traces => Job::Traces { file, turns },
        OneFile::Channel => Job::Channel { file, turns },
        OneFile::Trail => Job::Trail { file, turns },
        OneFile::Capacity => Job::Capacity { file, turns },
        OneFile::Blame => Job::Blame { file, turns },
    }
}

// The job of a command on two files.
fn on_two_files(command: TwoFiles, a: Name, b: Name, turns: u32) -> Job
    ensures job { task_of_job result ≡ on_files (on_two command) (a ∷ b ∷ []) turns }
    ensures range { IsInRange (on_two command) }
{
    match command {
        TwoFiles::Cascade => Job::Cascade { a, b, turns },
        TwoFiles::Parallel => Job::Parallel { a, b, turns },
        TwoFiles::Covers => Job::Covers { a, b, turns },
    }
}

// The job of a command on one file under a gain.
fn under_gain(command: UnderGain, file: Name, gain: GainWord, turns: u32) -> Job
    ensures job { task_of_job result ≡ on_files (on_gain command (gain_of gain)) (file ∷ []) turns }
    ensures range { IsInRange (on_gain command (gain_of gain)) }
{
    match command {
        UnderGain::Leak => Job::Leak { file, gain, turns },
        UnderGain::Attack => Job::Attack { file, gain, turns },
        UnderGain::Lines => Job::Lines { file, gain, turns },
    }
}

// The job of a command whose last value is a pair of numbers; none where it is no such pair.
fn with_pair(
    alloc: Global,
    command: WithPair,
    values: &[&str],
    turns: u32,
) -> Result<Option<Job>, Mem>
    requires { length values.now ≡ values_of (CommandWord.WithPair command) }
    ensures job { IfOk result (λ job. option_map task_of_job job
        ≡ option_map (λ task. task turns) (pair_task command (map (λ v. v.now) values.now))) }
    ensures none { IfOk result (λ job. job ≡ None → pair_task command (map (λ v. v.now) values.now) ≡ None) }
    ensures turns { IfOk result (λ job. IfSome job (λ job. (task_of_job job).turns ≡ turns)) }
    ensures range { IfOk result (λ job. IfSome job (λ job. IsInRange (task_of_job job).command)) }
{
    match command {
        WithPair::Choice => {
            let Some((num, den)) = parse_probability(values[2]) else {
                return Ok(None);
            };
            let (a, b) = two_names(alloc, values[0], values[1])?;
            Ok(Some(Job::Choice {
                a,
                b,
                num,
                den,
                turns,
            }))
        }
        WithPair::Reach => {
            let Some((num, den)) = parse_threshold(values[1]) else {
                return Ok(None);
            };
            Ok(Some(Job::Reach {
                file: name_of(alloc, values[0])?,
                num,
                den,
                turns,
            }))
        }
        WithPair::Quiet => {
            let Some((from, to)) = parse_block(values[1]) else {
                return Ok(None);
            };
            Ok(Some(Job::Quiet {
                file: name_of(alloc, values[0])?,
                from,
                to,
                turns,
            }))
        }
    }
}

// The job of `refine`.
fn refine_job(alloc: Global, a: &str, b: &str, json: bool, turns: u32) -> Result<Option<Job>, Mem>
    ensures { IfOk result (λ job. IsSomeAnd job (λ job. task_of_job job ≡ on_files (Refine json) (a.now ∷ b.now ∷ []) turns)) }
{
    let (a, b) = two_names(alloc, a, b)?;
    Ok(Some(Job::Refine { a, b, json, turns }))
}

// The job of `check`.
fn check_job(alloc: Global, cert: &str, a: &str, b: &str, turns: u32) -> Result<Option<Job>, Mem>
    ensures { IfOk result (λ job. IsSomeAnd job (λ job. task_of_job job ≡ on_files (Check cert.now) (a.now ∷ b.now ∷ []) turns)) }
{
    let (cert, (a, b)) = beside(name_of(alloc, cert)?, two_names(alloc, a, b))?;
    Ok(Some(Job::Check { cert, a, b, turns }))
}

/// The job of a command and the values after its word, files' names or numbers; none where a value is no such number, or where
/// `--gain` names no gain.
pub(crate) fn job_on(
    alloc: Global,
    command: CommandWord,
    values: &[&str],
    arguments: &Arguments<'_, '_>,
    turns: u32,
) -> Result<Option<Job>, Mem>
    requires { length values.now ≡ values_of command }
    ensures job { IfOk result (λ job. option_map task_of_job job
        ≡ option_map (λ task. task turns) (task_meant command (map (λ v. v.now) values.now) (arguments_meant arguments.now))) }
    ensures none { IfOk result (λ job. job ≡ None → task_meant command (map (λ v. v.now) values.now) (arguments_meant arguments.now) ≡ None) }
    ensures turns { IfOk result (λ job. IfSome job (λ job. (task_of_job job).turns ≡ turns)) }
    ensures range { IfOk result (λ job. IfSome job (λ job. IsInRange (task_of_job job).command)) }
{
    match command {
        CommandWord::OneFile(command) => {
            let file = name_of(alloc, values[0])?;
            Ok(Some(on_one_file(command, file, turns)))
        }
        CommandWord::TwoFiles(command) => {
            let (a, b) = two_names(alloc, values[0], values[1])?;
            Ok(Some(on_two_files(command, a, b, turns)))
        }
        CommandWord::UnderGain(command) => {
            let Some(gain) = gain_of_option(alloc, arguments.gain)? else {
                return Ok(None);
            };
            let (gain, file) = beside(gain, name_of(alloc, values[0]))?;
            Ok(Some(under_gain(command, file, gain, turns)))
        }
        CommandWord::WithPair(command) => with_pair(alloc, command, values, turns),
        CommandWord::Make => {
            let Some(n) = parse_observations(values[0]) else {
                return Ok(None);
            };
            Ok(Some(Job::Make { n, turns }))
        }
        CommandWord::Refine => refine_job(alloc, values[0], values[1], arguments.json, turns),
        CommandWord::Check => check_job(alloc, values[0], values[1], values[2], turns),
    }
}

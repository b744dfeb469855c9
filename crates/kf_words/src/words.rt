ghost use Rattle.std.specs.Prelude.{◌≡◌, ◌≤◌, IfOk, IfSome, IsErrOf, None, Some, map, option_map, string_bytes};
ghost use Rattle.kf_words.specs.CommandViews.{arguments_meant};
ghost use Rattle.kf_words.specs.Jobs.{task_of_job, HasTurns, IsInRange};
ghost use Rattle.kf_words.specs.Task.{task_of};
ghost use Rattle.kf_words.specs.OfWords.{task_of_arguments, turns_of};

use crate::arguments::{Arguments, arguments_of, matches_of};
use crate::commands::{options_fit, row_of};
use crate::error::WordsError;
use crate::job::Job;
use crate::numbers::parse_number;
use crate::values::job_on;
use std::alloc::Global;

/// How often a loop may turn where no word says it.
const DEFAULT_TURNS: u32 = 1024;

// How often a loop may turn, as `--turns` says it where it stands.
fn turns_or_default(word: Option<&str>) -> Option<u32>
    ensures value { result ≡ turns_of (option_map (λ w. w.now) word.entry) }
    ensures range { IfSome result (λ turns. (1 ≤ turns) × (turns ≤ 65535)) }
{
    match word {
        None => Some(DEFAULT_TURNS),
        Some(word) => parse_number(word),
    }
}

// The job that parsed arguments ask for.
fn job_of(alloc: Global, arguments: Arguments<'_, '_>) -> Result<Job, WordsError>
    ensures job { IfOk result (λ job. task_of_arguments (arguments_meant arguments.entry) ≡ Some (task_of_job job)) }
    ensures usage { IsErrOf result WordsError.Usage → task_of_arguments (arguments_meant arguments.entry) ≡ None }
    ensures turns { IfOk result (λ job. HasTurns (task_of_job job)) }
    ensures range { IfOk result (λ job. IsInRange (task_of_job job).command) }
{
    let [word, values @ ..] = arguments.values else {
        return Err(WordsError::Usage);
    };
    let Some(row) = row_of(word) else {
        return Err(WordsError::Usage);
    };
    if values.len() != row.values || !options_fit(row, &arguments) {
        return Err(WordsError::Usage);
    }
    let Some(turns) = turns_or_default(arguments.turns) else {
        return Err(WordsError::Usage);
    };
    match job_on(alloc, row.command, values, &arguments, turns)? {
        Some(job) => Ok(job),
        None => Err(WordsError::Usage),
    }
}

/// The job that the words ask for; the first of them, the program's name, isn't looked at. `Usage` exactly where they ask for nothing that
/// there is, unless memory is wanting.
pub fn read_words(alloc: Global, words: &[String]) -> Result<Job, WordsError>
    ensures job { IfOk result (λ job. task_of (map string_bytes words.now) ≡ Some (task_of_job job)) }
    ensures usage { IsErrOf result WordsError.Usage → task_of (map string_bytes words.now) ≡ None }
    ensures turns { IfOk result (λ job. HasTurns (task_of_job job)) }
    ensures range { IfOk result (λ job. IsInRange (task_of_job job).command) }
{
    let matches = matches_of(alloc, words)?;
    job_of(alloc, arguments_of(&matches))
}

//! How words name a gain.
ghost use Rattle.std.specs.Prelude.{◌≡◌, IfOk, option_map};
ghost use Rattle.kf_words.specs.GainWords.{gain_named};
ghost use Rattle.kf_words.specs.Jobs.{gain_of};
ghost use Rattle.kf_words.specs.OfWords.{tries_of, table_of};

use crate::numbers::parse_number;
use kf_value::{Mem, Name};
use std::alloc::Global;

/// A gain as the words of a command line name it.
#[derive(Drop)]
pub enum GainWord {
    /// One guess at the value.
    Bayes,
    /// This number of guesses at once, 1 to 65,535.
    Tries(u32),
    /// Guesses in turn until one is right.
    Guessing,
    /// The actions of the table in the file of this name, which isn't empty.
    Table(Name),
}

// A number of tries.
fn parse_tries(number: &str) -> Option<GainWord>
    ensures { option_map gain_of result ≡ tries_of number.now }
{
    let tries = parse_number(number)?;
    Some(GainWord::Tries(tries))
}

// The table in the file of this name, which may not be empty.
fn parse_table(alloc: Global, name: &str) -> Result<Option<GainWord>, Mem>
    ensures { IfOk result (λ gain. option_map gain_of gain ≡ table_of name.now) }
{
    if name.is_empty() {
        return Ok(None);
    }
    let name = Name::new(name.to_string(alloc)?);
    Ok(Some(GainWord::Table(name)))
}

/// The gain that a word names: `bayes`, `guessing`, `tries:` with a number of tries, or `table:` with a file's name.
pub(crate) fn parse_gain(alloc: Global, word: &str) -> Result<Option<GainWord>, Mem>
    ensures { IfOk result (λ gain. option_map gain_of gain ≡ gain_named word.now) }
{
    if word == "bayes" {
        return Ok(Some(GainWord::Bayes));
    }
    if word == "guessing" {
        return Ok(Some(GainWord::Guessing));
    }
    if let Some(number) = word.strip_prefix("tries:") {
        return Ok(parse_tries(number));
    }
    match word.strip_prefix("table:") {
        Some(name) => parse_table(alloc, name),
        None => Ok(None),
    }
}

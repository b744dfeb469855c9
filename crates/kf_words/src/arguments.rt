//! The arguments of a command line, parsed by `clap`.
ghost use Rattle.std.specs.Prelude.{◌≡◌, IfOk, IsErrOf, None, Some, codes, map, string_bytes, unwrap_or, []};
ghost use Rattle.clap.specs.Words.{all_of, app_of, found_of, rows_of};
ghost use Rattle.kf_words.specs.Arguments.{command_line as line_of_commands, arguments_of as arguments_of_words, arguments_in};
ghost use Rattle.kf_words.specs.CommandViews.{arguments_meant, is_set as is_set_in};

use crate::error::WordsError;
use clap::error::ErrorKind;
use clap::{Arg, ArgAction, ArgMatches, Command};
use std::alloc::{AllocError, Global};

/// The arguments of a list of words.
#[derive(Clone, Copy)]
pub(crate) struct Arguments<'b, 'a> {
    /// The words that are neither options nor their values, in order.
    pub(crate) values: &'b [&'a str],
    /// The value of `--gain`.
    pub(crate) gain: Option<&'a str>,
    /// The value of `--turns`.
    pub(crate) turns: Option<&'a str>,
    /// Whether `--json` stands among the words.
    pub(crate) json: bool,
}

// This program's command line.
fn command_line<'a>(alloc: Global) -> Result<Command<'a>, AllocError>
    ensures { IfOk result (λ c. app_of c ≡ line_of_commands) }
{
    let command = Command::new(alloc, "kuifje")
        .arg(Arg::new(alloc, "words").num_args(0..))?
        .arg(Arg::new(alloc, "gain").long("gain"))?
        .arg(Arg::new(alloc, "turns").long("turns"))?
        .arg(
            Arg::new(alloc, "json")
                .long("json")
                .action(ArgAction::SetTrue),
        )?;
    Ok(command)
}

/// What `clap` finds among the words; any refusal of its own but want of memory is `Usage`.
pub(crate) fn matches_of<'a>(
    alloc: Global,
    words: &'a [String],
) -> Result<ArgMatches<'a>, WordsError>
    ensures found { IfOk result (λ m. arguments_of_words (map string_bytes words.now) ≡ Some (arguments_in (rows_of (found_of m)))) }
    ensures usage { IsErrOf result WordsError.Usage → arguments_of_words (map string_bytes words.now) ≡ None }
{
    let command = command_line(alloc)?;
    match command.try_get_matches_from(words) {
        Ok(matches) => Ok(matches),
        Err(error) => match error.kind() {
            ErrorKind::OutOfMemory => Err(WordsError::Mem),
            _ => Err(WordsError::Usage),
        },
    }
}

// Whether a flag was used: it then reads as `true`.
fn is_set(matches: &ArgMatches<'_>, flag: &str) -> bool
    ensures { result ≡ is_set_in flag.now (rows_of (found_of matches.now)) }
{
    match matches.get_str(flag) {
        Some(text) => text == "true",
        None => false,
    }
}

// The words that are neither options nor their values.
fn values_of<'b, 'a>(matches: &'b ArgMatches<'a>) -> &'b [&'a str]
    ensures { map (λ v. v.now) result.now ≡ unwrap_or (all_of (codes "words") (rows_of (found_of matches.now))) [] }
{
    matches.get_raw("words").unwrap_or_default()
}

/// The arguments, from what `clap` found.
pub(crate) fn arguments_of<'b, 'a>(matches: &'b ArgMatches<'a>) -> Arguments<'b, 'a>
    ensures { arguments_meant result ≡ arguments_in (rows_of (found_of matches.now)) }
{
    Arguments {
        values: values_of(matches),
        gain: matches.get_str("gain"),
        turns: matches.get_str("turns"),
        json: is_set(matches, "json"),
    }
}

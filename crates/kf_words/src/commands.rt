//! The table of commands, by their words.
ghost use Rattle.std.specs.Prelude.{◌≡◌, map, option_map, IfSome};
ghost use Rattle.std.specs.Map.{lookup};
ghost use Rattle.std.specs.List.{AllByRecursion as Each};
ghost use Rattle.std.specs.Str.{bytes_eq};
ghost use Rattle.kf_words.specs.Task.{commands as commands_by_word, fits as does_fit, options_fit as fit};
ghost use Rattle.kf_words.specs.OfWords.{row_of as row_of_word};
ghost use Rattle.kf_words.specs.CommandViews.{row_meant, arguments_meant, presence_meant, values_of};

use crate::arguments::Arguments;

/// A command on one file and nothing else.
#[derive(Clone, Copy)]
pub(crate) enum OneFile {
    Hyper,
    Traces,
    Channel,
    Trail,
    Capacity,
    Blame,
}

/// A command on two files and nothing else.
#[derive(Clone, Copy)]
pub(crate) enum TwoFiles {
    Cascade,
    Parallel,
    Covers,
}

/// A command on one file, under the gain that `--gain` names.
#[derive(Clone, Copy)]
pub(crate) enum UnderGain {
    Leak,
    Attack,
    Lines,
}

/// A command whose last value is a pair of numbers, and whose others are files.
#[derive(Clone, Copy)]
pub(crate) enum WithPair {
    Choice,
    Reach,
    Quiet,
}

/// A command, by its word.
#[derive(Clone, Copy)]
pub(crate) enum CommandWord {
    OneFile(OneFile),
    TwoFiles(TwoFiles),
    UnderGain(UnderGain),
    WithPair(WithPair),
    Make,
    Refine,
    Check,
}

/// Whether an option stands after a command's word: it may not, it may, or it must.
#[derive(Clone, Copy)]
pub(crate) enum Presence {
    Absent,
    Optional,
    Required,
}

/// What stands after a command's word.
#[derive(Clone, Copy)]
pub(crate) struct CommandRow {
    pub(crate) command: CommandWord,
    /// How many values stand after the word: files, and maybe a number, a probability or a block.
    pub(crate) values: usize,
    /// Whether `--gain` stands.
    pub(crate) gain: Presence,
    /// Whether `--json` may stand.
    pub(crate) takes_json: bool,
}

// A command's word and its row, which takes neither `--gain` nor `--json`.
macro_rules! plain {
    ($word:literal, $command:expr, $values:literal) => {
        (
            $word,
            CommandRow {
                command: $command,
                values: $values,
                gain: Presence::Absent,
                takes_json: false,
            },
        )
    };
}

// The word and the row of a command on one file under a gain.
macro_rules! under_gain {
    ($word:literal, $command:expr, $gain:expr) => {
        (
            $word,
            CommandRow {
                command: CommandWord::UnderGain($command),
                values: 1,
                gain: $gain,
                takes_json: false,
            },
        )
    };
}

/// The table: each command's word, and what stands after it.
const COMMANDS: &[(&str, CommandRow); 18] = &[
    plain!("hyper", CommandWord::OneFile(OneFile::Hyper), 1),
    plain!("traces", CommandWord::OneFile(OneFile::Traces), 1),
    plain!("channel", CommandWord::OneFile(OneFile::Channel), 1),
    under_gain!("leak", UnderGain::Leak, Presence::Required),
    plain!("trail", CommandWord::OneFile(OneFile::Trail), 1),
    plain!("make", CommandWord::Make, 1),
    (
        "refine",
        CommandRow {
            command: CommandWord::Refine,
            values: 2,
            gain: Presence::Absent,
            takes_json: true,
        },
    ),
    plain!("check", CommandWord::Check, 3),
    plain!("capacity", CommandWord::OneFile(OneFile::Capacity), 1),
    plain!("cascade", CommandWord::TwoFiles(TwoFiles::Cascade), 2),
    plain!("parallel", CommandWord::TwoFiles(TwoFiles::Parallel), 2),
    plain!("choice", CommandWord::WithPair(WithPair::Choice), 3),
    under_gain!("attack", UnderGain::Attack, Presence::Required),
    plain!("reach", CommandWord::WithPair(WithPair::Reach), 2),
    plain!("covers", CommandWord::TwoFiles(TwoFiles::Covers), 2),
    plain!("quiet", CommandWord::WithPair(WithPair::Quiet), 2),
    plain!("blame", CommandWord::OneFile(OneFile::Blame), 1),
    under_gain!("lines", UnderGain::Lines, Presence::Optional),
];

// The table by a call, since a clause can name no constant that holds texts.
fn commands() -> &'static [(&'static str, CommandRow)]
    ensures meant { map (λ r. (r.0.now, row_meant r.1)) result.now ≡ commands_by_word }
    ensures values { Each (λ r. r.1.values ≡ values_of r.1.command) result.now }
{
    COMMANDS
}

// The row of the first command of a table that has this word.
fn first_row(table: &[(&str, CommandRow)], word: &str) -> Option<CommandRow>
    ensures { result ≡ lookup (λ key. bytes_eq word.now key.now) table.now }
{
    for named in table {
        if word == named.0 {
            return Some(named.1);
        }
    }
    None
}

/// The row of a command's word.
pub(crate) fn row_of(word: &str) -> Option<CommandRow>
    ensures row { option_map row_meant result ≡ row_of_word word.now }
    ensures values { IfSome result (λ row. row.values ≡ values_of row.command) }
{
    first_row(commands(), word)
}

// Whether an option may stand, or be missing.
fn fits(presence: Presence, stands: bool) -> bool
    ensures { result ≡ does_fit (presence_meant presence) stands }
{
    match presence {
        Presence::Absent => !stands,
        Presence::Optional => true,
        Presence::Required => stands,
    }
}

/// Whether `--gain` stands only where it may and wherever it must, and `--json` only where it is taken.
pub(crate) fn options_fit(row: CommandRow, arguments: &Arguments<'_, '_>) -> bool
    ensures { result ≡ fit (row_meant row) (arguments_meant arguments.now) }
{
    fits(row.gain, arguments.gain.is_some()) && (row.takes_json || !arguments.json)
}

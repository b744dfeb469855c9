//! A gain function, whose table is read from its file.

ghost use Rattle.std.specs.Prelude.{◌∷◌, [], IfErr};
ghost use Rattle.kf_value.specs.Views.{items_of};
ghost use Rattle.kf_gain.specs.Views.{gain_tree, table_tree};
ghost use Rattle.kf_top.specs.Answer.{GainIn, TableOf};
ghost use Rattle.kf_top.specs.Stops.{Answers, IsOwn};
ghost use Rattle.kf_top.specs.TaskAnswers.{Counts, FileAnswer, FilesAnswer, names_in};
ghost use Rattle.kf_top.specs.Steps.{TableIn};
ghost use Rattle.kf_words.specs.Jobs.{gain_of};

use crate::refusal::{Refusal, Stop, lift};
use kf_gain::{Gain, GainTable, TableError, read_table};
use kf_io::Files;
use kf_load::read_source;
use kf_value::Target;
use kf_words::GainWord;
use std::alloc::Global;

// The gain table that these bytes of a file are.
fn table_of_bytes<'a>(
    alloc: Global,
    bytes: &[u8],
    target: &Target,
    name: &'a str,
) -> Result<GainTable, Stop<'a>>
    ensures answer { Answers table_tree result (TableOf (items_of target.now) name.now bytes.now) }
    ensures read { IfErr result IsOwn }
{
    match read_table(alloc, bytes, target) {
        Ok(table) => Ok(table),
        Err(error) => match error {
            TableError::Mem => Err(Stop::Mem),
            _ => Err(Stop::Refused(Refusal::BadTable(name, error))),
        },
    }
}

// The gain table in a file.
fn table_in<'a, F: Files>(
    alloc: Global,
    files: &mut F,
    target: &Target,
    name: &'a str,
) -> Result<GainTable, Stop<'a>>
    ensures answer { FileAnswer (F.contents files.old) (F.faults files.old) (F.faults files.new) name.now table_tree result
        (TableIn (items_of target.now)) }
    ensures counts { Counts (name.now ∷ []) (F.faults files.old) (F.faults files.new) result }
{
    match read_source(alloc, files, name) {
        Ok(bytes) => table_of_bytes(alloc, &bytes, target, name),
        Err(stop) => Err(lift(stop)),
    }
}

/// The gain of this word, whose table is read now.
pub(crate) fn gain_in<'a, F: Files>(
    alloc: Global,
    files: &mut F,
    target: &Target,
    word: &'a GainWord,
) -> Result<Gain, Stop<'a>>
    ensures answer { FilesAnswer (F.contents files.old) (F.faults files.old) (F.faults files.new) (names_in (gain_of word.now)) gain_tree result
        (GainIn (items_of target.now) (gain_of word.now)) }
    ensures counts { Counts (names_in (gain_of word.now)) (F.faults files.old) (F.faults files.new) result }
{
    match word {
        GainWord::Bayes => Ok(Gain::Bayes),
        GainWord::Tries(k) => Ok(Gain::Tries(*k)),
        GainWord::Guessing => Ok(Gain::Guessing),
        GainWord::Table(name) => {
            let table = table_in(alloc, files, target, name.as_str())?;
            Ok(Gain::Table(table))
        }
    }
}

//! Which line leaks: how much is seen of a file's program under a gain, and how much where each of its statements is silent.

ghost use Rattle.std.specs.Prelude.{◌≡◌, ◌≤◌, IfErr, length};
ghost use Rattle.kf_ast.specs.Views.{source_tree};
ghost use Rattle.kf_gain.specs.Views.{gain_tree};
ghost use Rattle.kf_load.specs.Stops.{IsProper};
ghost use Rattle.kf_load.specs.Views.{program_in, text_of};
ghost use Rattle.kf_support.specs.Cleared.{turns_of};
ghost use Rattle.kf_top.specs.Answer.{LinesOn, OnHyper};
ghost use Rattle.kf_top.specs.Outcome.{LinesUnder};
ghost use Rattle.kf_top.specs.Steps.{LinesAfter};
ghost use Rattle.kf_top.specs.Stops.{Answers, IsOwn};
ghost use Rattle.kf_top.specs.TaskAnswers.{Counts, FilesAnswer, TaskAnswer, names_in};
ghost use Rattle.kf_top.specs.Views.{shown};
ghost use Rattle.kf_words.specs.Jobs.{gain_of};
ghost use Rattle.kf_words.specs.OfWords.{named, on_file};
ghost use Rattle.kf_words.specs.Task.{Lines};

use crate::gain::gain_in;
use crate::refusal::{Done, Refusal, Stop, lift};
use kf_ast::Source;
use kf_gain::{Gain, GainFault};
use kf_io::Files;
use kf_lines::program_lines;
use kf_load::{Text, cleared_text, text_of_file};
use kf_support::Cleared;
use kf_value::Name;
use kf_words::GainWord;
use std::alloc::Global;

// The lines of a cleared program whose text has these bytes and this source, under a gain.
fn lines_under<'a>(
    alloc: Global,
    bytes: &[u8],
    source: &Source,
    cleared: &Cleared,
    gain: &Gain,
) -> Result<Done, Stop<'a>>
    requires short { length bytes.now ≤ 1048576 }
    ensures answer { Answers shown result (OnHyper (turns_of cleared.now) (program_in cleared.now)
        (LinesOn (turns_of cleared.now) bytes.now (source_tree source.now) (program_in cleared.now) (gain_tree gain.now))) }
    ensures read { IfErr result IsOwn }
{
    match program_lines(alloc, bytes, source, cleared, gain) {
        Ok(bytes) => Ok(Done { yes: true, bytes }),
        Err(GainFault::Wide) => Err(Stop::Refused(Refusal::WideGain)),
        Err(GainFault::Mem) => Err(Stop::Mem),
    }
}

// The lines of a cleared program under a gain, whose table is read now.
fn gain_lines<'a, F: Files>(
    alloc: Global,
    files: &mut F,
    bytes: &[u8],
    source: &Source,
    cleared: &Cleared,
    word: &'a GainWord,
) -> Result<Done, Stop<'a>>
    requires short { length bytes.now ≤ 1048576 }
    ensures answer { FilesAnswer (F.contents files.old) (F.faults files.old) (F.faults files.new) (names_in (gain_of word.now)) shown result
        (LinesAfter (gain_of word.now) (turns_of cleared.now) bytes.now (source_tree source.now) (program_in cleared.now)) }
    ensures counts { Counts (names_in (gain_of word.now)) (F.faults files.old) (F.faults files.new) result }
{
    let gain = gain_in(alloc, files, &cleared.program().target, word)?;
    lines_under(alloc, bytes, source, cleared, &gain)
}

// The lines of a text under a gain, whose table is read after the text is cleared.
fn text_lines<'a, F: Files>(
    alloc: Global,
    files: &mut F,
    name: &'a str,
    text: Text,
    word: &'a GainWord,
    turns: u32,
) -> Result<Done, Stop<'a>>
    requires proper { IsProper text }
    requires some_turns { 1 ≤ turns }
    requires few_turns { turns ≤ 65535 }
    ensures answer { FilesAnswer (F.contents files.old) (F.faults files.old) (F.faults files.new) (names_in (gain_of word.now)) shown result
        (λ tables. LinesUnder (gain_of word.now) turns tables (text_of name.now text)) }
    ensures counts { Counts (names_in (gain_of word.now)) (F.faults files.old) (F.faults files.new) result }
{
    let Text {
        bytes,
        source,
        program,
    } = text;
    match cleared_text(alloc, name, &bytes, program, turns) {
        Ok(cleared) => gain_lines(alloc, files, &bytes, &source, &cleared, word),
        Err(stop) => Err(lift(stop)),
    }
}

/// The lines of a file's program under a gain, whose table is read after the program is cleared.
pub(crate) fn lines<'a, F: Files>(
    alloc: Global,
    files: &mut F,
    file: &'a Name,
    word: &'a GainWord,
    turns: u32,
) -> Result<Done, Stop<'a>>
    requires some_turns { 1 ≤ turns }
    requires few_turns { turns ≤ 65535 }
    ensures answer { TaskAnswer (F.contents files.old) (F.faults files.old) (F.faults files.new)
        (on_file (Lines (gain_of word.now)) file.now turns) result }
    ensures counts { Counts (named (on_file (Lines (gain_of word.now)) file.now turns)) (F.faults files.old) (F.faults files.new) result }
{
    let name = file.as_str();
    match text_of_file(alloc, files, name) {
        Ok(text) => text_lines(alloc, files, name, text, word, turns),
        Err(stop) => Err(lift(stop)),
    }
}

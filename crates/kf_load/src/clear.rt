ghost use Rattle.std.specs.Prelude.{◌≡◌, ◌≤◌, ◌∷◌, [], ℕ, List, length, IfErr, IfOk};
ghost use Rattle.kf_ast.specs.Sources.{SourceTree};
ghost use Rattle.kf_core.specs.Checked.{IsChecked};
ghost use Rattle.kf_core.specs.Views.{program_tree};
ghost use Rattle.kf_support.specs.Answers.{cause_of};
ghost use Rattle.kf_support.specs.Cleared.{program_of, turns_of};
ghost use Rattle.kf_load.specs.Steps.{After, Each, Gives};
ghost use Rattle.kf_load.specs.Stops.{Answers, Counts, FileAnswers, IsNoRead, IsProper, PairAnswers};
ghost use Rattle.kf_load.specs.Texts.{LongCleared, TextOf, cause_word, cleared as whether_cleared};
ghost use Rattle.kf_load.specs.Refusals.{long_enough as whether_long};
ghost use Rattle.kf_load.specs.Views.{program_in, programs_in, text_of, texts_in};

use crate::position::place;
use crate::refusal::{Refusal, Stop, beside};
use crate::text::{Text, text_of_file};
use kf_core::Program;
use kf_io::Files;
use kf_support::{Cleared, Halt, RunFault, clear};
use std::alloc::Global;

// The word of a run fault.
fn fault_word(kind: RunFault) -> &'static str
    ensures { result.now ≡ cause_word (cause_of kind) }
{
    match kind {
        RunFault::DivZero => "DivZero",
        RunFault::ArithWide => "ArithWide",
        RunFault::OutOfRange => "OutOfRange",
        RunFault::NoWeight => "NoWeight",
        RunFault::NegativeWeight => "NegativeWeight",
        RunFault::RangeLong => "RangeLong",
        RunFault::LoopBound => "LoopBound",
    }
}

/// The program of a text with these bytes and this source, as one that meets no fault and whose scale isn't too wide. The text itself stays with
/// the caller.
pub fn cleared_text<'a>(
    alloc: Global,
    name: &'a str,
    bytes: &[u8],
    program: Program,
    turns: u32,
) -> Result<Cleared, Stop<'a>>
    requires short { length bytes.now ≤ 1048576 }
    requires checked { IsChecked (program_tree program) }
    requires some_turns { 1 ≤ turns }
    requires few_turns { turns ≤ 65535 }
    ensures answer { (source : SourceTree) → Answers program_in result
        (Gives (whether_cleared turns (record { name = name.now; bytes = bytes.now; source = source; program = program_tree program }))) }
    ensures program { IfOk result (λ cleared. program_in cleared ≡ program_tree program) }
    ensures turns { IfOk result (λ cleared. turns_of cleared ≡ turns) }
    ensures read { IfErr result IsNoRead }
{
    match clear(alloc, program, turns) {
        Ok(cleared) => Ok(cleared),
        Err(Halt::Fault { kind, at }) => {
            let (line, column) = place(bytes, at);
            let word = fault_word(kind);
            Err(Stop::Refused(Refusal::BadRun(name, line, column, word)))
        }
        Err(Halt::Scale) => Err(Stop::Refused(Refusal::WideScale(name))),
        Err(Halt::Mem) => Err(Stop::Mem),
    }
}

// A text's program as one that meets no fault and whose scale isn't too wide.
fn cleared<'a>(alloc: Global, name: &'a str, text: Text, turns: u32) -> Result<Cleared, Stop<'a>>
    requires proper { IsProper text }
    requires some_turns { 1 ≤ turns }
    requires few_turns { turns ≤ 65535 }
    ensures answer { Answers program_in result (Gives (whether_cleared turns (text_of name.now text))) }
    ensures program { IfOk result (λ cleared. program_in cleared ≡ program_tree text.program) }
    ensures turns { IfOk result (λ cleared. turns_of cleared ≡ turns) }
    ensures read { IfErr result IsNoRead }
{
    let Text { bytes, program, .. } = text;
    cleared_text(alloc, name, &bytes, program, turns)
}

// A cleared program, where it has at least this number of statements at its top level.
fn long_enough<'a>(name: &'a str, cleared: Cleared, least: u32) -> Result<Cleared, Stop<'a>>
    ensures answer { Answers program_in result (Gives (whether_long name.now least (program_in cleared))) }
    ensures turns { IfOk result (λ long. turns_of long ≡ turns_of cleared) }
    ensures long { IfOk result (λ long. least ≤ length (program_in long).body) }
    ensures read { IfErr result IsNoRead }
{
    let statements = cleared.program().body.as_slice().len();
    if least as usize <= statements {
        Ok(cleared)
    } else {
        drop(cleared);
        Err(Stop::Refused(Refusal::FewStatements(name, statements)))
    }
}

// A text's program, cleared, where it has at least this number of statements at its top level.
fn long_cleared<'a>(
    alloc: Global,
    name: &'a str,
    text: Text,
    least: u32,
    turns: u32,
) -> Result<Cleared, Stop<'a>>
    requires proper { IsProper text }
    requires some_turns { 1 ≤ turns }
    requires few_turns { turns ≤ 65535 }
    ensures answer { Answers program_in result (LongCleared turns least (text_of name.now text)) }
    ensures turns { IfOk result (λ cleared. turns_of cleared ≡ turns) }
    ensures long { IfOk result (λ cleared. least ≤ length (program_in cleared).body) }
    ensures read { IfErr result IsNoRead }
{
    let cleared = cleared(alloc, name, text, turns)?;
    long_enough(name, cleared, least)
}

/// The cleared program of a file, where it has at least this number of statements at its top level.
pub fn cleared_program<'a, F: Files>(
    alloc: Global,
    files: &mut F,
    name: &'a str,
    least: u32,
    turns: u32,
) -> Result<Cleared, Stop<'a>>
    requires some_turns { 1 ≤ turns }
    requires few_turns { turns ≤ 65535 }
    ensures answer { FileAnswers (F.contents files.old) (F.faults files.old) (F.faults files.new) name.now program_in result
        (λ file. After (TextOf file) (LongCleared turns least)) }
    ensures counts { Counts (name.now ∷ []) (F.faults files.old) (F.faults files.new) result }
    ensures unchanged { F.contents files.new ≡ F.contents files.old }
    ensures turns { IfOk result (λ cleared. turns_of cleared ≡ turns) }
    ensures long { IfOk result (λ cleared. least ≤ length (program_in cleared).body) }
{
    let text = text_of_file(alloc, files, name)?;
    long_cleared(alloc, name, text, least, turns)
}

/// Two texts.
#[derive(Drop)]
pub struct Texts {
    pub first: Text,
    pub second: Text,
}

/// The texts of two files: the second is read after the first is typed.
pub fn two_texts<'a, F: Files>(
    alloc: Global,
    files: &mut F,
    first: &'a str,
    second: &'a str,
) -> Result<Texts, Stop<'a>>
    ensures answer { PairAnswers (F.contents files.old) (F.faults files.old) (F.faults files.new) first.now second.now
        (texts_in first.now second.now) result (Each TextOf) }
    ensures counts { Counts (first.now ∷ second.now ∷ []) (F.faults files.old) (F.faults files.new) result }
    ensures unchanged { F.contents files.new ≡ F.contents files.old }
    ensures first_proper { IfOk result (λ texts. IsProper texts.first) }
    ensures second_proper { IfOk result (λ texts. IsProper texts.second) }
{
    let first_text = text_of_file(alloc, files, first)?;
    let (first, second) = beside(first_text, text_of_file(alloc, files, second))?;
    Ok(Texts { first, second })
}

/// Two cleared programs.
#[derive(Drop)]
pub struct Pair {
    pub first: Cleared,
    pub second: Cleared,
}

/// The programs of two texts, cleared one after the other.
pub fn cleared_pair<'a>(
    alloc: Global,
    first: &'a str,
    second: &'a str,
    texts: Texts,
    turns: u32,
) -> Result<Pair, Stop<'a>>
    requires first { IsProper texts.first }
    requires second { IsProper texts.second }
    requires some_turns { 1 ≤ turns }
    requires few_turns { turns ≤ 65535 }
    ensures answer { Answers programs_in result
        (Each (λ t. Gives (whether_cleared turns t)) (text_of first.now texts.first ∷ text_of second.now texts.second ∷ [])) }
    ensures first_program { IfOk result (λ pair. program_in pair.first ≡ program_tree texts.first.program) }
    ensures second_program { IfOk result (λ pair. program_in pair.second ≡ program_tree texts.second.program) }
    ensures first_turns { IfOk result (λ pair. turns_of pair.first ≡ turns) }
    ensures second_turns { IfOk result (λ pair. turns_of pair.second ≡ turns) }
    ensures read { IfErr result IsNoRead }
{
    let first_cleared = cleared(alloc, first, texts.first, turns);
    let (text, first_cleared) = beside(texts.second, first_cleared)?;
    let (first, second) = beside(first_cleared, cleared(alloc, second, text, turns))?;
    Ok(Pair { first, second })
}

/// The cleared programs of two files: both are read and typed before the first is cleared.
pub fn two_programs<'a, F: Files>(
    alloc: Global,
    files: &mut F,
    first: &'a str,
    second: &'a str,
    turns: u32,
) -> Result<Pair, Stop<'a>>
    requires some_turns { 1 ≤ turns }
    requires few_turns { turns ≤ 65535 }
    ensures answer { PairAnswers (F.contents files.old) (F.faults files.old) (F.faults files.new) first.now second.now programs_in result
        (λ programs. After (Each TextOf programs) (Each (λ t. Gives (whether_cleared turns t)))) }
    ensures counts { Counts (first.now ∷ second.now ∷ []) (F.faults files.old) (F.faults files.new) result }
    ensures unchanged { F.contents files.new ≡ F.contents files.old }
    ensures first_turns { IfOk result (λ pair. turns_of pair.first ≡ turns) }
    ensures second_turns { IfOk result (λ pair. turns_of pair.second ≡ turns) }
{
    let texts = two_texts(alloc, files, first, second)?;
    cleared_pair(alloc, first, second, texts, turns)
}

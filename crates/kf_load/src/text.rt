ghost use Rattle.std.specs.Prelude.{◌≡◌, ◌≤◌, ◌∷◌, [], ℕ, List, length, vec_len, IfErr, IfOk};
ghost use Rattle.kf_ast.specs.Views.{source_tree};
ghost use Rattle.kf_check.specs.Laws.{IsWellBuilt};
ghost use Rattle.kf_check.specs.Translation.{Typed};
ghost use Rattle.kf_lex.specs.Readings.{IsTokens};
ghost use Rattle.kf_parse.specs.Answers.{IsParsed};
ghost use Rattle.kf_core.specs.Checked.{IsChecked};
ghost use Rattle.kf_core.specs.Views.{program_tree};
ghost use Rattle.kf_load.specs.Place.{line_at, column_at};
ghost use Rattle.kf_load.specs.Stops.{Answers, Counts, FileAnswers, IsNoRead, IsProper, same};
ghost use Rattle.kf_load.specs.Texts.{TextWith, TypedOf, TextOf};
ghost use Rattle.kf_load.specs.Refusals.{TokensOf, SourceOf, ProgramOf};
ghost use Rattle.kf_load.specs.Views.{text_of};
ghost use Rattle.kf_load.specs.declared.refusal.Refusal.TheVariants as refusal;
ghost use Rattle.kf_load.specs.declared.refusal.Stop.TheVariants as stop;

use crate::file::read_source;
use crate::position::place;
use crate::refusal::{Refusal, Stop};
use kf_ast::Source;
use kf_check::{TypeError, check};
use kf_core::Program;
use kf_io::Files;
use kf_lex::{LexError, Tokens, lex};
use kf_parse::{ParseError, grammar, parse};
use std::alloc::Global;

// The refusal of a text for a fault of this word at this byte.
fn bad_text<'a>(name: &'a str, bytes: &[u8], at: u32, word: &'static str) -> Stop<'a>
    requires { length bytes.now ≤ 1048576 }
    ensures { result ≡ stop.Refused (refusal.BadText name.entry (line_at bytes.now at) (column_at bytes.now at) word.entry) }
{
    let (line, column) = place(bytes, at);
    Stop::Refused(Refusal::BadText(name, line, column, word))
}

// The tokens of a file's bytes.
fn tokens<'a>(alloc: Global, name: &'a str, bytes: &[u8]) -> Result<Tokens, Stop<'a>>
    requires { length bytes.now ≤ 1048576 }
    ensures answer { Answers same result (TokensOf name.now bytes.now) }
    ensures tokens { IfOk result (λ tokens. IsTokens bytes.now tokens) }
    ensures read { IfErr result IsNoRead }
{
    match lex(alloc, bytes) {
        Ok(tokens) => Ok(tokens),
        Err(LexError::Utf8 { at }) => Err(bad_text(name, bytes, at, "Utf8")),
        Err(LexError::Char { at }) => Err(bad_text(name, bytes, at, "Char")),
        Err(LexError::Number { at }) => Err(bad_text(name, bytes, at, "Number")),
        Err(LexError::Mem) => Err(Stop::Mem),
    }
}

// The source that the tokens are.
fn tree<'a>(alloc: Global, name: &'a str, bytes: &[u8], tokens: &Tokens) -> Result<Source, Stop<'a>>
    requires short { length bytes.now ≤ 1048576 }
    requires tokens { IsTokens bytes.now tokens.now }
    ensures answer { Answers source_tree result (SourceOf name.now bytes.now tokens.now) }
    ensures parsed { IfOk result (λ source. IsParsed bytes.now tokens.now (source_tree source)) }
    ensures read { IfErr result IsNoRead }
{
    match parse(alloc, bytes, tokens) {
        Ok(source) => Ok(source),
        Err(ParseError::Deep { at }) => Err(bad_text(name, bytes, at, "Deep")),
        Err(ParseError::Syntax { at }) => Err(bad_text(name, bytes, at, "Syntax")),
        Err(ParseError::Long { at }) => Err(bad_text(name, bytes, at, "Long")),
        Err(ParseError::Mem) => Err(Stop::Mem),
    }
}

// The program that the source is.
fn program<'a>(
    alloc: Global,
    name: &'a str,
    bytes: &[u8],
    source: &Source,
) -> Result<Program, Stop<'a>>
    requires short { length bytes.now ≤ 1048576 }
    requires built { IsWellBuilt (source_tree source.now) }
    ensures answer { Answers program_tree result (ProgramOf name.now bytes.now (source_tree source.now)) }
    ensures typed { IfOk result (λ program. Typed (source_tree source.now) (program_tree program)) }
    ensures checked { IfOk result (λ program. IsChecked (program_tree program)) }
    ensures read { IfErr result IsNoRead }
{
    match check(alloc, source) {
        Ok(program) => Ok(program),
        Err(TypeError::NoVariable { at }) => Err(bad_text(name, bytes, at, "NoVariable")),
        Err(TypeError::Twice { at }) => Err(bad_text(name, bytes, at, "Twice")),
        Err(TypeError::Unknown { at }) => Err(bad_text(name, bytes, at, "Unknown")),
        Err(TypeError::Clash { at }) => Err(bad_text(name, bytes, at, "Clash")),
        Err(TypeError::BadRange { at }) => Err(bad_text(name, bytes, at, "BadRange")),
        Err(TypeError::TypeTooLarge { at }) => Err(bad_text(name, bytes, at, "TypeTooLarge")),
        Err(TypeError::TooManyVariables { at }) => {
            Err(bad_text(name, bytes, at, "TooManyVariables"))
        }
        Err(TypeError::StoreTooWide { at }) => Err(bad_text(name, bytes, at, "StoreTooWide")),
        Err(TypeError::BadFlip { at }) => Err(bad_text(name, bytes, at, "BadFlip")),
        Err(TypeError::Mem) => Err(Stop::Mem),
    }
}

/// A file's bytes, and the source and the program that they are.
#[derive(Drop)]
pub struct Text {
    pub bytes: Vec<u8>,
    pub source: Source,
    pub program: Program,
}

/// A file's text with this source, whose places are those in the file's bytes.
pub fn text_with<'a>(
    alloc: Global,
    name: &'a str,
    bytes: Vec<u8>,
    source: Source,
) -> Result<Text, Stop<'a>>
    requires short { vec_len bytes ≤ 1048576 }
    requires built { IsWellBuilt (source_tree source) }
    ensures answer { Answers (text_of name.now) result (TextWith name.now bytes.items (source_tree source)) }
    ensures source { IfOk result (λ text. source_tree text.source ≡ source_tree source) }
    ensures proper { IfOk result IsProper }
    ensures read { IfErr result IsNoRead }
{
    let program = program(alloc, name, &bytes, &source)?;
    Ok(Text {
        bytes,
        source,
        program,
    })
}

/// The text that bytes are: their source and their program. Its refusals have the name.
#[tactic(auto, unfolding(crate::specs::Texts::TypedOf))]
pub fn text_of_bytes<'a>(alloc: Global, name: &'a str, bytes: Vec<u8>) -> Result<Text, Stop<'a>>
    requires short { vec_len bytes ≤ 1048576 }
    ensures answer { Answers (text_of name.now) result (TypedOf name.now bytes.items) }
    ensures proper { IfOk result IsProper }
    ensures read { IfErr result IsNoRead }
{
    grammar();
    let tokens = tokens(alloc, name, &bytes)?;
    let source = tree(alloc, name, &bytes, &tokens)?;
    text_with(alloc, name, bytes, source)
}

/// The text of a file: its bytes, and the source and the program that they are.
pub fn text_of_file<'a, F: Files>(
    alloc: Global,
    files: &mut F,
    name: &'a str,
) -> Result<Text, Stop<'a>>
    ensures answer { FileAnswers (F.contents files.old) (F.faults files.old) (F.faults files.new) name.now (text_of name.now) result TextOf }
    ensures counts { Counts (name.now ∷ []) (F.faults files.old) (F.faults files.new) result }
    ensures unchanged { F.contents files.new ≡ F.contents files.old }
    ensures proper { IfOk result IsProper }
{
    let bytes = read_source(alloc, files, name)?;
    text_of_bytes(alloc, name, bytes)
}

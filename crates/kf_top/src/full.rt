//! Two texts with their full sources, cleared.

ghost use Rattle.std.specs.Prelude.{◌≡◌, ◌≤◌, ◌∷◌, [], IfErr, IfOk};
ghost use Rattle.kf_ast.specs.Views.{source_tree};
ghost use Rattle.kf_check.specs.Laws.{IsWellBuilt};
ghost use Rattle.kf_load.specs.Steps.{Each, Gives};
ghost use Rattle.kf_load.specs.Stops.{IsProper};
ghost use Rattle.kf_load.specs.Texts.{cleared as whether_cleared};
ghost use Rattle.kf_load.specs.Views.{program_in, programs_in, text_of, texts_in};
ghost use Rattle.kf_prior.specs.Laws.{IsFull};
ghost use Rattle.kf_support.specs.Cleared.{turns_of};
ghost use Rattle.kf_top.specs.Outcome.{few_stores, ReadyOf};
ghost use Rattle.kf_top.specs.Stops.{full_tree, Answers, IsOwn};
ghost use Rattle.kf_top.specs.Steps.{FullTexts, FullOf};
ghost use Rattle.kf_words.specs.Task.{Covers};
ghost use Rattle.kf_core.specs.Views.{program_tree};

use crate::refusal::{Refusal, Stop, beside, lift};
use kf_ast::Source;
use kf_load::{Pair, Text, Texts, cleared_pair, text_with};
use kf_prior::{FullError, full_source};
use std::alloc::Global;

// The full source of a text, where it hasn't too many initial stores.
fn full_of<'a>(alloc: Global, name: &'a str, text: &Text) -> Result<Source, Stop<'a>>
    requires { IsProper text.now }
    ensures answer { Answers (λ s. text_of name.now text.now) result (Gives (few_stores (text_of name.now text.now))) }
    ensures full { IfOk result (λ s. source_tree s ≡ full_tree (text_of name.now text.now)) }
    ensures built { IfOk result (λ s. IsWellBuilt (source_tree s)) }
    ensures read { IfErr result IsOwn }
{
    match full_source(alloc, &text.source, &text.program) {
        Ok(full) => Ok(full),
        Err(FullError::Stores { count }) => { Err(Stop::Refused(Refusal::ManyStores(name, count))) }
        Err(FullError::Mem) => Err(Stop::Mem),
    }
}

// Two sources.
#[derive(Drop)]
pub(crate) struct Sources {
    first: Source,
    second: Source,
}

// The full sources of two texts.
fn two_full_sources<'a>(
    alloc: Global,
    first: &'a str,
    second: &'a str,
    texts: &Texts,
) -> Result<Sources, Stop<'a>>
    requires first { IsProper texts.now.first }
    requires second { IsProper texts.now.second }
    ensures answer { Answers (λ sources. texts_in first.now second.now texts.now) result
        (Each (λ t. Gives (few_stores t)) (texts_in first.now second.now texts.now)) }
    ensures first_full { IfOk result (λ sources. source_tree sources.first ≡ full_tree (text_of first.now texts.now.first)) }
    ensures second_full { IfOk result (λ sources. source_tree sources.second ≡ full_tree (text_of second.now texts.now.second)) }
    ensures first_built { IfOk result (λ sources. IsWellBuilt (source_tree sources.first)) }
    ensures second_built { IfOk result (λ sources. IsWellBuilt (source_tree sources.second)) }
    ensures read { IfErr result IsOwn }
{
    let first_source = full_of(alloc, first, &texts.first)?;
    let second_source = full_of(alloc, second, &texts.second)?;
    Ok(Sources {
        first: first_source,
        second: second_source,
    })
}

// A text with its full source.
fn full_text<'a>(alloc: Global, name: &'a str, text: Text, source: Source) -> Result<Text, Stop<'a>>
    requires proper { IsProper text }
    requires full { source_tree source ≡ full_tree (text_of name.now text) }
    requires built { IsWellBuilt (source_tree source) }
    ensures answer { Answers (text_of name.now) result (FullOf (text_of name.now text)) }
    ensures proper { IfOk result IsProper }
    ensures full { IfOk result (λ full. IsFull (program_tree full.program)) }
    ensures read { IfErr result IsOwn }
{
    let Text {
        bytes,
        source: declared,
        program,
    } = text;
    drop(declared);
    drop(program);
    match text_with(alloc, name, bytes, source) {
        Ok(full) => Ok(full),
        Err(stop) => Err(lift(stop)),
    }
}

// Two texts with their full sources.
fn two_with_sources<'a>(
    alloc: Global,
    first: &'a str,
    second: &'a str,
    texts: Texts,
    sources: Sources,
) -> Result<Texts, Stop<'a>>
    requires first { IsProper texts.first }
    requires second { IsProper texts.second }
    requires first_full { source_tree sources.first ≡ full_tree (text_of first.now texts.first) }
    requires second_full { source_tree sources.second ≡ full_tree (text_of second.now texts.second) }
    requires first_built { IsWellBuilt (source_tree sources.first) }
    requires second_built { IsWellBuilt (source_tree sources.second) }
    ensures answer { Answers (texts_in first.now second.now) result (Each FullOf (texts_in first.now second.now texts)) }
    ensures first_proper { IfOk result (λ full. IsProper full.first) }
    ensures second_proper { IfOk result (λ full. IsProper full.second) }
    ensures first_full { IfOk result (λ full. IsFull (program_tree full.first.program)) }
    ensures second_full { IfOk result (λ full. IsFull (program_tree full.second.program)) }
    ensures read { IfErr result IsOwn }
{
    let (first_text, (text, source)) = beside(
        full_text(alloc, first, texts.first, sources.first),
        (texts.second, sources.second),
    )?;
    let (second_text, first_text) = beside(full_text(alloc, second, text, source), first_text)?;
    Ok(Texts {
        first: first_text,
        second: second_text,
    })
}

// Two texts with their full sources: stores are counted before the first full source is typed.
fn two_full_texts<'a>(
    alloc: Global,
    first: &'a str,
    second: &'a str,
    texts: Texts,
) -> Result<Texts, Stop<'a>>
    requires first { IsProper texts.first }
    requires second { IsProper texts.second }
    ensures answer { Answers (texts_in first.now second.now) result (FullTexts (texts_in first.now second.now texts)) }
    ensures first_proper { IfOk result (λ full. IsProper full.first) }
    ensures second_proper { IfOk result (λ full. IsProper full.second) }
    ensures first_full { IfOk result (λ full. IsFull (program_tree full.first.program)) }
    ensures second_full { IfOk result (λ full. IsFull (program_tree full.second.program)) }
    ensures read { IfErr result IsOwn }
{
    let (sources, texts) = beside(two_full_sources(alloc, first, second, &texts), texts)?;
    two_with_sources(alloc, first, second, texts, sources)
}

// Two texts, cleared.
fn two_cleared<'a>(
    alloc: Global,
    first: &'a str,
    second: &'a str,
    texts: Texts,
    turns: u32,
) -> Result<Pair, Stop<'a>>
    requires first { IsProper texts.first }
    requires second { IsProper texts.second }
    requires first_full { IsFull (program_tree texts.first.program) }
    requires second_full { IsFull (program_tree texts.second.program) }
    requires some_turns { 1 ≤ turns }
    requires few_turns { turns ≤ 65535 }
    ensures answer { Answers programs_in result (Each (λ t. Gives (whether_cleared turns t)) (texts_in first.now second.now texts)) }
    ensures first_full { IfOk result (λ pair. IsFull (program_in pair.first)) }
    ensures second_full { IfOk result (λ pair. IsFull (program_in pair.second)) }
    ensures first_turns { IfOk result (λ pair. turns_of pair.first ≡ turns) }
    ensures second_turns { IfOk result (λ pair. turns_of pair.second ≡ turns) }
    ensures read { IfErr result IsOwn }
{
    match cleared_pair(alloc, first, second, texts, turns) {
        Ok(pair) => Ok(pair),
        Err(stop) => Err(lift(stop)),
    }
}

/// The programs of two texts with their full sources, cleared.
pub(crate) fn full_pair<'a>(
    alloc: Global,
    first: &'a str,
    second: &'a str,
    texts: Texts,
    turns: u32,
) -> Result<Pair, Stop<'a>>
    requires first { IsProper texts.first }
    requires second { IsProper texts.second }
    requires some_turns { 1 ≤ turns }
    requires few_turns { turns ≤ 65535 }
    ensures answer { Answers programs_in result (ReadyOf Covers turns (texts_in first.now second.now texts)) }
    ensures first_full { IfOk result (λ pair. IsFull (program_in pair.first)) }
    ensures second_full { IfOk result (λ pair. IsFull (program_in pair.second)) }
    ensures first_turns { IfOk result (λ pair. turns_of pair.first ≡ turns) }
    ensures second_turns { IfOk result (λ pair. turns_of pair.second ≡ turns) }
    ensures read { IfErr result IsOwn }
{
    let full = two_full_texts(alloc, first, second, texts)?;
    two_cleared(alloc, first, second, full, turns)
}

// Calls with what they answer, worked out by hand.
ghost use Rattle.kf_ast.specs.Views.{source_tree};
ghost use Rattle.kf_core.specs.Views.{program_tree};
ghost use Rattle.kf_core.specs.Checked.{IsChecked};
ghost use Rattle.kf_check.specs.Laws.{IsWellBuilt};

mod choices;
mod erasure;
mod full_sources;
mod lexer;
mod make;
mod memos;
mod operators;
mod parser;
mod programs;
mod values;

use kf_ast::Source;
use kf_check::check;
use kf_core::Program;
use kf_lex::lex;
use kf_parse::{grammar, parse};
use std::process::Abort;

// The source of a text.
fn source_of(rt: &(impl Abort + AllocGlobal), text: &str) -> Source
    ensures { IsWellBuilt (source_tree result) }
{
    assert!(rt; text.len() <= 1000, "the text is too long");
    grammar();
    let tokens = lex(rt.alloc(), text.as_bytes()).expect(rt, text);
    parse(rt.alloc(), text.as_bytes(), &tokens).expect(rt, text)
}

// The program of a text.
fn program_of(rt: &(impl Abort + AllocGlobal), text: &str) -> Program
    ensures { IsChecked (program_tree result) }
{
    check(rt.alloc(), &source_of(rt, text)).expect(rt, text)
}

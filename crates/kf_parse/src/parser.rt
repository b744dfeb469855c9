ghost use Rattle.std.specs.Prelude.{◌≡◌, ◌≤◌, length, All, IfOk, IfErr};
ghost use Rattle.kf_ast.specs.Views.{source_tree};
ghost use Rattle.kf_lex.specs.Readings.{IsTokens};
ghost use Rattle.kf_parse.specs.Answers.{IsParsed, IsRefused};
ghost use Rattle.kf_parse.specs.Depth.{IsShallow};
ghost use Rattle.kf_parse.specs.Reads.{IsSpelled};
ghost use Rattle.kf_parse.specs.Begins.{place_in};

use crate::ParseError;
use crate::cursor::Cursor;
use crate::deep::first_deep;
use crate::stop::Stop;
use kf_ast::Source;
use kf_lex::{Token, Tokens, spans};
use std::alloc::Global;

/// How many brackets may stand open, and one more: how deep the parser goes.
const MAX_DEPTH: u32 = 65;

// The byte at which the first of the tokens that are left stands, or the source's end.
fn place(src: &[u8], rest: &[Token]) -> u32
    requires { length src.now ≤ 1048576 }
    ensures { result ≡ place_in src.now rest.now }
{
    match rest.first() {
        Some(token) => token.start,
        None => src.len() as u32,
    }
}

// The program that tokens are, none of which opens a bracket too many.
fn read(alloc: Global, src: &[u8], tokens: &[Token]) -> Result<Source, ParseError>
    requires short { length src.now ≤ 1048576 }
    requires names { All (IsSpelled src.now) tokens.now }
    requires shallow { IsShallow tokens.now }
    ensures parsed { IfOk result (λ source. IsParsed src.now tokens.now (source_tree source)) }
    ensures refused { IfErr result (λ e. IsRefused src.now tokens.now e) }
{
    let mut cursor = Cursor {
        alloc,
        src,
        rest: tokens,
    };
    match cursor.program(MAX_DEPTH) {
        Ok(read) => match cursor.peek() {
            Some(token) => Err(ParseError::Syntax { at: token.start }),
            None => match read.long {
                Some(at) => Err(ParseError::Long { at }),
                None => Ok(read.value),
            },
        },
        Err(Stop::Syntax) => Err(ParseError::Syntax {
            at: place(src, cursor.rest),
        }),
        Err(Stop::Deep) => unreachable!(),
        Err(Stop::Mem) => Err(ParseError::Mem),
    }
}

/// The program that the tokens of a source are, or why they are none.
///
/// Every node of the tree has its place. Brackets nest 64 deep at most and an expression has 1,000 nodes at most, so that
/// no source exhausts the stack.
pub fn parse(alloc: Global, src: &[u8], tokens: &Tokens) -> Result<Source, ParseError>
    requires short { length src.now ≤ 1048576 }
    requires tokens { IsTokens src.now tokens.now }
    ensures parsed { IfOk result (λ source. IsParsed src.now tokens.now (source_tree source)) }
    ensures refused { IfErr result (λ e. IsRefused src.now tokens.now e) }
{
    spans();
    match first_deep(tokens.as_slice()) {
        Some(at) => Err(ParseError::Deep { at }),
        None => read(alloc, src, tokens.as_slice()),
    }
}

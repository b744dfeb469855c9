//! Reads the tokens of a source.

ghost use Rattle.std.specs.Prelude.{◌≡◌, ◌+◌, ◌<◌, ◌≤◌, length, IfErr, IfOk, MatchOption};
ghost use Rattle.kf_lex.specs.Cuts.{IsAdded, IsFirstWrong, IsOfKind, IsRefused, IsTold, IsFaultOrMem, IsNumber, valid_front};
ghost use Rattle.std.specs.Str.{IsValidUpTo};
ghost use Rattle.std.specs.Str.Parse.{digits_value};
ghost use Rattle.kf_lex.specs.Lexemes.{greatest_number};
ghost use Rattle.kf_lex.specs.Readings.{IsTokens, Reads};

use crate::cuts::{Cut, Piece, first_piece};
use crate::token::{LexError, Tok, Token, Tokens};
use crate::words::reserved;
use std::alloc::{AllocFailed, Global};
use std::str;

/// The greatest number of a source.
const GREATEST_NUMBER: u32 = 1_000_000_000;

impl<T: Drop> From<AllocFailed<T>> for LexError {
    ghost use Rattle.std.specs.Prelude.{◌≡◌};
    ghost use Rattle.kf_lex.specs.declared.token.LexError.TheVariants as errors;

    ghost from_gives = { λ _ e. e ≡ errors.Mem };

    fn from(_: AllocFailed<T>) -> Self {
        LexError::Mem
    }
}

/// The source up to the first byte that is not UTF-8.
fn valid_front(src: &[u8]) -> &str
    ensures value { result.now ≡ valid_front src.now }
    ensures longest { length result.now < length src.now → IsValidUpTo src.now (length result.now) }
{
    match str::from_utf8(src) {
        Ok(text) => text,
        Err(e) => str::from_utf8(&src[..e.valid_up_to()]).unwrap_or(""),
    }
}

/// The number that digits write, if it is not too great.
fn number(digits: &str) -> Option<u32>
    requires { IsNumber digits.now }
    ensures { MatchOption result (greatest_number < digits_value 10 digits.now) (λ n. (digits_value 10 digits.now ≡ n) × (n ≤ greatest_number)) }
{
    let number = digits.parse::<u32>().ok()?;
    if number <= GREATEST_NUMBER {
        Some(number)
    } else {
        None
    }
}

/// The kind of token that a piece at this place is, and `None` of a blank.
fn kind_of(cut: &Cut<'_>, at: u32) -> Result<Option<Tok>, LexError>
    requires { IsOfKind cut.now.piece cut.now.text.now cut.now.rest.now }
    ensures { IsTold cut.now at result }
{
    match cut.piece {
        Piece::Blank => Ok(None),
        Piece::Number => match number(cut.text) {
            Some(number) => Ok(Some(Tok::Number(number))),
            None => Err(LexError::Number { at }),
        },
        Piece::Word => match reserved(cut.text) {
            Some(word) => Ok(Some(Tok::Word(word))),
            None => Ok(Some(Tok::Name)),
        },
        Piece::Sign(sign) => Ok(Some(Tok::Sign(sign))),
        Piece::Other => Err(LexError::Char { at }),
    }
}

/// Adds the token that a piece at this place is, if it is one, and answers the place behind it.
fn add_token(tokens: &mut Vec<Token>, cut: &Cut<'_>, at: u32) -> Result<u32, LexError>
    requires kind { IsOfKind cut.now.piece cut.now.text.now cut.now.rest.now }
    requires room { at + length cut.now.text.now ≤ 1048576 }
    ensures ok { IfOk result (λ end. IsAdded cut.now at end tokens.old.items tokens.new.items) }
    ensures err { IfErr result (λ e. IsRefused cut.now at e) }
{
    let end = at + cut.text.len() as u32;
    if let Some(kind) = kind_of(cut, at)? {
        tokens.push(Token {
            kind,
            start: at,
            end,
        })?;
    }
    Ok(end)
}

/// The tokens of a text.
fn tokens_of(alloc: Global, text: &str) -> Result<Vec<Token>, LexError>
    requires { length text.now ≤ 1048576 }
    ensures ok { IfOk result (λ tokens. Reads 0 text.now tokens.items) }
    ensures err { IfErr result (λ e. IsFirstWrong text.now e) }
{
    let mut tokens = Vec::new(alloc);
    let mut at = 0;
    let mut left = text;
    while let Some(cut) = first_piece(left) {
        at = add_token(&mut tokens, &cut, at)?;
        left = cut.rest;
    }
    Ok(tokens)
}

/// The tokens of a source of at most 1,048,576 bytes, or its first fault. Each place counts bytes.
pub fn lex(alloc: Global, src: &[u8]) -> Result<Tokens, LexError>
    requires { length src.now ≤ 1048576 }
    ensures tokens { IfOk result (λ tokens. IsTokens src.now tokens) }
    ensures fault { IfErr result (λ e. IsFaultOrMem src.now e) }
{
    let text = valid_front(src);
    let tokens = tokens_of(alloc, text)?;
    if text.len() < src.len() {
        return Err(LexError::Utf8 {
            at: text.len() as u32,
        });
    }
    Ok(Tokens::new(tokens))
}

//! Cuts a text into pieces.

ghost use Rattle.std.specs.Prelude.{◌≡◌, ◌≢◌, ◌++◌, ℕ, List, [], not, ◌==◌, MatchOption, IfSome, IsFalse, IsTrue, length, nat_eq};
ghost use Rattle.std.specs.Char.{encode_utf8, is_ascii_digit, IsScalar};
ghost use Rattle.std.specs.List.{starts_with};
ghost use Rattle.std.specs.Str.{IsCharBoundary};
ghost use Rattle.unicode_ident.specs.Ident.{is_xid_continue};
ghost use Rattle.kf_lex.specs.Cuts.{IsBeginning, IsCut, IsRun, first_sign, halves, is_in_line, begins_name};
ghost use Rattle.kf_lex.specs.Pieces.{is_separator};
ghost use Rattle.kf_lex.specs.Words.{sign_text};

use crate::token::Sign;

/// What kind of piece a text begins with.
#[derive(Clone, Copy, Debug)]
pub enum Piece {
    /// A separator or a comment.
    Blank,
    /// Digits.
    Number,
    /// A name or a reserved word.
    Word,
    Sign(Sign),
    /// A character with which no token begins.
    Other,
}

/// A text, cut behind its first piece.
#[derive(Clone, Copy, Debug)]
pub struct Cut<'a> {
    pub piece: Piece,
    pub text: &'a str,
    pub rest: &'a str,
}

/// The signs, each before those that are fronts of it.
const SIGNS: [Sign; 20] = [
    Sign::Assign,
    Sign::Colon,
    Sign::Semi,
    Sign::Comma,
    Sign::ParenOpen,
    Sign::ParenClose,
    Sign::BraceOpen,
    Sign::BraceClose,
    Sign::Range,
    Sign::Dot,
    Sign::Slash,
    Sign::Equal,
    Sign::NotEqual,
    Sign::AtMost,
    Sign::Less,
    Sign::AtLeast,
    Sign::Greater,
    Sign::Plus,
    Sign::Minus,
    Sign::Star,
];

fn begins_with(text: &str, front: &str) -> bool
    ensures value { result ≡ starts_with nat_eq text.now front.now }
    ensures cut { IsTrue result → IsCharBoundary text.now (length front.now) }
{
    text.starts_with(front)
}

/// The longest sign with which the text begins.
fn sign_at(text: &str) -> Option<Sign>
    ensures first { result ≡ first_sign SIGNS text.now }
    ensures cut { IfSome result (λ s. IsCharBoundary text.now (length (sign_text s))) }
{
    for sign in SIGNS {
        if begins_with(text, sign.text()) {
            return Some(sign);
        }
    }
    None
}

/// The text cut at this place, or at its end where there is none.
fn split(text: &str, at: Option<usize>) -> (&str, &str)
    requires { IfSome at (IsCharBoundary text.now) }
    ensures front { result.0.now ≡ (halves text.now at).0 }
    ensures back { result.1.now ≡ (halves text.now at).1 }
{
    text.split_at(at.unwrap_or(text.len()))
}

/// The digits with which the text begins, and what follows them.
fn split_digits(text: &str) -> (&str, &str)
    ensures { IsRun is_ascii_digit text.now result.0.now result.1.now }
{
    split(text, text.find(|c: char| !c.is_ascii_digit()))
}

/// The characters of words with which the text begins, and what follows them.
fn split_word(text: &str) -> (&str, &str)
    ensures { IsRun is_xid_continue text.now result.0.now result.1.now }
{
    split(
        text,
        text.find(|c: char| !unicode_ident::is_xid_continue(c)),
    )
}

/// The line with which the text begins, and what follows it from its LF on.
fn split_line(text: &str) -> (&str, &str)
    ensures { IsRun is_in_line text.now result.0.now result.1.now }
{
    split(text, text.find(|c: char| c == '\n'))
}

/// Whether the character is a space, a tab, an LF or a CR.
fn is_separator(c: char) -> bool
    ensures { result ≡ is_separator c }
{
    c == ' ' || c == '\t' || c == '\n' || c == '\r'
}

/// Whether a name may begin with the character.
fn begins_name(c: char) -> bool
    ensures { result ≡ begins_name c }
{
    unicode_ident::is_xid_start(c) || c == '_'
}

/// The text, cut behind a piece of this kind.
fn behind<'a>(piece: Piece, halves: (&'a str, &'a str)) -> Cut<'a>
    ensures piece { result.piece ≡ piece }
    ensures text { result.text.now ≡ halves.entry.0.now }
    ensures rest { result.rest.now ≡ halves.entry.1.now }
{
    Cut {
        piece,
        text: halves.0,
        rest: halves.1,
    }
}

/// The sign or the other character with which the text begins.
fn cut_sign(first: char, text: &str) -> Cut<'_>
    requires beginning { IsBeginning first text.now }
    requires no_separator { IsFalse (is_separator first) }
    requires no_comment { first ≢ 35 }
    requires no_digit { IsFalse (is_ascii_digit first) }
    requires no_name { IsFalse (begins_name first) }
    ensures { IsCut text.now result }
{
    match sign_at(text) {
        Some(sign) => behind(Piece::Sign(sign), text.split_at(sign.text().len())),
        None => behind(Piece::Other, text.split_at(first.len_utf8())),
    }
}

/// The first piece of a text that begins with this character.
fn cut_at(first: char, text: &str) -> Cut<'_>
    requires { IsBeginning first text.now }
    ensures { IsCut text.now result }
{
    if is_separator(first) {
        behind(Piece::Blank, text.split_at(1))
    } else if first == '#' {
        behind(Piece::Blank, split_line(text))
    } else if first.is_ascii_digit() {
        behind(Piece::Number, split_digits(text))
    } else if begins_name(first) {
        behind(Piece::Word, split_word(text))
    } else {
        cut_sign(first, text)
    }
}

/// The first piece of a text, and `None` of an empty one.
pub fn first_piece(text: &str) -> Option<Cut<'_>>
    ensures { MatchOption result (text.now ≡ []) (λ cut. IsCut text.now cut) }
{
    let first = text.chars().next()?;
    Some(cut_at(first, text))
}

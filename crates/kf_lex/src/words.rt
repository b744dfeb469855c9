//! How signs and reserved words are written.

ghost use Rattle.std.specs.Prelude.{◌≡◌, Option};
ghost use Rattle.kf_lex.specs.Operators.{op_of, operator_of, operator_word, own_word, operator_with, word_of};
ghost use Rattle.kf_lex.specs.Words.{reserved, sign_text};
ghost use Rattle.kf_ops.specs.Rows.{operators};

use crate::token::{Sign, Tok, Word};
use kf_ops::{Op, find, operators};

impl Sign {
    /// How it is written.
    pub(crate) fn text(self) -> &'static str
        ensures { result.now ≡ sign_text self }
    {
        match self {
            Sign::Assign => ":=",
            Sign::Colon => ":",
            Sign::Semi => ";",
            Sign::Comma => ",",
            Sign::ParenOpen => "(",
            Sign::ParenClose => ")",
            Sign::BraceOpen => "{",
            Sign::BraceClose => "}",
            Sign::Range => "..",
            Sign::Dot => ".",
            Sign::Slash => "/",
            Sign::Equal => "=",
            Sign::NotEqual => "!=",
            Sign::AtMost => "<=",
            Sign::Less => "<",
            Sign::AtLeast => ">=",
            Sign::Greater => ">",
            Sign::Plus => "+",
            Sign::Minus => "-",
            Sign::Star => "*",
        }
    }
}

/// The reserved word that is no operator and has these letters.
fn own_word(text: &str) -> Option<Word>
    ensures { result ≡ own_word text.now }
{
    match text {
        "var" => Some(Word::VarWord),
        "vis" => Some(Word::VisWord),
        "bool" => Some(Word::BoolWord),
        "set" => Some(Word::SetWord),
        "of" => Some(Word::OfWord),
        "about" => Some(Word::AboutWord),
        "old" => Some(Word::OldWord),
        "skip" => Some(Word::SkipWord),
        "observe" => Some(Word::ObserveWord),
        "if" => Some(Word::IfWord),
        "else" => Some(Word::ElseWord),
        "while" => Some(Word::WhileWord),
        "uniform" => Some(Word::UniformWord),
        "choose" => Some(Word::ChooseWord),
        "flip" => Some(Word::FlipWord),
        "true" => Some(Word::TrueWord),
        "false" => Some(Word::FalseWord),
        _ => None,
    }
}

/// The operators that are written with letters, each with its word. The letters stand in the operator's row.
pub(crate) const OPERATOR_WORDS: [(Op, Word); 17] = [
    (Op::Or, Word::OrWord),
    (Op::And, Word::AndWord),
    (Op::Not, Word::NotWord),
    (Op::Elem, Word::InWord),
    (Op::Union, Word::UnionWord),
    (Op::Without, Word::LessWord),
    (Op::Div, Word::DivWord),
    (Op::Mod, Word::ModWord),
    (Op::Inter, Word::InterWord),
    (Op::Size, Word::SizeWord),
    (Op::Cond, Word::CondWord),
    (Op::Xor, Word::XorWord),
    (Op::Implies, Word::ImpliesWord),
    (Op::Subset, Word::SubsetWord),
    (Op::Min, Word::MinWord),
    (Op::Max, Word::MaxWord),
    (Op::Abs, Word::AbsWord),
];

/// The word of an operator, where it is written with letters.
fn word_of(op: Op) -> Option<Word>
    ensures { result ≡ word_of op }
{
    for pair in OPERATOR_WORDS {
        if pair.0 == op {
            return Some(pair.1);
        }
    }
    None
}

/// The operator that has this word.
fn op_of(word: Word) -> Option<Op>
    ensures { result ≡ op_of word }
{
    for pair in OPERATOR_WORDS {
        if pair.1 == word {
            return Some(pair.0);
        }
    }
    None
}

/// The operator whose row has these letters.
fn operator_with(text: &str) -> Option<Op>
    ensures { result ≡ operator_with operators text.now }
{
    let table = operators();
    let row = find(&table, text)?;
    Some(table[row].code)
}

/// The word of the operator whose row has these letters.
fn operator_word(text: &str) -> Option<Word>
    ensures { result ≡ operator_word text.now }
{
    let op = operator_with(text)?;
    word_of(op)
}

/// The reserved word that has these letters.
pub fn reserved(text: &str) -> Option<Word>
    ensures { result ≡ reserved text.now }
{
    own_word(text).or_else(|| operator_word(text))
}

/// The operator whose word in the table the token spells.
pub fn operator_of(kind: Tok) -> Option<Op>
    ensures { result ≡ operator_of kind }
{
    match kind {
        Tok::Name | Tok::Number(_) => None,
        Tok::Word(word) => op_of(word),
        Tok::Sign(sign) => operator_with(sign.text()),
    }
}

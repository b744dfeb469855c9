ghost use Rattle.std.specs.Prelude.{◌≡◌};

use std::marker::Model;
use thiserror::Error;

/// A token and where it stands in the source.
#[derive(Clone, Copy, Debug, PartialEq, Eq)]
pub struct Token {
    pub kind: Tok,
    /// The byte offset of its first byte.
    pub start: u32,
    /// The byte offset behind its last byte.
    pub end: u32,
}

/// What kind of token it is.
#[derive(Clone, Copy, Debug, PartialEq, Eq)]
pub enum Tok {
    /// A name; its text is its slice of the source.
    Name,
    /// A number and its value.
    Number(u32),
    Word(Word),
    Sign(Sign),
}

/// The reserved words; those from `OrWord` on are the words of operators.
#[derive(Clone, Copy, Debug, PartialEq, Eq)]
pub enum Word {
    VarWord,
    VisWord,
    BoolWord,
    SetWord,
    OfWord,
    AboutWord,
    OldWord,
    SkipWord,
    ObserveWord,
    IfWord,
    ElseWord,
    WhileWord,
    UniformWord,
    ChooseWord,
    FlipWord,
    TrueWord,
    FalseWord,
    OrWord,
    AndWord,
    NotWord,
    InWord,
    UnionWord,
    LessWord,
    DivWord,
    ModWord,
    InterWord,
    SizeWord,
    CondWord,
    XorWord,
    ImpliesWord,
    SubsetWord,
    MinWord,
    MaxWord,
    AbsWord,
}

/// The signs: `:=` `:` `;` `,` `(` `)` `{` `}` `..` `.` `/` `=` `!=` `<=` `<` `>=` `>` `+` `-` `*`.
#[derive(Clone, Copy, Debug, PartialEq, Eq)]
pub enum Sign {
    Assign,
    Colon,
    Semi,
    Comma,
    ParenOpen,
    ParenClose,
    BraceOpen,
    BraceClose,
    Range,
    Dot,
    Slash,
    Equal,
    NotEqual,
    AtMost,
    Less,
    AtLeast,
    Greater,
    Plus,
    Minus,
    Star,
}

/// The tokens of a source, in their order.
#[derive(Drop)]
pub struct Tokens {
    items: Vec<Token>,
}

impl Model for Tokens {
    ghost use Rattle.std.specs.Prelude.{List};
    ghost use Rattle.kf_lex.specs.declared.token.Token.{Token};

    ghost Value = { List Token };

    ghost view = { λ t. t.items.items };
}

impl Tokens {
    pub fn new(items: Vec<Token>) -> Self
        ensures { result ≡ items.items }
    {
        Tokens { items }
    }

    pub fn as_slice(&self) -> &[Token]
        ensures { result.now ≡ self.now }
    {
        self.items.as_slice()
    }
}

/// Why a source has no tokens. Each place is a byte offset.
#[derive(Clone, Copy, Debug, PartialEq, Eq, Error)]
pub enum LexError {
    /// The first byte of a sequence that isn't UTF-8.
    #[error("the text is not UTF-8 from byte {at} on")]
    Utf8 { at: u32 },
    /// The first byte of a character that begins no token.
    #[error("the character at byte {at} begins no token")]
    Char { at: u32 },
    /// The first digit of a number above 1,000,000,000.
    #[error("the number at byte {at} is above 1000000000")]
    Number { at: u32 },
    /// Want of memory.
    #[error("want of memory")]
    Mem,
}

ghost use Rattle.std.specs.Prelude.{◌≡◌, ◌≤◌, ◌+◌, nat_lt, MatchOption};
ghost use Rattle.kf_parse.specs.Depth.{open_brackets, opened, IsShallow, IsDeep};

use kf_lex::{Sign, Tok, Token, Word};
use std::marker::Model;

/// How many brackets stand open, and how many words `of` count behind the last of them.
#[derive(Drop)]
struct OpenCount {
    brackets: usize,
    ofs: usize,
}

impl Model for OpenCount {
    ghost use Rattle.kf_parse.specs.Depth.{Open};

    ghost Value = { Open };

    ghost view = { λ c. record { brackets = c.brackets; ofs = c.ofs } };
}

impl OpenCount {
    fn of_brackets(brackets: usize) -> Self
        ensures { result ≡ open_brackets brackets }
    {
        OpenCount { brackets, ofs: 0 }
    }

    /// What stands open after one more token.
    fn after(&self, kind: Tok) -> Self
        requires { self.now.brackets + self.now.ofs ≤ 64 }
        ensures { result ≡ opened self.now kind }
    {
        match kind {
            Tok::Sign(Sign::ParenOpen | Sign::BraceOpen) => OpenCount::of_brackets(
                self.brackets + 1,
            ),
            Tok::Sign(Sign::ParenClose | Sign::BraceClose) => OpenCount::of_brackets(
                self.brackets.saturating_sub(1),
            ),
            Tok::Word(Word::OfWord) => OpenCount {
                brackets: self.brackets,
                ofs: self.ofs + 1,
            },
            Tok::Word(Word::SetWord) => OpenCount {
                brackets: self.brackets,
                ofs: self.ofs,
            },
            _ => OpenCount::of_brackets(self.brackets),
        }
    }

    fn is_deep(&self) -> bool
        ensures { result ≡ nat_lt 64 (self.now.brackets + self.now.ofs) }
    {
        self.brackets.saturating_add(self.ofs) > 64
    }
}

/// The place of the first token after which more than 64 brackets stand open.
pub(crate) fn first_deep(tokens: &[Token]) -> Option<u32>
    ensures { MatchOption result (IsShallow tokens.now) (λ at. IsDeep tokens.now at) }
{
    let mut open = OpenCount::of_brackets(0);
    for token in tokens {
        open = open.after(token.kind);
        if open.is_deep() {
            return Some(token.start);
        }
    }
    None
}

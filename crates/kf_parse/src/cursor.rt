ghost use Rattle.std.specs.Prelude.{◌≡◌, [], ◌∷◌, drop, All, MatchOption};
ghost use Rattle.kf_ast.specs.Views.{name_tree};
ghost use Rattle.kf_parse.specs.Grammar.{named};
ghost use Rattle.kf_parse.specs.Outcomes.{pure, expect};
ghost use Rattle.kf_parse.specs.Reading as r;
ghost use Rattle.kf_parse.specs.Reads.{Reads, IsSpelled, is_next};
ghost use Rattle.kf_parse.specs.Tokens.{is};
ghost use Rattle.kf_lex.specs.declared.token.Tok.TheVariants as t;

use crate::stop::Stop;
use kf_ast::Ident;
use kf_lex::{Tok, Token};
use kf_value::Name;
use std::alloc::Global;

/// The tokens that are left to read, with the source that they stand in.
#[derive(Drop)]
pub(crate) struct Cursor<'a> {
    pub(crate) alloc: Global,
    pub(crate) src: &'a [u8],
    pub(crate) rest: &'a [Token],
    pub(crate) ghost names: { All (IsSpelled src.now) rest.now },
}

/// Whether two kinds of token are the same.
pub(crate) fn same(a: Tok, b: Tok) -> bool
    ensures { result ≡ is a b }
{
    a == b
}

impl<'a> Cursor<'a> {
    /// The next token.
    pub(crate) fn peek(&self) -> Option<Token>
        ensures { MatchOption result (self.now.rest.now ≡ []) (λ o. self.now.rest.now ≡ o ∷ drop 1 self.now.rest.now) }
    {
        self.rest.first().copied()
    }

    /// Goes behind the next token.
    pub(crate) fn skip(&mut self)
        ensures source { self.new.src.now ≡ self.old.src.now }
        ensures rest { self.new.rest.now ≡ drop 1 self.old.rest.now }
    {
        if let [_, rest @ ..] = self.rest {
            self.rest = rest;
        }
    }

    /// Whether the next token is of this kind.
    pub(crate) fn at(&self, kind: Tok) -> bool
        ensures { result ≡ is_next kind self.now.rest.now }
    {
        match self.peek() {
            Some(o) => same(kind, o.kind),
            None => false,
        }
    }

    /// The next token, which is to be of this kind.
    pub(crate) fn expect(&mut self, kind: Tok) -> Result<Token, Stop>
        ensures source { self.new.src.now ≡ self.old.src.now }
        ensures reads { Reads (λ o. o) (expect (is kind) pure self.old.rest.now) result self.new.rest.now }
    {
        let Some(o) = self.peek() else {
            return Err(Stop::Syntax);
        };
        if !same(kind, o.kind) {
            return Err(Stop::Syntax);
        }
        self.skip();
        Ok(o)
    }

    /// What was read before the next token, which is to be of this kind.
    pub(crate) fn followed_by<T: Drop>(&mut self, kind: Tok, x: T) -> Result<T, Stop>
        ensures source { self.new.src.now ≡ self.old.src.now }
        ensures reads { Reads (λ y. y) (expect (is kind) (λ o. pure x) self.old.rest.now) result self.new.rest.now }
    {
        self.expect(kind)?;
        Ok(x)
    }

    /// The next token, which is to be a number.
    #[tactic(auto, unfolding(crate::specs::Reading::number))]
    pub(crate) fn number(&mut self) -> Result<u32, Stop>
        ensures source { self.new.src.now ≡ self.old.src.now }
        ensures reads { Reads (λ k. k) (r.number self.old.rest.now) result self.new.rest.now }
    {
        let Some(o) = self.peek() else {
            return Err(Stop::Syntax);
        };
        let Tok::Number(k) = o.kind else {
            return Err(Stop::Syntax);
        };
        self.skip();
        Ok(k)
    }

    /// The next token, which is to be a name.
    pub(crate) fn name(&mut self) -> Result<Ident, Stop>
        ensures source { self.new.src.now ≡ self.old.src.now }
        ensures reads { Reads name_tree (expect (is t.Name) (λ o. pure (named self.old.src.now o)) self.old.rest.now) result self.new.rest.now }
    {
        let Some(o) = self.peek() else {
            return Err(Stop::Syntax);
        };
        if !same(Tok::Name, o.kind) {
            return Err(Stop::Syntax);
        }
        let text = String::from_utf8_lossy(
            self.alloc,
            &self.src[o.start as usize..o.end as usize],
        )?;
        self.skip();
        Ok(Ident {
            text: Name::new(text),
            at: o.start,
        })
    }
}

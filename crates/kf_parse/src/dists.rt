ghost use Rattle.std.specs.Prelude.{◌≡◌, ◌-◌, ◌<◌};
ghost use Rattle.kf_ast.specs.Views.{case_tree, dist_tree};
ghost use Rattle.kf_parse.specs.Views.{trimmed_of, all_of};
ghost use Rattle.kf_lex.specs.declared.token.Sign.TheVariants as s;
ghost use Rattle.kf_lex.specs.declared.token.Tok.TheVariants as t;
ghost use Rattle.kf_parse.specs.Outcomes.{and_then, expect, first_or, pure};
ghost use Rattle.kf_parse.specs.Reading as r;
ghost use Rattle.kf_parse.specs.Reads.{Reads};
ghost use Rattle.kf_parse.specs.Tokens.{is};
ghost use Rattle.kf_parse.specs.Trimmed.{trimmed, untouched};

use crate::compose::{choose, flip, push_case, sure, uniform_range, uniform_set};
use crate::cursor::Cursor;
use crate::kept::Trimmed;
use crate::stop::{Stop, both};
use kf_ast::{Case, Dist};
use kf_lex::{Sign, Tok, Token, Word};

impl<'a> Cursor<'a> {
    /// The distribution behind its sign `:=`.
    pub(crate) fn given(&mut self, depth: u32) -> Result<Trimmed<Dist>, Stop>
        ensures source { self.new.src.now ≡ self.old.src.now }
        ensures reads { Reads (trimmed_of dist_tree) (expect (is (t.Sign s.Assign)) (λ g. r.dist trimmed self.old.src.now depth) self.old.rest.now) result self.new.rest.now }
    {
        self.expect(Tok::Sign(Sign::Assign))?;
        self.dist(depth)
    }

    /// The cases with a value and its weight.
    #[tactic(auto, unfolding(crate::specs::Reading::weighted))]
    fn weighted(
        &mut self,
        depth: u32,
        cases: Trimmed<Vec<Case>>,
    ) -> Result<Trimmed<Vec<Case>>, Stop>
        ensures source { self.new.src.now ≡ self.old.src.now }
        ensures reads { Reads (trimmed_of (all_of case_tree)) (r.weighted trimmed self.old.src.now (r.expr trimmed self.old.src.now depth) (trimmed_of (all_of case_tree) cases) self.old.rest.now) result self.new.rest.now }
    {
        let begun = both(cases, self.expr(depth))?;
        let half = self.followed_by(Tok::Sign(Sign::Colon), begun)?;
        let ((cases, value), weight) = both(half, self.expr(depth))?;
        push_case(cases, value, weight)
    }

    /// The cases with those that go on behind commas.
    #[tactic(auto, unfolding(crate::specs::Reading::cases))]
    fn cases(
        &mut self,
        depth: u32,
        mut list: Trimmed<Vec<Case>>,
    ) -> Result<Trimmed<Vec<Case>>, Stop>
        ensures source { self.new.src.now ≡ self.old.src.now }
        ensures reads { Reads (trimmed_of (all_of case_tree)) (r.cases trimmed self.old.src.now (r.expr trimmed self.old.src.now depth) (trimmed_of (all_of case_tree) list) self.old.rest.now) result self.new.rest.now }
    {
        'cases: while self.at(Tok::Sign(Sign::Comma)) {
            self.skip();
            list = self.weighted(depth, list)?;
        }
        Ok(list)
    }

    /// The choice behind its word `c`.
    #[tactic(auto, unfolding(crate::specs::Reading::choose))]
    fn choose(&mut self, depth: u32, c: Token) -> Result<Trimmed<Dist>, Stop>
        ensures source { self.new.src.now ≡ self.old.src.now }
        ensures reads { Reads (trimmed_of dist_tree) (r.choose trimmed self.old.src.now (r.expr trimmed self.old.src.now depth) c self.old.rest.now) result self.new.rest.now }
    {
        self.expect(Tok::Sign(Sign::BraceOpen))?;
        let none = Trimmed {
            value: Vec::new(self.alloc),
            long: None,
        };
        let first = self.weighted(depth, none)?;
        let cases = self.cases(depth, first)?;
        self.expect(Tok::Sign(Sign::BraceClose))?;
        Ok(choose(c.start, cases))
    }

    /// The uniform distribution behind its word `u`.
    #[tactic(auto, unfolding(crate::specs::Reading::uniform))]
    fn uniform(&mut self, depth: u32, u: Token) -> Result<Trimmed<Dist>, Stop>
        ensures source { self.new.src.now ≡ self.old.src.now }
        ensures reads { Reads (trimmed_of dist_tree) (r.uniform trimmed self.old.src.now (r.expr trimmed self.old.src.now depth) u self.old.rest.now) result self.new.rest.now }
    {
        let x = self.expr(depth)?;
        if !self.at(Tok::Sign(Sign::Range)) {
            return Ok(uniform_set(u.start, x));
        }
        self.skip();
        let y = self.expr(depth)?;
        Ok(uniform_range(u.start, x, y))
    }

    /// The distribution of a coin behind its word `f`.
    #[tactic(auto, unfolding(crate::specs::Reading::flip))]
    fn flip(&mut self, f: Token) -> Result<Trimmed<Dist>, Stop>
        ensures source { self.new.src.now ≡ self.old.src.now }
        ensures reads { Reads (trimmed_of dist_tree) (r.flip trimmed self.old.src.now f self.old.rest.now) result self.new.rest.now }
    {
        let num = self.number()?;
        self.expect(Tok::Sign(Sign::Slash))?;
        let den = self.number()?;
        Ok(flip(f.start, num, den))
    }

    /// An expression as a distribution.
    fn sure(&mut self, depth: u32) -> Result<Trimmed<Dist>, Stop>
        ensures source { self.new.src.now ≡ self.old.src.now }
        ensures reads { Reads (trimmed_of dist_tree) (and_then (r.expr trimmed self.old.src.now depth self.old.rest.now) (λ x. pure (trimmed.sure x))) result self.new.rest.now }
    {
        let x = self.expr(depth)?;
        Ok(sure(x))
    }

    /// A distribution in which fewer brackets nest than the depth.
    pub(crate) fn dist(&mut self, depth: u32) -> Result<Trimmed<Dist>, Stop>
        ensures source { self.new.src.now ≡ self.old.src.now }
        ensures reads { Reads (trimmed_of dist_tree) (r.dist trimmed self.old.src.now depth self.old.rest.now) result self.new.rest.now }
    {
        if depth == 0 {
            return Err(Stop::Deep);
        }
        self.some_dist(depth)
    }

    /// The distribution that a word begins, or else an expression.
    fn some_dist(&mut self, depth: u32) -> Result<Trimmed<Dist>, Stop>
        requires { 0 < depth }
        ensures source { self.new.src.now ≡ self.old.src.now }
        ensures reads { Reads (trimmed_of dist_tree) (first_or (λ o. r.dist_by trimmed self.old.src.now (depth - 1) o o.kind) (λ ts. and_then (r.expr trimmed self.old.src.now depth ts) (λ x. pure (trimmed.sure x))) self.old.rest.now) result self.new.rest.now }
    {
        let Some(o) = self.peek() else {
            return self.sure(depth);
        };
        match o.kind {
            Tok::Word(Word::UniformWord) => {
                self.skip();
                self.uniform(depth, o)
            }
            Tok::Word(Word::ChooseWord) => {
                self.skip();
                self.choose(depth - 1, o)
            }
            Tok::Word(Word::FlipWord) => {
                self.skip();
                self.flip(o)
            }
            _ => self.sure(depth),
        }
    }
}

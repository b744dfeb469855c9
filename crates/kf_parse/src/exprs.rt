ghost use Rattle.std.specs.Prelude.{◌≡◌, ◌≤◌, ◌-◌};
ghost use Rattle.kf_parse.specs.Views.{cut_of, cuts_of};
ghost use Rattle.kf_parse.specs.Reading as r;
ghost use Rattle.kf_parse.specs.Reads.{Reads};
ghost use Rattle.kf_parse.specs.Trimmed.{trimmed};

use crate::build::{apply, join, moved, number, one, part, push, set_of, truth, tuple, variable};
use crate::cursor::{Cursor, same};
use crate::kept::{Built, BuiltList};
use crate::operators::{arity, binds_at, called, infix, prefix, row, row_in};
use crate::stop::{Stop, both};
use kf_lex::{Sign, Tok, Token, Word};
use kf_ops::Op;

impl<'a> Cursor<'a> {
    /// An expression in which fewer brackets nest than the depth.
    #[tactic(auto, unfolding(crate::specs::Reading::expr))]
    #[cycle(exprs)]
    pub(crate) fn expr(&mut self, depth: u32) -> Result<Built, Stop>
        ensures source { self.new.src.now ≡ self.old.src.now }
        ensures reads { Reads cut_of (r.expr trimmed self.old.src.now depth self.old.rest.now) result self.new.rest.now }
    {
        if depth == 0 {
            return Err(Stop::Deep);
        }
        self.level(depth - 1, 7)
    }

    /// An expression of a level, so many below that of the parts.
    #[cycle(exprs)]
    fn level(&mut self, depth: u32, height: u8) -> Result<Built, Stop>
        requires { height ≤ 7 }
        ensures source { self.new.src.now ≡ self.old.src.now }
        ensures reads { Reads cut_of (r.level trimmed self.old.src.now (r.expr trimmed self.old.src.now depth) height self.old.rest.now) result self.new.rest.now }
    {
        if height == 0 {
            self.postfix(depth)
        } else {
            self.prefixed(depth, height)
        }
    }

    #[tactic(auto, unfolding(crate::specs::Reading::prefixed))]
    #[cycle(exprs)]
    fn prefixed(&mut self, depth: u32, height: u8) -> Result<Built, Stop>
        requires low { 1 ≤ height }
        requires high { height ≤ 7 }
        ensures source { self.new.src.now ≡ self.old.src.now }
        ensures reads { Reads cut_of (r.prefixed trimmed self.old.src.now (r.level trimmed self.old.src.now (r.expr trimmed self.old.src.now depth) (height - 1)) (8 - height) self.old.rest.now) result self.new.rest.now }
    {
        let Some(o) = self.peek() else {
            return self.infixed(depth, height);
        };
        let op = prefix(o.kind);
        if !binds_at(8 - height, op) {
            return self.infixed(depth, height);
        }
        self.skip();
        let x = self.level(depth, height - 1)?;
        Ok(apply(o.start, row_in(op), one(self.alloc, x)?))
    }

    #[tactic(auto, unfolding(crate::specs::Reading::infixed, crate::specs::Reading::operations))]
    #[cycle(exprs)]
    fn infixed(&mut self, depth: u32, height: u8) -> Result<Built, Stop>
        requires low { 1 ≤ height }
        requires high { height ≤ 7 }
        ensures source { self.new.src.now ≡ self.old.src.now }
        ensures reads { Reads cut_of (r.infixed trimmed self.old.src.now (r.level trimmed self.old.src.now (r.expr trimmed self.old.src.now depth) (height - 1)) (8 - height) self.old.rest.now) result self.new.rest.now }
    {
        let left = self.level(depth, height - 1)?;
        if height == 4 {
            self.compared(depth, left)
        } else {
            self.climb(depth, height, left)
        }
    }

    /// At most one comparison behind its left side.
    #[tactic(auto, unfolding(crate::specs::Reading::compared))]
    #[cycle(exprs)]
    fn compared(&mut self, depth: u32, left: Built) -> Result<Built, Stop>
        ensures source { self.new.src.now ≡ self.old.src.now }
        ensures reads { Reads cut_of (r.compared trimmed self.old.src.now (r.level trimmed self.old.src.now (r.expr trimmed self.old.src.now depth) 3) (cut_of left) self.old.rest.now) result self.new.rest.now }
    {
        let Some(o) = self.peek() else {
            return Ok(left);
        };
        let op = infix(o.kind);
        if !binds_at(4, op) {
            return Ok(left);
        }
        self.skip();
        let right = self.level(depth, 3)?;
        join(self.alloc, row_in(op), left, right)
    }

    /// The operators of a level behind an expression, which group to the left.
    #[tactic(auto, unfolding(crate::specs::Reading::climb))]
    #[cycle(exprs)]
    fn climb(&mut self, depth: u32, height: u8, mut left: Built) -> Result<Built, Stop>
        requires low { 1 ≤ height }
        requires high { height ≤ 7 }
        ensures source { self.new.src.now ≡ self.old.src.now }
        ensures reads { Reads cut_of (r.climb trimmed self.old.src.now (r.level trimmed self.old.src.now (r.expr trimmed self.old.src.now depth) (height - 1)) (8 - height) (cut_of left) self.old.rest.now) result self.new.rest.now }
    {
        'operators: loop {
            let Some(o) = self.peek() else {
                return Ok(left);
            };
            let op = infix(o.kind);
            if !binds_at(8 - height, op) {
                return Ok(left);
            }
            self.skip();
            let right = self.level(depth, height - 1)?;
            left = join(self.alloc, row_in(op), left, right)?;
        }
    }

    #[tactic(auto, unfolding(crate::specs::Reading::postfix))]
    #[cycle(exprs)]
    fn postfix(&mut self, depth: u32) -> Result<Built, Stop>
        ensures source { self.new.src.now ≡ self.old.src.now }
        ensures reads { Reads cut_of (r.postfix trimmed self.old.src.now (r.expr trimmed self.old.src.now depth) self.old.rest.now) result self.new.rest.now }
    {
        let x = self.operand(depth)?;
        self.parts(x)
    }

    /// The numbers of parts behind an expression.
    #[tactic(auto, unfolding(crate::specs::Reading::parts))]
    fn parts(&mut self, mut x: Built) -> Result<Built, Stop>
        ensures source { self.new.src.now ≡ self.old.src.now }
        ensures reads { Reads cut_of (r.parts trimmed self.old.src.now (cut_of x) self.old.rest.now) result self.new.rest.now }
    {
        'parts: while self.at(Tok::Sign(Sign::Dot)) {
            self.skip();
            let k = self.number()?;
            x = part(self.alloc, x, k)?;
        }
        Ok(x)
    }

    #[tactic(auto, unfolding(crate::specs::Reading::operand))]
    #[cycle(exprs)]
    fn operand(&mut self, depth: u32) -> Result<Built, Stop>
        ensures source { self.new.src.now ≡ self.old.src.now }
        ensures reads { Reads cut_of (r.operand trimmed self.old.src.now (r.expr trimmed self.old.src.now depth) self.old.rest.now) result self.new.rest.now }
    {
        let Some(o) = self.peek() else {
            return Err(Stop::Syntax);
        };
        match o.kind {
            Tok::Number(k) => {
                self.skip();
                Ok(number(o.start, k))
            }
            Tok::Name => Ok(variable(self.name()?)),
            Tok::Word(Word::TrueWord) => {
                self.skip();
                Ok(truth(o.start, true))
            }
            Tok::Word(Word::FalseWord) => {
                self.skip();
                Ok(truth(o.start, false))
            }
            Tok::Sign(Sign::ParenOpen) => {
                self.skip();
                self.in_parens(depth, o)
            }
            Tok::Sign(Sign::BraceOpen) => {
                self.skip();
                self.in_braces(depth, o)
            }
            kind => {
                let Some(op) = called(kind) else {
                    return Err(Stop::Syntax);
                };
                self.skip();
                self.call(depth, o, op)
            }
        }
    }

    /// What stands in parentheses, behind the one that opens.
    #[tactic(auto, unfolding(crate::specs::Reading::in_parens))]
    #[cycle(exprs)]
    fn in_parens(&mut self, depth: u32, opener: Token) -> Result<Built, Stop>
        ensures source { self.new.src.now ≡ self.old.src.now }
        ensures reads { Reads cut_of (r.in_parens trimmed self.old.src.now (r.expr trimmed self.old.src.now depth) opener self.old.rest.now) result self.new.rest.now }
    {
        let x = self.expr(depth)?;
        if !self.at(Tok::Sign(Sign::Comma)) {
            return self.followed_by(Tok::Sign(Sign::ParenClose), moved(opener.start, x));
        }
        self.skip();
        self.tuple(depth, opener, x)
    }

    /// A tuple behind its first comma.
    #[tactic(auto, unfolding(crate::specs::Reading::tuple))]
    #[cycle(exprs)]
    fn tuple(&mut self, depth: u32, opener: Token, first: Built) -> Result<Built, Stop>
        ensures source { self.new.src.now ≡ self.old.src.now }
        ensures reads { Reads cut_of (r.tuple trimmed self.old.src.now (r.expr trimmed self.old.src.now depth) opener (cut_of first) self.old.rest.now) result self.new.rest.now }
    {
        let begun = one(self.alloc, first)?;
        let (list, second) = both(begun, self.expr(depth))?;
        let two = push(list, second)?;
        let all = self.others(depth, two)?;
        self.followed_by(Tok::Sign(Sign::ParenClose), tuple(opener.start, all))
    }

    /// A list with the expressions that follow, each behind a comma.
    #[tactic(auto, unfolding(crate::specs::Reading::others))]
    #[cycle(exprs)]
    fn others(&mut self, depth: u32, mut list: BuiltList) -> Result<BuiltList, Stop>
        ensures source { self.new.src.now ≡ self.old.src.now }
        ensures reads { Reads cuts_of (r.others trimmed self.old.src.now (r.expr trimmed self.old.src.now depth) (cuts_of list) self.old.rest.now) result self.new.rest.now }
    {
        'commas: while self.at(Tok::Sign(Sign::Comma)) {
            self.skip();
            let x = self.expr(depth)?;
            list = push(list, x)?;
        }
        Ok(list)
    }

    /// A set by its members, behind the brace that opens.
    #[tactic(auto, unfolding(crate::specs::Reading::in_braces))]
    #[cycle(exprs)]
    fn in_braces(&mut self, depth: u32, opener: Token) -> Result<Built, Stop>
        ensures source { self.new.src.now ≡ self.old.src.now }
        ensures reads { Reads cut_of (r.in_braces trimmed self.old.src.now (r.expr trimmed self.old.src.now depth) opener self.old.rest.now) result self.new.rest.now }
    {
        let first = self.expr(depth)?;
        let begun = one(self.alloc, first)?;
        let all = self.others(depth, begun)?;
        self.followed_by(Tok::Sign(Sign::BraceClose), set_of(opener.start, all))
    }

    /// An operator's arguments, behind its word.
    #[tactic(auto, unfolding(crate::specs::Reading::call))]
    #[cycle(exprs)]
    fn call(&mut self, depth: u32, word: Token, op: Op) -> Result<Built, Stop>
        ensures source { self.new.src.now ≡ self.old.src.now }
        ensures reads { Reads cut_of (r.call trimmed self.old.src.now (r.expr trimmed self.old.src.now depth) word op self.old.rest.now) result self.new.rest.now }
    {
        self.expect(Tok::Sign(Sign::ParenOpen))?;
        let first = self.expr(depth)?;
        let begun = one(self.alloc, first)?;
        let all = self.arguments(depth, arity(op) - 1, begun)?;
        self.expect(Tok::Sign(Sign::ParenClose))?;
        Ok(apply(word.start, row(op), all))
    }

    /// A list with so many arguments more, each behind a comma.
    #[tactic(auto, unfolding(crate::specs::Reading::arguments))]
    #[cycle(exprs)]
    fn arguments(&mut self, depth: u32, count: u8, mut list: BuiltList) -> Result<BuiltList, Stop>
        ensures source { self.new.src.now ≡ self.old.src.now }
        ensures reads { Reads cuts_of (r.arguments trimmed self.old.src.now (r.expr trimmed self.old.src.now depth) count (cuts_of list) self.old.rest.now) result self.new.rest.now }
    {
        for _argument in 0..count {
            self.expect(Tok::Sign(Sign::Comma))?;
            let x = self.expr(depth)?;
            list = push(list, x)?;
        }
        Ok(list)
    }
}

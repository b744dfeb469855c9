ghost use Rattle.std.specs.Prelude.{◌≡◌, map};
ghost use Rattle.kf_ast.specs.TypeForms.{type_at, types, SetOf, TupleOf};
ghost use Rattle.kf_ast.specs.Views.{type_form, ty_items};
ghost use Rattle.kf_lex.specs.declared.token.Tok.TheVariants as t;
ghost use Rattle.kf_lex.specs.declared.token.Sign.TheVariants as s;
ghost use Rattle.kf_lex.specs.declared.token.Word.TheVariants as w;
ghost use Rattle.kf_parse.specs.Outcomes.{and_then, expect, first, pure};
ghost use Rattle.kf_parse.specs.Tokens.{is};
ghost use Rattle.kf_parse.specs.Reading as r;
ghost use Rattle.kf_parse.specs.Reads.{Reads};

use crate::cursor::{Cursor, same};
use crate::stop::Stop;
use kf_ast::{TyNode, TyTree, TyTreeList};
use kf_lex::{Sign, Tok, Token, Word};

impl<'a> Cursor<'a> {
    /// A whole number, which may have a minus sign.
    #[tactic(auto, unfolding(crate::specs::Reading::whole))]
    fn whole(&mut self) -> Result<i64, Stop>
        ensures source { self.new.src.now ≡ self.old.src.now }
        ensures reads { Reads (λ k. k) (r.whole self.old.rest.now) result self.new.rest.now }
    {
        let Some(o) = self.peek() else {
            return Err(Stop::Syntax);
        };
        match o.kind {
            Tok::Number(k) => {
                self.skip();
                Ok(i64::from(k))
            }
            Tok::Sign(Sign::Minus) => {
                self.skip();
                let k = self.number()?;
                Ok(-i64::from(k))
            }
            _ => Err(Stop::Syntax),
        }
    }

    /// The range behind its lower bound, which begins with the token `o`.
    #[tactic(auto, unfolding(crate::specs::Reading::range))]
    fn range(&mut self, o: Token, lo: i64) -> Result<TyTree, Stop>
        ensures source { self.new.src.now ≡ self.old.src.now }
        ensures reads { Reads type_form (r.range o lo self.old.rest.now) result self.new.rest.now }
    {
        self.expect(Tok::Sign(Sign::Range))?;
        let hi = self.whole()?;
        Ok(TyTree {
            at: o.start,
            node: TyNode::Int { lo, hi },
        })
    }

    /// A type in which brackets nest less deep than `depth`.
    #[cycle(types)]
    pub(crate) fn type_tree(&mut self, depth: u32) -> Result<TyTree, Stop>
        ensures source { self.new.src.now ≡ self.old.src.now }
        ensures reads { Reads type_form (r.type depth self.old.rest.now) result self.new.rest.now }
    {
        if depth == 0 {
            return Err(Stop::Deep);
        }
        self.sets(depth - 1, depth)
    }

    /// A type with fewer sets of sets than `count`, of types to a depth.
    #[tactic(auto, unfolding(crate::specs::Reading::sets))]
    #[cycle(types)]
    fn sets(&mut self, depth: u32, count: u32) -> Result<TyTree, Stop>
        ensures source { self.new.src.now ≡ self.old.src.now }
        ensures reads { Reads type_form (r.sets (r.type depth) count self.old.rest.now) result self.new.rest.now }
    {
        if count == 0 {
            return Err(Stop::Deep);
        }
        let Some(o) = self.peek() else {
            return self.base(depth);
        };
        if !same(Tok::Word(Word::SetWord), o.kind) {
            return self.base(depth);
        }
        self.skip();
        self.set_of(depth, count - 1, o)
    }

    /// The type of sets behind its word `o`.
    #[cycle(types)]
    fn set_of(&mut self, depth: u32, count: u32, o: Token) -> Result<TyTree, Stop>
        ensures source { self.new.src.now ≡ self.old.src.now }
        ensures reads { Reads type_form (expect (is (t.Word w.OfWord)) (λ f. λ ts. and_then (r.sets (r.type depth) count ts) (λ x. pure (type_at o.start (SetOf x)))) self.old.rest.now) result self.new.rest.now }
    {
        self.expect(Tok::Word(Word::OfWord))?;
        let base = self.sets(depth, count)?;
        Ok(TyTree {
            at: o.start,
            node: TyNode::Set(Box::new(self.alloc, base)?),
        })
    }

    /// A type that isn't of sets.
    #[cycle(types)]
    fn base(&mut self, depth: u32) -> Result<TyTree, Stop>
        ensures source { self.new.src.now ≡ self.old.src.now }
        ensures reads { Reads type_form (first (λ o. r.base_by (r.type depth) o o.kind) self.old.rest.now) result self.new.rest.now }
    {
        let Some(o) = self.peek() else {
            return Err(Stop::Syntax);
        };
        match o.kind {
            Tok::Word(Word::BoolWord) => {
                self.skip();
                Ok(TyTree {
                    at: o.start,
                    node: TyNode::Bool,
                })
            }
            Tok::Number(k) => {
                self.skip();
                self.range(o, i64::from(k))
            }
            Tok::Sign(Sign::Minus) => {
                self.skip();
                let k = self.number()?;
                self.range(o, -i64::from(k))
            }
            Tok::Sign(Sign::ParenOpen) => {
                self.skip();
                self.tuple_type(depth, o)
            }
            _ => Err(Stop::Syntax),
        }
    }

    /// The tuple behind its parenthesis `p`.
    #[tactic(auto, unfolding(crate::specs::Reading::tuple_type))]
    #[cycle(types)]
    fn tuple_type(&mut self, depth: u32, p: Token) -> Result<TyTree, Stop>
        ensures source { self.new.src.now ≡ self.old.src.now }
        ensures reads { Reads type_form (r.tuple_type (r.type depth) p self.old.rest.now) result self.new.rest.now }
    {
        let mut members = Vec::new(self.alloc);
        members.push(self.type_tree(depth)?)?;
        self.expect(Tok::Sign(Sign::Comma))?;
        members.push(self.type_tree(depth)?)?;
        self.tuple_of(depth, p, members)
    }

    /// The tuple of its first types and of those that go on behind commas.
    #[cycle(types)]
    fn tuple_of(&mut self, depth: u32, p: Token, first: Vec<TyTree>) -> Result<TyTree, Stop>
        ensures source { self.new.src.now ≡ self.old.src.now }
        ensures reads { Reads type_form (and_then (r.other_types (r.type depth) (map type_form first.items) self.old.rest.now) (λ xs. expect (is (t.Sign s.ParenClose)) (λ q. pure (type_at p.start (TupleOf (types xs)))))) result self.new.rest.now }
    {
        let members = self.other_types(depth, first)?;
        self.expect(Tok::Sign(Sign::ParenClose))?;
        Ok(TyTree {
            at: p.start,
            node: TyNode::Tuple(members),
        })
    }

    /// The types with those that go on behind commas.
    #[tactic(auto, unfolding(crate::specs::Reading::other_types))]
    #[cycle(types)]
    fn other_types(&mut self, depth: u32, mut members: Vec<TyTree>) -> Result<TyTreeList, Stop>
        ensures source { self.new.src.now ≡ self.old.src.now }
        ensures reads { Reads (λ l. map type_form (ty_items l)) (r.other_types (r.type depth) (map type_form members.items) self.old.rest.now) result self.new.rest.now }
    {
        'members: while self.at(Tok::Sign(Sign::Comma)) {
            self.skip();
            members.push(self.type_tree(depth)?)?;
        }
        Ok(TyTreeList::new(members))
    }
}

ghost use Rattle.std.specs.Prelude.{◌≡◌, ◌-◌, ◌<◌};
ghost use Rattle.kf_ast.specs.Views.{name_tree, stmt_tree};
ghost use Rattle.kf_parse.specs.Begins.{begins_statement};
ghost use Rattle.kf_parse.specs.Views.{trimmed_of, all_of};
ghost use Rattle.kf_lex.specs.declared.token.Tok.TheVariants as t;
ghost use Rattle.kf_lex.specs.declared.token.Sign.TheVariants as s;
ghost use Rattle.kf_parse.specs.Outcomes.{and_then, expect, first, pure};
ghost use Rattle.kf_parse.specs.Reading as r;
ghost use Rattle.kf_parse.specs.Reads.{Reads, passes_next};
ghost use Rattle.kf_parse.specs.Tokens.{is};
ghost use Rattle.kf_parse.specs.Trimmed.{trimmed};

use crate::compose::{assign, if_else, observe, push_statement, skip, while_loop};
use crate::cursor::Cursor;
use crate::kept::Trimmed;
use crate::stop::{Stop, both};
use kf_ast::{Ident, Stmt};
use kf_lex::{Sign, Tok, Token, Word};

/// Whether a token of this kind begins a statement.
fn begins_statement(kind: Tok) -> bool
    ensures { result ≡ begins_statement kind }
{
    match kind {
        Tok::Name => true,
        Tok::Word(Word::SkipWord) => true,
        Tok::Word(Word::ObserveWord) => true,
        Tok::Word(Word::IfWord) => true,
        Tok::Word(Word::WhileWord) => true,
        _ => false,
    }
}

impl<'a> Cursor<'a> {
    /// Whether the next token begins a statement.
    fn at_statement(&self) -> bool
        ensures { result ≡ passes_next begins_statement self.now.rest.now }
    {
        match self.peek() {
            Some(o) => begins_statement(o.kind),
            None => false,
        }
    }

    /// The assignment, from its name on.
    #[tactic(auto, unfolding(crate::specs::Reading::assign))]
    fn assign(&mut self, depth: u32) -> Result<Trimmed<Stmt>, Stop>
        requires { 0 < depth }
        ensures source { self.new.src.now ≡ self.old.src.now }
        ensures reads { Reads (trimmed_of stmt_tree) (expect (is t.Name) (λ n. r.assign trimmed self.old.src.now (r.statements trimmed self.old.src.now (depth - 1)) depth n) self.old.rest.now) result self.new.rest.now }
    {
        let name = self.name()?;
        self.assigned(depth, name)
    }

    /// The assignment behind its name.
    fn assigned(&mut self, depth: u32, name: Ident) -> Result<Trimmed<Stmt>, Stop>
        ensures source { self.new.src.now ≡ self.old.src.now }
        ensures reads { Reads (trimmed_of stmt_tree) (expect (is (t.Sign s.Assign)) (λ g. λ ts. and_then (r.dist trimmed self.old.src.now depth ts) (λ x. expect (is (t.Sign s.Semi)) (λ e. pure (trimmed.assign name.at (name_tree name) x)))) self.old.rest.now) result self.new.rest.now }
    {
        let (name, dist) = both(name, self.given(depth))?;
        self.followed_by(Tok::Sign(Sign::Semi), assign(name.at, name, dist))
    }

    /// The observation behind its word `o`.
    #[tactic(auto, unfolding(crate::specs::Reading::observe))]
    fn observe(&mut self, depth: u32, o: Token) -> Result<Trimmed<Stmt>, Stop>
        requires { 0 < depth }
        ensures source { self.new.src.now ≡ self.old.src.now }
        ensures reads { Reads (trimmed_of stmt_tree) (r.observe trimmed self.old.src.now (r.statements trimmed self.old.src.now (depth - 1)) depth o self.old.rest.now) result self.new.rest.now }
    {
        let dist = self.dist(depth)?;
        self.followed_by(Tok::Sign(Sign::Semi), observe(o.start, dist))
    }

    /// The statements in braces.
    #[tactic(auto, unfolding(crate::specs::Reading::block))]
    #[cycle(stmts)]
    fn block(&mut self, depth: u32) -> Result<Trimmed<Vec<Stmt>>, Stop>
        requires { 0 < depth }
        ensures source { self.new.src.now ≡ self.old.src.now }
        ensures reads { Reads (trimmed_of (all_of stmt_tree)) (r.block trimmed self.old.src.now (r.statements trimmed self.old.src.now (depth - 1)) depth self.old.rest.now) result self.new.rest.now }
    {
        self.expect(Tok::Sign(Sign::BraceOpen))?;
        let list = self.statements(depth - 1)?;
        self.followed_by(Tok::Sign(Sign::BraceClose), list)
    }

    /// The conditional behind its word `i`.
    #[tactic(auto, unfolding(crate::specs::Reading::if_else))]
    #[cycle(stmts)]
    fn if_else(&mut self, depth: u32, i: Token) -> Result<Trimmed<Stmt>, Stop>
        requires { 0 < depth }
        ensures source { self.new.src.now ≡ self.old.src.now }
        ensures reads { Reads (trimmed_of stmt_tree) (r.if_else trimmed self.old.src.now (r.statements trimmed self.old.src.now (depth - 1)) depth i self.old.rest.now) result self.new.rest.now }
    {
        let test = self.dist(depth)?;
        let begun = both(test, self.block(depth))?;
        let half = self.followed_by(Tok::Word(Word::ElseWord), begun)?;
        let ((guard, yes), no) = both(half, self.block(depth))?;
        Ok(if_else(i.start, guard, yes, no))
    }

    /// The loop behind its word `o`.
    #[cycle(stmts)]
    fn while_loop(&mut self, depth: u32, o: Token) -> Result<Trimmed<Stmt>, Stop>
        requires { 0 < depth }
        ensures source { self.new.src.now ≡ self.old.src.now }
        ensures reads { Reads (trimmed_of stmt_tree) (r.while trimmed self.old.src.now (r.statements trimmed self.old.src.now (depth - 1)) depth o self.old.rest.now) result self.new.rest.now }
    {
        let test = self.dist(depth)?;
        let (guard, body) = both(test, self.block(depth))?;
        Ok(while_loop(o.start, guard, body))
    }

    /// A statement.
    #[cycle(stmts)]
    fn statement(&mut self, depth: u32) -> Result<Trimmed<Stmt>, Stop>
        requires { 0 < depth }
        ensures source { self.new.src.now ≡ self.old.src.now }
        ensures reads { Reads (trimmed_of stmt_tree) (first (λ o. r.statement_by trimmed self.old.src.now (r.statements trimmed self.old.src.now (depth - 1)) depth o o.kind) self.old.rest.now) result self.new.rest.now }
    {
        let Some(o) = self.peek() else {
            return Err(Stop::Syntax);
        };
        match o.kind {
            Tok::Name => self.assign(depth),
            Tok::Word(Word::SkipWord) => {
                self.skip();
                self.expect(Tok::Sign(Sign::Semi))?;
                Ok(skip(o.start))
            }
            Tok::Word(Word::ObserveWord) => {
                self.skip();
                self.observe(depth, o)
            }
            Tok::Word(Word::IfWord) => {
                self.skip();
                self.if_else(depth, o)
            }
            Tok::Word(Word::WhileWord) => {
                self.skip();
                self.while_loop(depth, o)
            }
            _ => Err(Stop::Syntax),
        }
    }

    /// The statements up to a token that begins none.
    #[tactic(auto, unfolding(crate::specs::Reading::all_statements))]
    #[cycle(stmts)]
    fn all_statements(&mut self, depth: u32) -> Result<Trimmed<Vec<Stmt>>, Stop>
        requires { 0 < depth }
        ensures source { self.new.src.now ≡ self.old.src.now }
        ensures reads { Reads (trimmed_of (all_of stmt_tree)) (r.all_statements trimmed self.old.src.now (r.statements trimmed self.old.src.now (depth - 1)) depth self.old.rest.now) result self.new.rest.now }
    {
        let mut list = Trimmed {
            value: Vec::new(self.alloc),
            long: None,
        };
        'statements: while self.at_statement() {
            let next = self.statement(depth)?;
            list = push_statement(list, next)?;
        }
        Ok(list)
    }

    /// Statements in which fewer brackets nest than the depth.
    #[cycle(stmts)]
    pub(crate) fn statements(&mut self, depth: u32) -> Result<Trimmed<Vec<Stmt>>, Stop>
        ensures source { self.new.src.now ≡ self.old.src.now }
        ensures reads { Reads (trimmed_of (all_of stmt_tree)) (r.statements trimmed self.old.src.now depth self.old.rest.now) result self.new.rest.now }
    {
        if depth == 0 {
            return Err(Stop::Deep);
        }
        self.all_statements(depth)
    }
}

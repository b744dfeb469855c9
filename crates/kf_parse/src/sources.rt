ghost use Rattle.std.specs.Prelude.{◌≡◌, map, List};
ghost use Rattle.kf_ast.specs.Views.{name_tree, decl_tree, dist_tree, item_tree, source_tree, target_items, type_form};
ghost use Rattle.kf_ast.specs.Dists.{DistTree};
ghost use Rattle.kf_ast.specs.Sources.{item, DeclTree};
ghost use Rattle.kf_ast.specs.TypeForms.{TypeForm};
ghost use Rattle.kf_lex.specs.declared.token.Sign.TheVariants as s;
ghost use Rattle.kf_lex.specs.declared.token.Tok.TheVariants as t;
ghost use Rattle.kf_parse.specs.Begins.{begins_declaration};
ghost use Rattle.kf_parse.specs.Views.{trimmed_of, all_of};
ghost use Rattle.kf_parse.specs.Grammar.{named};
ghost use Rattle.kf_parse.specs.Outcomes.{and_then, expect, pure};
ghost use Rattle.kf_parse.specs.Reading as r;
ghost use Rattle.kf_parse.specs.Reads.{Reads, passes_next};
ghost use Rattle.kf_parse.specs.Tokens.{is};
ghost use Rattle.kf_parse.specs.Trimmed.{trimmed, Trimmed as Of};

use crate::compose::{push_declaration, source};
use crate::cursor::Cursor;
use crate::kept::Trimmed;
use crate::stop::{Stop, both};
use kf_ast::{Decl, Dist, Ident, Item, ItemList, Source, TyTree};
use kf_lex::{Sign, Tok, Word};

/// Whether a token of this kind begins a declaration.
fn begins_declaration(kind: Tok) -> bool
    ensures { result ≡ begins_declaration kind }
{
    match kind {
        Tok::Word(Word::VarWord) => true,
        Tok::Word(Word::VisWord) => true,
        _ => false,
    }
}

impl<'a> Cursor<'a> {
    /// Whether the next token begins a declaration.
    fn at_declaration(&self) -> bool
        ensures { result ≡ passes_next begins_declaration self.now.rest.now }
    {
        match self.peek() {
            Some(o) => begins_declaration(o.kind),
            None => false,
        }
    }

    /// The declarations with the one behind its word, which says whether the variable is visible.
    #[tactic(auto, unfolding(crate::specs::Reading::declaration))]
    fn declaration(
        &mut self,
        depth: u32,
        visible: bool,
        decls: Trimmed<Vec<Decl>>,
    ) -> Result<Trimmed<Vec<Decl>>, Stop>
        ensures source { self.new.src.now ≡ self.old.src.now }
        ensures reads { Reads (trimmed_of (all_of decl_tree)) (r.declaration trimmed self.old.src.now depth visible (trimmed_of (all_of decl_tree) decls) self.old.rest.now) result self.new.rest.now }
    {
        let name = self.name()?;
        self.declared(depth, visible, decls, name)
    }

    /// The declarations with the one behind its name.
    fn declared(
        &mut self,
        depth: u32,
        visible: bool,
        decls: Trimmed<Vec<Decl>>,
        name: Ident,
    ) -> Result<Trimmed<Vec<Decl>>, Stop>
        ensures source { self.new.src.now ≡ self.old.src.now }
        ensures reads { Reads (trimmed_of (all_of decl_tree)) (expect (is (t.Sign s.Colon)) (λ c. λ ts. and_then (r.type depth ts) (λ y. expect (is (t.Sign s.Assign)) (λ g. λ us. and_then (r.dist trimmed self.old.src.now depth us) (λ x. expect (is (t.Sign s.Semi)) (λ e. pure (trimmed.push_declaration (trimmed_of (all_of decl_tree) decls) visible (name_tree name) y x)))))) self.old.rest.now) result self.new.rest.now }
    {
        let (ty, dist) = self.type_and_dist(depth)?;
        push_declaration(decls, visible, name, ty, dist)
    }

    /// The type and the distribution of a declaration, whatever is made of them.
    fn type_and_dist(&mut self, depth: u32) -> Result<(TyTree, Trimmed<Dist>), Stop>
        ensures source { self.new.src.now ≡ self.old.src.now }
        ensures reads { (made : TypeForm → Of DistTree → Of (List DeclTree)) → Reads (λ p. made (type_form p.0) (trimmed_of dist_tree p.1)) (expect (is (t.Sign s.Colon)) (λ c. λ ts. and_then (r.type depth ts) (λ y. expect (is (t.Sign s.Assign)) (λ g. λ us. and_then (r.dist trimmed self.old.src.now depth us) (λ x. expect (is (t.Sign s.Semi)) (λ e. pure (made y x)))))) self.old.rest.now) result self.new.rest.now }
    {
        self.expect(Tok::Sign(Sign::Colon))?;
        let ty = self.type_tree(depth)?;
        let read = both(ty, self.given(depth))?;
        self.followed_by(Tok::Sign(Sign::Semi), read)
    }

    /// The declarations up to a token that begins none.
    #[tactic(auto, unfolding(crate::specs::Reading::declarations))]
    fn declarations(&mut self, depth: u32) -> Result<Trimmed<Vec<Decl>>, Stop>
        ensures source { self.new.src.now ≡ self.old.src.now }
        ensures reads { Reads (trimmed_of (all_of decl_tree)) (r.declarations trimmed self.old.src.now depth self.old.rest.now) result self.new.rest.now }
    {
        let mut list = Trimmed {
            value: Vec::new(self.alloc),
            long: None,
        };
        'decls: while self.at_declaration() {
            let visible = self.at(Tok::Word(Word::VisWord));
            self.skip();
            list = self.declaration(depth, visible, list)?;
        }
        Ok(list)
    }

    /// An item of a target.
    #[tactic(auto, unfolding(crate::specs::Reading::one_item))]
    fn item(&mut self) -> Result<Item, Stop>
        ensures source { self.new.src.now ≡ self.old.src.now }
        ensures reads { Reads item_tree (r.one_item trimmed self.old.src.now self.old.rest.now) result self.new.rest.now }
    {
        let Some(o) = self.peek() else {
            return Err(Stop::Syntax);
        };
        match o.kind {
            Tok::Name => self.named_item(false),
            Tok::Word(Word::OldWord) => {
                self.skip();
                self.named_item(true)
            }
            _ => Err(Stop::Syntax),
        }
    }

    /// An item, from its name on.
    fn named_item(&mut self, initial: bool) -> Result<Item, Stop>
        ensures source { self.new.src.now ≡ self.old.src.now }
        ensures reads { Reads item_tree (expect (is t.Name) (λ n. pure (item initial (named self.old.src.now n))) self.old.rest.now) result self.new.rest.now }
    {
        let name = self.name()?;
        Ok(Item { initial, name })
    }

    /// The items with those that go on behind commas.
    #[tactic(auto, unfolding(crate::specs::Reading::other_items))]
    fn other_items(&mut self, mut list: Vec<Item>) -> Result<ItemList, Stop>
        ensures source { self.new.src.now ≡ self.old.src.now }
        ensures reads { Reads (λ l. map item_tree (target_items l)) (r.other_items trimmed self.old.src.now (map item_tree list.items) self.old.rest.now) result self.new.rest.now }
    {
        'items: while self.at(Tok::Sign(Sign::Comma)) {
            self.skip();
            list.push(self.item()?)?;
        }
        Ok(ItemList::new(list))
    }

    /// The items behind the target's word.
    #[tactic(auto, unfolding(crate::specs::Reading::items))]
    fn items(&mut self) -> Result<ItemList, Stop>
        ensures source { self.new.src.now ≡ self.old.src.now }
        ensures reads { Reads (λ l. map item_tree (target_items l)) (r.items trimmed self.old.src.now self.old.rest.now) result self.new.rest.now }
    {
        let mut list = Vec::new(self.alloc);
        list.push(self.item()?)?;
        let items = self.other_items(list)?;
        self.expect(Tok::Sign(Sign::Semi))?;
        Ok(items)
    }

    /// The target; empty where the source has none.
    #[tactic(auto, unfolding(crate::specs::Reading::target))]
    fn target(&mut self) -> Result<ItemList, Stop>
        ensures source { self.new.src.now ≡ self.old.src.now }
        ensures reads { Reads (λ l. map item_tree (target_items l)) (r.target trimmed self.old.src.now self.old.rest.now) result self.new.rest.now }
    {
        if !self.at(Tok::Word(Word::AboutWord)) {
            return Ok(ItemList::new(Vec::new(self.alloc)));
        }
        self.skip();
        self.items()
    }

    /// A source in which fewer brackets nest than the depth, up to a token that begins no statement.
    #[tactic(auto, unfolding(crate::specs::Reading::program))]
    pub(crate) fn program(&mut self, depth: u32) -> Result<Trimmed<Source>, Stop>
        ensures source { self.new.src.now ≡ self.old.src.now }
        ensures reads { Reads (trimmed_of source_tree) (r.program trimmed self.old.src.now depth self.old.rest.now) result self.new.rest.now }
    {
        let decls = self.declarations(depth)?;
        let target = self.target()?;
        let body = self.statements(depth)?;
        Ok(source(decls, target, body))
    }
}

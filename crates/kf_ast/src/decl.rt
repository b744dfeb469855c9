ghost use Rattle.std.specs.Prelude.{◌≡◌, IfOk};
ghost use Rattle.kf_ast.specs.Views.{decl_items, name_tree, target_items};

use crate::{Dist, StmtList, TyTree};
use kf_value::{Mem, Name};
use std::alloc::Global;

/// A name where it stands in the source.
#[derive(Drop)]
pub struct Ident {
    pub text: Name,
    pub at: u32,
}

/// A whole source.
#[derive(Drop)]
pub struct Source {
    pub decls: DeclList,
    /// What beliefs are about; empty where the source doesn't say it.
    pub target: ItemList,
    pub body: StmtList,
}

/// A variable, its type and the distribution of its first value.
#[derive(Drop)]
pub struct Decl {
    /// Whether it is declared by `vis`: each later assignment to the variable is shown to the observer.
    pub visible: bool,
    pub name: Ident,
    pub ty: TyTree,
    pub dist: Dist,
}

/// One item of a target.
#[derive(Drop)]
pub struct Item {
    /// Whether it is the variable before the first statement, which is written `old`.
    pub initial: bool,
    pub name: Ident,
}

#[derive(Drop)]
pub struct DeclList {
    items: Vec<Decl>,
}

#[derive(Drop)]
pub struct ItemList {
    items: Vec<Item>,
}

impl Ident {
    /// An equal name at the same place.
    pub fn copy(&self, alloc: Global) -> Result<Ident, Mem>
        ensures { IfOk result (λ copied. name_tree copied ≡ name_tree self.now) }
    {
        Ok(Ident {
            text: self.text.copy(alloc)?,
            at: self.at,
        })
    }
}

impl DeclList {
    pub fn new(items: Vec<Decl>) -> Self
        ensures { decl_items result ≡ items.items }
    {
        DeclList { items }
    }

    pub fn as_slice(&self) -> &[Decl]
        ensures { result.now ≡ decl_items self.now }
    {
        self.items.as_slice()
    }
}

impl ItemList {
    pub fn new(items: Vec<Item>) -> Self
        ensures { target_items result ≡ items.items }
    {
        ItemList { items }
    }

    pub fn as_slice(&self) -> &[Item]
        ensures { result.now ≡ target_items self.now }
    {
        self.items.as_slice()
    }
}

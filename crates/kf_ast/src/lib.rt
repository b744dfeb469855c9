//! The tree of a source. Every node has its place: the byte offset of its first byte.
#![tactic(auto)]

mod decl;
mod dist;
mod expr;
mod stmt;
mod ty_tree;

pub use decl::{Decl, DeclList, Ident, Item, ItemList, Source};
pub use dist::{Case, CaseList, Dist, DistNode};
pub use expr::{Expr, ExprList, ExprNode};
pub use stmt::{Stmt, StmtList, StmtNode};
pub use ty_tree::{TyNode, TyTree, TyTreeList};

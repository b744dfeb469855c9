//! Distributions, statements and declarations, each with the place of its first expression that is too long.

ghost use Rattle.std.specs.Prelude.{◌≡◌, [], map};
ghost use Rattle.kf_ast.specs.Views.{case_tree, dist_tree, name_tree, type_form, stmt_tree, decl_tree, item_tree, source_tree, target_items};
ghost use Rattle.kf_parse.specs.Views.{cut_of, trimmed_of, all_of};
ghost use Rattle.kf_parse.specs.Outcomes.{pure};
ghost use Rattle.kf_parse.specs.Reads.{Reads};
ghost use Rattle.kf_parse.specs.Trimmed.{trimmed};

use crate::build::trim;
use crate::kept::{Built, Trimmed};
use crate::stop::Stop;
use kf_ast::{
    Case, CaseList, Decl, DeclList, Dist, DistNode, Ident, ItemList, Source, Stmt, StmtList,
    StmtNode, TyTree,
};

/// One value for certain.
pub(crate) fn sure(x: Built) -> Trimmed<Dist>
    ensures { trimmed_of dist_tree result ≡ trimmed.sure (cut_of x) }
{
    let at = x.at;
    let x = trim(x);
    Trimmed {
        value: Dist {
            at,
            node: DistNode::Sure(x.value),
        },
        long: x.long,
    }
}

/// Each element of a set alike.
pub(crate) fn uniform_set(at: u32, x: Built) -> Trimmed<Dist>
    ensures { trimmed_of dist_tree result ≡ trimmed.uniform_set at (cut_of x) }
{
    let x = trim(x);
    Trimmed {
        value: Dist {
            at,
            node: DistNode::UniformSet(x.value),
        },
        long: x.long,
    }
}

/// Each whole number from the first to the second alike.
pub(crate) fn uniform_range(at: u32, x: Built, y: Built) -> Trimmed<Dist>
    ensures { trimmed_of dist_tree result ≡ trimmed.uniform_range at (cut_of x) (cut_of y) }
{
    let x = trim(x);
    let y = trim(y);
    Trimmed {
        value: Dist {
            at,
            node: DistNode::UniformRange(x.value, y.value),
        },
        long: x.long.or(y.long),
    }
}

/// The cases with one more.
pub(crate) fn push_case(
    cases: Trimmed<Vec<Case>>,
    x: Built,
    y: Built,
) -> Result<Trimmed<Vec<Case>>, Stop>
    ensures { Reads (trimmed_of (all_of case_tree)) (pure (trimmed.push_case (trimmed_of (all_of case_tree) cases) (cut_of x) (cut_of y)) []) result [] }
{
    let x = trim(x);
    let y = trim(y);
    let mut value = cases.value;
    value.push(Case {
        value: x.value,
        weight: y.value,
    })?;
    Ok(Trimmed {
        value,
        long: cases.long.or(x.long.or(y.long)),
    })
}

/// Values with their weights.
pub(crate) fn choose(at: u32, cases: Trimmed<Vec<Case>>) -> Trimmed<Dist>
    ensures { trimmed_of dist_tree result ≡ trimmed.choose at (trimmed_of (all_of case_tree) cases) }
{
    Trimmed {
        value: Dist {
            at,
            node: DistNode::Choose(CaseList::new(cases.value)),
        },
        long: cases.long,
    }
}

/// `true` with probability `num / den`.
pub(crate) fn flip(at: u32, num: u32, den: u32) -> Trimmed<Dist>
    ensures { trimmed_of dist_tree result ≡ trimmed.flip at num den }
{
    Trimmed {
        value: Dist {
            at,
            node: DistNode::Flip { num, den },
        },
        long: None,
    }
}

/// No change.
pub(crate) fn skip(at: u32) -> Trimmed<Stmt>
    ensures { trimmed_of stmt_tree result ≡ trimmed.skip at }
{
    Trimmed {
        value: Stmt {
            at,
            node: StmtNode::Skip,
        },
        long: None,
    }
}

/// A new value of a variable.
pub(crate) fn assign(at: u32, name: Ident, dist: Trimmed<Dist>) -> Trimmed<Stmt>
    ensures { trimmed_of stmt_tree result ≡ trimmed.assign at (name_tree name) (trimmed_of dist_tree dist) }
{
    Trimmed {
        value: Stmt {
            at,
            node: StmtNode::Assign {
                name,
                dist: dist.value,
            },
        },
        long: dist.long,
    }
}

/// An observation.
pub(crate) fn observe(at: u32, dist: Trimmed<Dist>) -> Trimmed<Stmt>
    ensures { trimmed_of stmt_tree result ≡ trimmed.observe at (trimmed_of dist_tree dist) }
{
    Trimmed {
        value: Stmt {
            at,
            node: StmtNode::Observe(dist.value),
        },
        long: dist.long,
    }
}

/// A choice between two lists of statements.
pub(crate) fn if_else(
    at: u32,
    guard: Trimmed<Dist>,
    yes: Trimmed<Vec<Stmt>>,
    no: Trimmed<Vec<Stmt>>,
) -> Trimmed<Stmt>
    ensures { trimmed_of stmt_tree result ≡ trimmed.if_else at (trimmed_of dist_tree guard) (trimmed_of (all_of stmt_tree) yes) (trimmed_of (all_of stmt_tree) no) }
{
    Trimmed {
        value: Stmt {
            at,
            node: StmtNode::If {
                guard: guard.value,
                yes: StmtList::new(yes.value),
                no: StmtList::new(no.value),
            },
        },
        long: guard.long.or(yes.long.or(no.long)),
    }
}

/// A loop.
pub(crate) fn while_loop(at: u32, guard: Trimmed<Dist>, body: Trimmed<Vec<Stmt>>) -> Trimmed<Stmt>
    ensures { trimmed_of stmt_tree result ≡ trimmed.while at (trimmed_of dist_tree guard) (trimmed_of (all_of stmt_tree) body) }
{
    Trimmed {
        value: Stmt {
            at,
            node: StmtNode::While {
                guard: guard.value,
                body: StmtList::new(body.value),
            },
        },
        long: guard.long.or(body.long),
    }
}

/// The statements with one more.
pub(crate) fn push_statement(
    list: Trimmed<Vec<Stmt>>,
    x: Trimmed<Stmt>,
) -> Result<Trimmed<Vec<Stmt>>, Stop>
    ensures { Reads (trimmed_of (all_of stmt_tree)) (pure (trimmed.push_statement (trimmed_of (all_of stmt_tree) list) (trimmed_of stmt_tree x)) []) result [] }
{
    let mut value = list.value;
    value.push(x.value)?;
    Ok(Trimmed {
        value,
        long: list.long.or(x.long),
    })
}

/// The declarations with one more.
pub(crate) fn push_declaration(
    list: Trimmed<Vec<Decl>>,
    visible: bool,
    name: Ident,
    ty: TyTree,
    dist: Trimmed<Dist>,
) -> Result<Trimmed<Vec<Decl>>, Stop>
    ensures { Reads (trimmed_of (all_of decl_tree)) (pure (trimmed.push_declaration (trimmed_of (all_of decl_tree) list) visible (name_tree name) (type_form ty) (trimmed_of dist_tree dist)) []) result [] }
{
    let mut value = list.value;
    value.push(Decl {
        visible,
        name,
        ty,
        dist: dist.value,
    })?;
    Ok(Trimmed {
        value,
        long: list.long.or(dist.long),
    })
}

/// A whole source.
pub(crate) fn source(
    decls: Trimmed<Vec<Decl>>,
    target: ItemList,
    body: Trimmed<Vec<Stmt>>,
) -> Trimmed<Source>
    ensures { trimmed_of source_tree result ≡ trimmed.source (trimmed_of (all_of decl_tree) decls) (map item_tree (target_items target)) (trimmed_of (all_of stmt_tree) body) }
{
    Trimmed {
        value: Source {
            decls: DeclList::new(decls.value),
            target,
            body: StmtList::new(body.value),
        },
        long: decls.long.or(body.long),
    }
}

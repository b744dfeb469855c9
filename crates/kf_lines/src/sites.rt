//! The statements that get a line.

ghost use Rattle.std.specs.Prelude.{◌≡◌, ◌++◌, ◌∷◌, [], IfOk, OnOk, map};
ghost use Rattle.kf_ast.specs.Stmts.{stmts as block_of_text};
ghost use Rattle.kf_ast.specs.Views.{stmt_tree};
ghost use Rattle.kf_core.specs.Sts.{sts as block_of};
ghost use Rattle.kf_core.specs.Views.{st_tree};
ghost use Rattle.kf_lines.specs.Sites.{block_sites, may_show as shows_of, own_sites, sites as sites_of_statement};
ghost use Rattle.kf_lines.specs.Views.{behind, site_of};

use crate::site::{Path, Site, SiteList};
use kf_ast::{Stmt, StmtNode};
use kf_core::St;
use kf_value::Mem;
use std::alloc::Global;

// Whether a statement may show something itself.
fn may_show(st: &St) -> bool
    ensures { result ≡ shows_of (st_tree st.now) }
{
    match st {
        St::Skip => false,
        St::Assign { shown, .. } => *shown,
        St::Observe(_) => true,
        St::If { .. } => true,
        St::While { .. } => true,
    }
}

// A path that goes on by this number.
fn longer(alloc: Global, path: &[usize], i: usize) -> Result<Vec<usize>, Mem>
    ensures { IfOk result (λ longer. longer.items ≡ path.now ++ i ∷ []) }
{
    let mut longer = path.to_vec(alloc)?;
    longer.push(i)?;
    Ok(longer)
}

// Adds the site of a statement with this path and first byte, where it may show something.
fn add_own(alloc: Global, path: &[usize], at: u32, st: &St, out: &mut Vec<Site>) -> Result<(), Mem>
    ensures { OnOk result (map site_of out.new.items ≡ map site_of out.old.items ++ map (behind path.now) (own_sites at (st_tree st.now))) }
{
    if !may_show(st) {
        return Ok(());
    }
    let path = Path::new(path.to_vec(alloc)?);
    out.push(Site { path, at })?;
    Ok(())
}

// Adds the sites of a statement with this path, and of what stands in it.
#[cycle(sites)]
fn add_sites(
    alloc: Global,
    path: &[usize],
    stmt: &Stmt,
    st: &St,
    out: &mut Vec<Site>,
) -> Result<(), Mem>
    ensures { OnOk result (map site_of out.new.items
        ≡ map site_of out.old.items ++ map (behind path.now) (sites_of_statement (stmt_tree stmt.now) (st_tree st.now))) }
{
    add_own(alloc, path, stmt.at, st, out)?;
    match &stmt.node {
        StmtNode::If { yes, no, .. } => {
            let St::If {
                yes: taken,
                no: left,
                ..
            } = st
            else {
                return Ok(());
            };
            let first = longer(alloc, path, 0)?;
            add_block(alloc, &first, yes.as_slice(), taken.as_slice(), out)?;
            let other = longer(alloc, path, 1)?;
            add_block(alloc, &other, no.as_slice(), left.as_slice(), out)
        }
        StmtNode::While { body, .. } => {
            let St::While { body: again, .. } = st else {
                return Ok(());
            };
            let within = longer(alloc, path, 0)?;
            add_block(alloc, &within, body.as_slice(), again.as_slice(), out)
        }
        _ => Ok(()),
    }
}

// Adds the sites of the statements of a block.
#[cycle(sites)]
fn add_block(
    alloc: Global,
    path: &[usize],
    stmts: &[Stmt],
    sts: &[St],
    out: &mut Vec<Site>,
) -> Result<(), Mem>
    ensures { OnOk result (map site_of out.new.items
        ≡ map site_of out.old.items ++ map (behind path.now) (block_sites 0 (block_of_text (map stmt_tree stmts.now)) (block_of (map st_tree sts.now)))) }
{
    for i in 0..stmts.len().min(sts.len()) {
        let within = longer(alloc, path, i)?;
        add_sites(alloc, &within, &stmts[i], &sts[i], out)?;
    }
    Ok(())
}

/// The sites of a statement, in the order of its text.
pub(crate) fn sites_of(alloc: Global, stmt: &Stmt, st: &St) -> Result<SiteList, Mem>
    ensures { IfOk result (λ sites. map site_of sites ≡ sites_of_statement (stmt_tree stmt.now) (st_tree st.now)) }
{
    let mut out = Vec::new(alloc);
    add_sites(alloc, &[], stmt, st, &mut out)?;
    Ok(SiteList::new(out))
}

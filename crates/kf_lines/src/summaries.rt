//! The lines of a program: how much is seen of it where each statement that may show something is silent.

ghost use Rattle.std.specs.Prelude.{◌≡◌, ◌≤◌, ◌<◌, ◌*◌, ◌++◌, ℤ, ℕ, List, IfOk, IsErrOf, OnOk, length, map};
ghost use Rattle.kf_ast.specs.Stmts.{stmts as block_of_text};
ghost use Rattle.kf_ast.specs.Views.{stmt_tree};
ghost use Rattle.kf_core.specs.Sts.{sts as block_of};
ghost use Rattle.kf_frac.specs.Fractions.{limit};
ghost use Rattle.kf_frac.specs.Parts.{IsFraction};
ghost use Rattle.kf_gain.specs.Gains.{over_of};
ghost use Rattle.kf_gain.specs.Views.{gain_tree};
ghost use Rattle.kf_gain.specs.Vulnerabilities.{IsPosterior, IsWidth};
ghost use Rattle.kf_hyper.specs.Views.{inners_of, scale_of};
ghost use Rattle.kf_lines.specs.Sites.{block_sites, under};
ghost use Rattle.kf_lines.specs.Sites as spec;
ghost use Rattle.kf_lines.specs.Views.{AreLinesIn, IsLineIn, IsNarrowIn, site_of};
ghost use Rattle.kf_load.specs.Views.{program_in};
ghost use Rattle.kf_run.specs.Before.{IsBefore, cleared_before, place_before};

use crate::site::Site;
use crate::sites::sites_of;
use crate::summary::{Line, LineList, Summary};
use kf_ast::Stmt;
use kf_gain::{Gain, GainFault, posterior};
use kf_hyper::Hyper;
use kf_quiet::silent_gain_laws;
use kf_run::Before;
use kf_support::Cleared;
use kf_value::Mem;
use std::alloc::Global;

/// How much is seen of a hyper under a gain.
pub(crate) fn summary_of(alloc: Global, h: &Hyper, g: &Gain) -> Result<Summary, GainFault>
    ensures inners { IfOk result (λ s. s.inners ≡ length (inners_of h.now)) }
    ensures posterior { IfOk result (λ s. (z : ℤ) × IsPosterior (gain_tree g.now) (inners_of h.now) z
        × IsFraction s.posterior z (scale_of h.now * over_of (gain_tree g.now))) }
    ensures narrow { IfOk result (λ _. (m : ℕ) × IsWidth (gain_tree g.now) (inners_of h.now) m × (scale_of h.now * m ≤ limit)) }
    ensures wide { IsErrOf result GainFault.Wide → (m : ℕ) × IsWidth (gain_tree g.now) (inners_of h.now) m × (limit < scale_of h.now * m) }
{
    let posterior = posterior(alloc, h, g)?;
    Ok(Summary {
        inners: h.count() as u64,
        posterior,
    })
}

// The line of a site within the statement at hand. Silent statements make no gain wider.
fn line_of(alloc: Global, before: &Before<'_>, site: &Site, g: &Gain) -> Result<Line, Mem>
    requires before { IsBefore before.now }
    requires within { place_before before.now < length (program_in (cleared_before before.now)).body }
    requires narrow { IsNarrowIn (cleared_before before.now) (gain_tree g.now) }
    ensures { IfOk result (IsLineIn (cleared_before before.now) (gain_tree g.now) (under (place_before before.now) (site_of site.now))) }
{
    silent_gain_laws();
    let hyper = before.hyper_without(alloc, site.path.as_slice())?;
    match summary_of(alloc, &hyper, g) {
        Ok(left) => Ok(Line { at: site.at, left }),
        Err(GainFault::Mem) => Err(Mem),
        Err(GainFault::Wide) => unreachable!(),
    }
}

// Adds the lines of sites within the statement at hand.
fn add_lines(
    alloc: Global,
    before: &Before<'_>,
    sites: &[Site],
    g: &Gain,
    out: &mut Vec<Line>,
) -> Result<(), Mem>
    requires before { IsBefore before.now }
    requires within { place_before before.now < length (program_in (cleared_before before.now)).body }
    requires narrow { IsNarrowIn (cleared_before before.now) (gain_tree g.now) }
    ensures { OnOk result ((done : List spec.Site) → AreLinesIn (cleared_before before.now) (gain_tree g.now) done out.old.items
        → AreLinesIn (cleared_before before.now) (gain_tree g.now)
        (done ++ map (under (place_before before.now)) (map site_of sites.now)) out.new.items) }
{
    for site in sites {
        out.push(line_of(alloc, before, site, g)?)?;
    }
    Ok(())
}

/// The lines of a cleared program whose text has these statements, under a gain.
pub(crate) fn lines_of(
    alloc: Global,
    cleared: &Cleared,
    stmts: &[Stmt],
    g: &Gain,
) -> Result<LineList, Mem>
    requires narrow { IsNarrowIn cleared.now (gain_tree g.now) }
    ensures { IfOk result (λ lines. AreLinesIn cleared.now (gain_tree g.now)
        (block_sites 0 (block_of_text (map stmt_tree stmts.now)) (block_of (program_in cleared.now).body)) lines) }
{
    let sts = cleared.program().body.as_slice();
    let mut before = Before::first(alloc, cleared)?;
    let mut lines = Vec::new(alloc);
    for i in 0..stmts.len().min(sts.len()) {
        let sites = sites_of(alloc, &stmts[i], &sts[i])?;
        add_lines(alloc, &before, sites.as_slice(), g, &mut lines)?;
        before.next(alloc)?;
    }
    Ok(LineList::new(lines))
}

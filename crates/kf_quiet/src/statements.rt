//! How much is left of what is seen where each outermost statement in turn is quiet.

ghost use Rattle.std.specs.Prelude.{◌≡◌, ◌<◌, ◌≤◌, ◌+◌, ℤ, true, List, IfOk, OnOk, length};
ghost use Rattle.kf_frac.specs.Parts.{IsFraction};
ghost use Rattle.kf_hyper.specs.Views.{inners_of, scale_of};
ghost use Rattle.kf_core.specs.Joint.{joint_of};
ghost use Rattle.kf_core.specs.Rows.{IsHyperOf};
ghost use Rattle.kf_core.specs.Views.{st_tree};
ghost use Rattle.kf_gain.specs.Gains.{Bayes};
ghost use Rattle.kf_gain.specs.Vulnerabilities.{IsPosterior};
ghost use Rattle.kf_silent.specs.Quiet.{quiet_joint};
ghost use Rattle.kf_quiet.specs.Blames.{AreBlames};
ghost use Rattle.kf_quiet.specs.Standing.{StandsBefore};
ghost use Rattle.kf_quiet.specs.Summaries.{SummaryTree};
ghost use Rattle.kf_quiet.specs.Unseen.{ShowsNothing};
ghost use Rattle.kf_quiet.specs.Views.{ShowBlames, ShowsBlameOf};

use crate::before::{Before, bring, first_before};
use crate::quiet::quiet_from;
use crate::{Blame, BlameList};
use kf_core::{St, choice_laws, run_laws};
use kf_frac::Frac;
use kf_gain::{Gain, GainFault, posterior};
use kf_hyper::{Columns, Hyper};
use kf_push::{Pusher, about_target};
use kf_value::Mem;
use std::alloc::Global;

/// The hyper of the whole program, from the columns before its first statement.
fn whole_hyper<P: Pusher>(alloc: Global, p: &P, first: &Columns) -> Result<Hyper, Mem>
    requires stands { StandsBefore (P.meaning p.now) 0 first.now }
    ensures hyper { IfOk result (λ h. IsHyperOf (joint_of (P.meaning p.now).turns (P.meaning p.now).program) (inners_of h)) }
    ensures scale { IfOk result (λ h. scale_of h ≡ (P.meaning p.now).scale) }
{
    choice_laws();
    run_laws();
    let program = p.program();
    let after = p.push(alloc, 0, program.body.as_slice().len(), first)?;
    let hyper = about_target(alloc, program, &after)?;
    Ok(hyper)
}

/// The posterior Bayes vulnerability of a hyper.
fn bayes_of(alloc: Global, h: &Hyper) -> Result<Frac, Mem>
    ensures { IfOk result (λ f. (z : ℤ) × IsPosterior Bayes (inners_of h.now) z × IsFraction f z (scale_of h.now)) }
{
    h.has_shape();
    match posterior(alloc, h, &Gain::Bayes) {
        Ok(bayes) => Ok(bayes),
        Err(GainFault::Mem) => Err(Mem),
        Err(GainFault::Wide) => unreachable!(),
    }
}

/// How many inners a hyper has, and its posterior Bayes vulnerability.
fn blame_at(alloc: Global, h: &Hyper) -> Result<Blame, Mem>
    ensures inners { IfOk result (λ b. b.inners ≡ length (inners_of h.now)) }
    ensures bayes { IfOk result (λ b. (z : ℤ) × IsPosterior Bayes (inners_of h.now) z × IsFraction b.bayes z (scale_of h.now)) }
{
    let bayes = bayes_of(alloc, h)?;
    Ok(Blame {
        inners: h.count() as u64,
        bayes,
    })
}

/// The blame of the whole program, from the columns before its first statement.
fn whole_blame<P: Pusher>(alloc: Global, p: &P, first: &Columns) -> Result<Blame, Mem>
    requires stands { StandsBefore (P.meaning p.now) 0 first.now }
    ensures { IfOk result (λ b. ShowsBlameOf (joint_of (P.meaning p.now).turns (P.meaning p.now).program) (P.meaning p.now).scale b) }
{
    let whole = whole_hyper(alloc, p, first)?;
    let blame = blame_at(alloc, &whole)?;
    Ok(blame)
}

/// Whether the statement shows nothing by its form: a `skip`, or an assignment to a hidden variable.
fn shows_nothing(statement: &St) -> bool
    ensures { result ≡ true → ShowsNothing (st_tree statement.now) }
{
    match statement {
        St::Skip => true,
        St::Assign { shown, .. } => !*shown,
        _ => false,
    }
}

/// The blame where the outermost statement `i`, from 0, is quiet. Where it shows nothing anyway, it is that of the whole program, and
/// nothing is run; else the columns are brought on to that statement.
fn blame_without<P: Pusher>(
    alloc: Global,
    p: &P,
    i: usize,
    whole: Blame,
    before: &mut Before,
) -> Result<Blame, Mem>
    requires within { i < length (P.meaning p.now).program.body }
    requires whole { ShowsBlameOf (joint_of (P.meaning p.now).turns (P.meaning p.now).program) (P.meaning p.now).scale whole }
    requires order { before.old.at ≤ i }
    requires stands { StandsBefore (P.meaning p.now) before.old.at before.old.columns }
    ensures blame { IfOk result (λ b. ShowsBlameOf (quiet_joint (P.meaning p.now).turns (P.meaning p.now).program i (i + 1)) (P.meaning p.now).scale b) }
    ensures order { OnOk result (before.new.at ≤ i) }
    ensures stands { OnOk result (StandsBefore (P.meaning p.now) before.new.at before.new.columns) }
{
    run_laws();
    let program = p.program();
    if shows_nothing(&program.body.as_slice()[i]) {
        return Ok(whole);
    }
    bring(alloc, p, before, i)?;
    let quiet = quiet_from(alloc, p, i, i + 1, &before.columns)?;
    let blame = blame_at(alloc, &quiet)?;
    Ok(blame)
}

/// The blames of a program: the number of inners and the posterior Bayes vulnerability of its hyper, and then of its hyper where each
/// outermost statement in turn is quiet.
pub fn blame_of<P: Pusher>(alloc: Global, p: &P) -> Result<BlameList, Mem>
    ensures { IfOk result (λ blames. (trees : List SummaryTree) × AreBlames (P.meaning p.now).turns (P.meaning p.now).program trees
        × ShowBlames (P.meaning p.now).scale trees blames) }
{
    let count = p.program().body.as_slice().len();
    let mut before = first_before(alloc, p)?;
    let whole = whole_blame(alloc, p, &before.columns)?;
    let mut blames = Vec::new(alloc);
    blames.push(whole)?;
    for i in 0..count {
        blames.push(blame_without(alloc, p, i, whole, &mut before)?)?;
    }
    Ok(BlameList::new(blames))
}

//! The rules on a gain table.

ghost use Rattle.std.specs.Prelude.{◌≡◌, ◌≢◌, ◌↔◌, List, Ok, Err, IfOk, IfErr, IsErrOf, IsTrue, pos, ◌*ℤ◌, ◌<ℤ◌};
ghost use Rattle.std.specs.List.{AllZip};
ghost use Rattle.kf_cert.specs.declared.mark.CheckError.TheVariants as error;
ghost use Rattle.kf_cert.specs.Certificates.{No};
ghost use Rattle.kf_cert.specs.Marks.{IsMarked};
ghost use Rattle.kf_cert.specs.Naming.{IsMade, AreNarrow};
ghost use Rattle.kf_cert.specs.Views.{named_table, IsSoundTable};
ghost use Rattle.kf_frac.specs.Views.{num_of, den_of};
ghost use Rattle.kf_gain.specs.Views.{table_tree};
ghost use Rattle.kf_hyper.specs.Views.{target_of, scale_of};
ghost use Rattle.kf_refine.specs.Refinements.{Separates};
ghost use Rattle.kf_refine.specs.Views.{hyper_tree};
ghost use Rattle.kf_value.specs.Targets.{Item};

mod excess;
mod numbers;
mod posterior;
mod sums;

use crate::{CertGain, CheckError, Mark, Rule};
use kf_frac::{Frac, cmp};
use kf_gain::{Action, ActionList, Gain, GainFault, GainTable};
use kf_hyper::Hyper;
use numbers::actions;
use posterior::posterior;
use std::alloc::Global;
use std::cmp::Ordering;

impl From<GainFault> for CheckError {
    ghost use Rattle.kf_cert.specs.Naming.{BecomesFault};

    ghost from_gives = { λ found e. BecomesFault found e };

    fn from(found: GainFault) -> Self {
        match found {
            GainFault::Wide => CheckError::Wide,
            GainFault::Mem => CheckError::Mem,
        }
    }
}

// The table with the numbers of this one, and these actions.
fn table(gain: &CertGain, actions: Vec<Action>) -> GainTable
    requires sound { IsSoundTable (named_table gain.now) }
    requires made { (target : List Item) × AllZip (IsMade target) (named_table gain.now).actions actions.items }
    ensures { table_tree result ≡ record { over = (named_table gain.now).over; rest = (named_table gain.now).rest; actions = actions.items } }
{
    GainTable {
        over: gain.over,
        rest: gain.rest,
        actions: ActionList::new(actions),
    }
}

// Whether a fraction is less than another.
fn is_less(f: Frac, g: Frac) -> bool
    ensures { IsTrue result ↔ ((num_of f *ℤ pos (den_of g)) <ℤ (num_of g *ℤ pos (den_of f))) }
{
    cmp(f, g) == Ordering::Less
}

// Whether a table separates two hypers.
fn separates(alloc: Global, a: &Hyper, b: &Hyper, table: GainTable) -> Result<bool, GainFault>
    ensures told { IfOk result (λ r. IsTrue r ↔ Separates (table_tree table) (hyper_tree a.now) (hyper_tree b.now)) }
    ensures narrow { IfOk result (λ r. AreNarrow (scale_of a.now) (scale_of b.now) (table_tree table)) }
    ensures wide { IsErrOf result GainFault.Wide → AreNarrow (scale_of a.now) (scale_of b.now) (table_tree table) → ⊥ }
{
    a.has_shape();
    b.has_shape();
    let gain = Gain::Table(table);
    let of_a = posterior(alloc, a, &gain)?;
    let of_b = posterior(alloc, b, &gain)?;
    Ok(is_less(of_a, of_b))
}

/// Whether a gain table separates two hypers of one target.
pub(crate) fn check_gain(
    alloc: Global,
    a: &Hyper,
    b: &Hyper,
    gain: &CertGain,
) -> Result<Mark, CheckError>
    requires targets { target_of a.now ≡ target_of b.now }
    requires sound { IsSoundTable (named_table gain.now) }
    ensures is { IfOk result (λ mark. IsMarked (hyper_tree a.now) (hyper_tree b.now) (No (named_table gain.now)) (Ok mark)) }
    ensures err { IfErr result (λ e. e ≢ error.Mem → IsMarked (hyper_tree a.now) (hyper_tree b.now) (No (named_table gain.now)) (Err e)) }
{
    let Some(actions) = actions(alloc, a.target(), gain.actions.as_slice())? else {
        return Ok(Mark::Rejected(Rule::Value));
    };
    if separates(alloc, a, b, table(gain, actions))? {
        Ok(Mark::Accepted)
    } else {
        Ok(Mark::Rejected(Rule::Order))
    }
}

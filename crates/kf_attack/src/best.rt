//! The best that can be done at each inner.

ghost use Rattle.std.specs.Prelude.{◌≡◌, ◌≤◌, ◌<◌, ◌*◌, ℕ, List, IfOk, IsErrOf, length};
ghost use Rattle.kf_frac.specs.Fractions.{limit};
ghost use Rattle.kf_column.specs.Columns.{IsColumn, total};
ghost use Rattle.kf_hyper.specs.Views.{inners_of, scale_of};
ghost use Rattle.kf_gain.specs.Vulnerabilities.{IsWidth, width};
ghost use Rattle.kf_gain.specs.Views.{gain_tree};
ghost use Rattle.kf_attack.specs.Attacks.{AttackTree};
ghost use Rattle.kf_attack.specs.Inners.{IsShownBest};
ghost use Rattle.kf_attack.specs.Views.{ShowAttacks, AreAttacks};

use crate::guesses::{in_turn, likeliest};
use crate::scores::scored;
use crate::{Attack, AttackList};
use kf_gain::{Gain, GainFault, guarded};
use kf_hyper::{Entry, Hyper};
use kf_value::Mem;
use std::alloc::Global;

// The best that can be done at one inner.
fn attack(alloc: Global, entries: &[Entry], g: &Gain) -> Result<Attack, Mem>
    requires column { IsColumn entries.now }
    requires fits { total entries.now * width (gain_tree g.now) (length entries.now) ≤ limit }
    ensures { IfOk result (IsShownBest (gain_tree g.now) entries.now) }
{
    match g {
        Gain::Bayes => likeliest(alloc, entries, 1),
        Gain::Tries(count) => likeliest(alloc, entries, *count),
        Gain::Guessing => in_turn(alloc, entries),
        Gain::Table(table) => scored(alloc, entries, table),
    }
}

// The same at each inner.
fn attacks(alloc: Global, h: &Hyper, g: &Gain) -> Result<AttackList, Mem>
    requires { (m : ℕ) × IsWidth (gain_tree g.now) (inners_of h.now) m × (scale_of h.now * m ≤ limit) }
    ensures { IfOk result (λ attacks. (trees : List AttackTree) × AreAttacks (gain_tree g.now) (inners_of h.now) trees
        × ShowAttacks (gain_tree g.now) trees attacks) }
{
    h.has_shape();
    let mut attacks = Vec::new(alloc);
    for i in 0..h.count() {
        let entries = h.inner(i).entries().as_slice();
        attacks.push(attack(alloc, entries, g)?)?;
    }
    Ok(AttackList::new(attacks))
}

/// The best that can be done at each inner of a hyper under a gain: what it is worth, and which values to guess, or what each action of
/// a table is expected to gain (Alvim et al. 2020).
///
/// `Wide` exactly where the scale times the gain's width passes 2^127 - 1.
pub fn attack_of(alloc: Global, h: &Hyper, g: &Gain) -> Result<AttackList, GainFault>
    ensures is { IfOk result (λ attacks. (trees : List AttackTree) × AreAttacks (gain_tree g.now) (inners_of h.now) trees
        × ShowAttacks (gain_tree g.now) trees attacks) }
    ensures narrow { IfOk result (λ _. (m : ℕ) × IsWidth (gain_tree g.now) (inners_of h.now) m × (scale_of h.now * m ≤ limit)) }
    ensures wide { IsErrOf result GainFault.Wide → (m : ℕ) × IsWidth (gain_tree g.now) (inners_of h.now) m × (limit < scale_of h.now * m) }
{
    guarded(alloc, h, g)?;
    let attacks = attacks(alloc, h, g)?;
    Ok(attacks)
}

ghost use Rattle.std.specs.Prelude.{◌≡◌, ◌<◌, ◌++◌, All, ℕ, List, IfOk, OnOk, codes, flat_map, length};
ghost use Rattle.kf_value.specs.Numbers.{target_size};
ghost use Rattle.kf_value.specs.Views.{items_of};
ghost use Rattle.kf_hyper.specs.Views.{inner_at, inners_of, scale_of, target_of};
ghost use Rattle.kf_gain.specs.Views.{gain_tree};
ghost use Rattle.kf_attack.specs.Attacks.{AttackTree, ReachTree};
ghost use Rattle.kf_attack.specs.Views.{actions_of, ShowAttacks, ShowsReach, AreAttacks};
ghost use Rattle.kf_text.specs.AttackTexts.{attack_text as text_of_attack, reach_text as text_of_reach};
ghost use Rattle.kf_text.specs.AttackViews.{own_attack_lines, own_best_lines, own_score_line, own_value_line, own_worth_line, IsPrintable};
ghost use Rattle.kf_text.specs.Texts.{line};

use crate::items::{
    print_bytes, print_count, print_frac, print_fraction, print_line, print_number,
};
use crate::report::print_gain;
use kf_attack::{Attack, AttackList, Best, Reach, Score, WeighedValue};
use kf_frac::Frac;
use kf_gain::{Action, Gain};
use kf_hyper::Hyper;
use kf_value::{Mem, Target};
use std::alloc::Global;

// Appends the line of a value and its probability.
fn print_value(
    alloc: Global,
    target: &Target,
    weighed: &WeighedValue,
    out: &mut Vec<u8>,
) -> Result<(), Mem>
    requires { weighed.now.value < target_size (items_of target.now) }
    ensures { OnOk result (out.new.items ≡ out.old.items ++ own_value_line (items_of target.now) weighed.now) }
{
    print_line(alloc, target, weighed.value, b" ", out)?;
    print_fraction(b"", weighed.chance, out)
}

// Appends the lines of values.
fn print_values(
    alloc: Global,
    target: &Target,
    values: &[WeighedValue],
    out: &mut Vec<u8>,
) -> Result<(), Mem>
    requires { All (λ v. v.value < target_size (items_of target.now)) values.now }
    ensures { OnOk result (out.new.items ≡ out.old.items ++ flat_map (own_value_line (items_of target.now)) values.now) }
{
    for weighed in values {
        print_value(alloc, target, weighed, out)?;
    }
    Ok(())
}

// Appends the line of an action and its expected gain.
fn print_score(actions: &[Action], score: &Score, out: &mut Vec<u8>) -> Result<(), Mem>
    requires { score.now.action < length actions.now }
    ensures { OnOk result (out.new.items ≡ out.old.items ++ own_score_line actions.now score.now) }
{
    print_bytes(b"  ", out)?;
    print_bytes(actions[score.action].name.as_str().as_bytes(), out)?;
    print_fraction(b" ", score.score, out)
}

// Appends the lines of actions.
fn print_scores(actions: &[Action], scores: &[Score], out: &mut Vec<u8>) -> Result<(), Mem>
    requires { All (λ s. s.action < length actions.now) scores.now }
    ensures { OnOk result (out.new.items ≡ out.old.items ++ flat_map (own_score_line actions.now) scores.now) }
{
    for score in scores {
        print_score(actions, score, out)?;
    }
    Ok(())
}

// The actions of a gain; only a table has some.
fn actions(gain: &Gain) -> &[Action]
    ensures { result.now ≡ actions_of (gain_tree gain.now) }
{
    match gain {
        Gain::Table(table) => table.actions.as_slice(),
        _ => &[],
    }
}

// Appends the lines of the best that can be done.
fn print_best(
    alloc: Global,
    target: &Target,
    gain: &Gain,
    best: &Best,
    out: &mut Vec<u8>,
) -> Result<(), Mem>
    requires { IsPrintable (target_size (items_of target.now)) (actions_of (gain_tree gain.now)) best.now }
    ensures { OnOk result (out.new.items ≡ out.old.items ++ own_best_lines (items_of target.now) (actions_of (gain_tree gain.now)) best.now) }
{
    match best {
        Best::Values(values) => print_values(alloc, target, values.as_slice(), out),
        Best::Scores(scores) => print_scores(actions(gain), scores.as_slice(), out),
    }
}

// Appends the line of an inner's outer and of what the best is worth.
fn print_worth(hyper: &Hyper, i: usize, worth: Frac, out: &mut Vec<u8>) -> Result<(), Mem>
    requires { i < length (inners_of hyper.now) }
    ensures { OnOk result (out.new.items ≡ out.old.items ++ own_worth_line (scale_of hyper.now) i (inner_at hyper.now i) worth) }
{
    let outer = hyper.outer(i);
    print_bytes(b"inner ", out)?;
    print_number(i, out)?;
    print_bytes(b" outer ", out)?;
    print_frac(outer, out)?;
    print_fraction(b" value ", worth, out)
}

// Appends the lines of the attack at the inner `i`.
fn print_attack(
    alloc: Global,
    hyper: &Hyper,
    gain: &Gain,
    i: usize,
    attack: &Attack,
    out: &mut Vec<u8>,
) -> Result<(), Mem>
    requires inner { i < length (inners_of hyper.now) }
    requires best { IsPrintable (target_size (target_of hyper.now)) (actions_of (gain_tree gain.now)) attack.now.best }
    ensures { OnOk result (out.new.items ≡ out.old.items
        ++ own_attack_lines (target_of hyper.now) (scale_of hyper.now) (actions_of (gain_tree gain.now)) (inner_at hyper.now) (i, attack.now)) }
{
    print_worth(hyper, i, attack.worth, out)?;
    print_best(alloc, hyper.target(), gain, &attack.best, out)
}

/// The printed attack on a hyper under a gain: for each inner its outer, what the best is worth, and which values to guess or what each
/// action of the table is expected to gain.
pub fn attack_text(alloc: Global, h: &Hyper, g: &Gain, a: &AttackList) -> Result<Vec<u8>, Mem>
    requires { (trees : List AttackTree) × AreAttacks (gain_tree g.now) (inners_of h.now) trees × ShowAttacks (gain_tree g.now) trees a.now }
    ensures { (trees : List AttackTree) → AreAttacks (gain_tree g.now) (inners_of h.now) trees → ShowAttacks (gain_tree g.now) trees a.now
        → IfOk result (λ text. text.items ≡ text_of_attack (gain_tree g.now) (target_of h.now) (scale_of h.now) (inners_of h.now) trees) }
{
    let mut out = Vec::new(alloc);
    print_gain(g, &mut out)?;
    let attacks = a.as_slice();
    for i in 0..attacks.len() {
        print_attack(alloc, h, g, i, &attacks[i], &mut out)?;
    }
    Ok(out)
}

/// The printed number of tries, and the posterior with these and with one fewer.
pub fn reach_text(alloc: Global, r: &Reach) -> Result<Vec<u8>, Mem>
    ensures { (scale : ℕ) (tree : ReachTree) → ShowsReach scale tree r.now → IfOk result (λ text. text.items ≡ text_of_reach scale tree) }
{
    let mut out = Vec::new(alloc);
    print_count(b"tries ", r.tries, &mut out)?;
    print_fraction(b"posterior ", r.posterior, &mut out)?;
    print_fraction(b"before ", r.before, &mut out)?;
    Ok(out)
}

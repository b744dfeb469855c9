//! The values that are best guessed, and what they come to.

ghost use Rattle.std.specs.Prelude.{◌≡◌, ◌≤◌, ◌<◌, ◌*◌, IfOk, length};
ghost use Rattle.std.specs.List.{AllZip};
ghost use Rattle.kf_frac.specs.Fractions.{limit};
ghost use Rattle.kf_column.specs.Columns.{IsColumn, total};
ghost use Rattle.kf_gain.specs.Gains.{Tries, Guessing};
ghost use Rattle.kf_attack.specs.Inners.{IsShownBest, cost_of};
ghost use Rattle.kf_attack.specs.Views.{ShowsValue};

use crate::fractions::fraction;
use crate::guess_order::ranked;
use crate::{Attack, Best, WeighedValue, WeighedValueList};
use kf_frac::share;
use kf_hyper::Entry;
use kf_value::Mem;
use std::alloc::Global;

// The sum of the weights.
pub(crate) fn sum(entries: &[Entry]) -> u128
    requires { total entries.now ≤ limit }
    ensures { result ≡ total entries.now }
{
    entries.iter().map(|entry| entry.weight).sum()
}

// What guesses in this order cost: the sum of weight times position.
fn cost(entries: &[Entry]) -> u128
    requires { cost_of 1 entries.now ≤ limit }
    ensures { result ≡ cost_of 1 entries.now }
{
    let mut cost = 0;
    for (i, entry) in entries.iter().enumerate() {
        cost += entry.weight * (i as u128 + 1);
    }
    cost
}

// Values with their probabilities in an inner whose weights sum to `whole`.
fn weighed(alloc: Global, entries: &[Entry], whole: u128) -> Result<WeighedValueList, Mem>
    requires part { total entries.now ≤ whole }
    requires some { 0 < whole }
    requires narrow { whole ≤ limit }
    ensures { IfOk result (λ values. AllZip (ShowsValue whole) entries.now values) }
{
    let mut values = Vec::new(alloc);
    for entry in entries {
        let chance = share(entry.weight, whole);
        values.push(WeighedValue {
            value: entry.value,
            chance,
        })?;
    }
    Ok(WeighedValueList::new(values))
}

// The likeliest values, at most so many.
pub(crate) fn likeliest(alloc: Global, entries: &[Entry], count: u32) -> Result<Attack, Mem>
    requires column { IsColumn entries.now }
    requires fits { total entries.now ≤ limit }
    ensures { IfOk result (IsShownBest (Tries count) entries.now) }
{
    let whole = sum(entries);
    let mut guesses = ranked(alloc, entries)?;
    guesses.truncate(count as usize);
    let guesses = guesses.as_slice();
    let worth = share(sum(guesses), whole);
    let values = weighed(alloc, guesses, whole)?;
    Ok(Attack {
        worth,
        best: Best::Values(values),
    })
}

// All values, the likeliest first.
pub(crate) fn in_turn(alloc: Global, entries: &[Entry]) -> Result<Attack, Mem>
    requires column { IsColumn entries.now }
    requires fits { total entries.now * length entries.now ≤ limit }
    ensures { IfOk result (IsShownBest Guessing entries.now) }
{
    let whole = sum(entries);
    let guesses = ranked(alloc, entries)?;
    let guesses = guesses.as_slice();
    let worth = fraction(cost(guesses) as i128, whole);
    let values = weighed(alloc, guesses, whole)?;
    Ok(Attack {
        worth,
        best: Best::Values(values),
    })
}

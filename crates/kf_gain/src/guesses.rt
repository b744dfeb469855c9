ghost use Rattle.std.specs.Prelude.{◌≡◌, ◌≤◌, ◌<◌, ◌*◌, ◌^◌, pos, IfOk, length, map, sum_by, IsPermutation};
ghost use Rattle.kf_column.specs.Columns.{IsColumn, total};
ghost use Rattle.kf_gain.specs.Gains.{Tries, Guessing};
ghost use Rattle.kf_gain.specs.Worth.{IsVulnerability};
ghost use Rattle.kf_gain.specs.Falling.{IsFalling};

use kf_hyper::Entry;
use kf_value::Mem;
use std::alloc::Global;

// The weights, the greatest first.
fn falling(alloc: Global, entries: &[Entry]) -> Result<Vec<u128>, Mem>
    ensures permutation { IfOk result (λ weights. IsPermutation (map (λ e. e.weight) entries.now) weights.items) }
    ensures falling { IfOk result (λ weights. IsFalling weights.items) }
{
    let mut weights: Vec<u128> = entries.iter().map(|entry| entry.weight).collect(alloc)?;
    weights.sort_by(|a, b| b.cmp(a))?;
    Ok(weights)
}

fn sum(weights: &[u128]) -> u128
    requires { sum_by (λ n. n) weights.now < 2 ^ 128 }
    ensures { result ≡ sum_by (λ n. n) weights.now }
{
    weights.iter().copied().sum()
}

// The greatest weight of so many different values.
pub fn tried(alloc: Global, entries: &[Entry], count: u32) -> Result<u128, Mem>
    requires column { IsColumn entries.now }
    requires fits { total entries.now < 2 ^ 128 }
    ensures { IfOk result (λ n. IsVulnerability (Tries count) entries.now (pos n)) }
{
    let mut weights = falling(alloc, entries)?;
    weights.truncate(count as usize);
    Ok(sum(weights.as_slice()))
}

// The least sum of weight times position, over all orders of the values.
pub fn guessed(alloc: Global, entries: &[Entry]) -> Result<u128, Mem>
    requires column { IsColumn entries.now }
    requires fits { total entries.now * length entries.now < 2 ^ 128 }
    ensures { IfOk result (λ n. IsVulnerability Guessing entries.now (pos n)) }
{
    let weights = falling(alloc, entries)?;
    let mut cost = 0;
    let weights = weights.as_slice();
    for (i, weight) in weights.iter().enumerate() {
        cost += *weight * (i as u128 + 1);
    }
    Ok(cost)
}

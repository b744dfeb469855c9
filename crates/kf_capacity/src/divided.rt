//! Secrets with what divides all their weights.

ghost use Rattle.std.specs.Prelude.{◌≡◌, ◌<◌, map, IfOk};
ghost use Rattle.std.specs.List.Sorted.{IsStrictlyIncreasing};
ghost use Rattle.kf_column.specs.Columns.{IsColumn};
ghost use Rattle.kf_channel.specs.Views.{rows_of, secrets_of};
ghost use Rattle.kf_frac.specs.Divisors.{gcd_of};
ghost use Rattle.kf_capacity.specs.Divided.{divided, shared as shared_with, undivided};

use crate::weights::weight_from;
use kf_channel::Channel;
use kf_frac::gcd;
use kf_hyper::Entry;
use kf_value::Mem;
use std::alloc::Global;

/// A secret, its weight over all traces, and a number that divides this and the secret's weight in each of some traces.
#[derive(Clone, Copy)]
pub(crate) struct DividedSecret {
    pub value: u64,
    pub whole: u128,
    pub divisor: u128,
}

/// The secrets of a channel, each with the greatest number that divides its weight over all traces and in each one.
pub(crate) fn divided_secrets(alloc: Global, c: &Channel) -> Result<Vec<DividedSecret>, Mem>
    ensures { IfOk result (λ secrets. secrets.items ≡ map (divided (rows_of c.now)) (secrets_of c.now)) }
{
    let mut secrets = undivided_secrets(alloc, c)?;
    for row in c.traces() {
        secrets = shared(secrets, row.column.entries().as_slice());
    }
    Ok(secrets)
}

// The secrets of a channel, each with its weight over all traces.
fn undivided_secrets(alloc: Global, c: &Channel) -> Result<Vec<DividedSecret>, Mem>
    ensures { IfOk result (λ secrets. secrets.items ≡ map (undivided (rows_of c.now)) (secrets_of c.now)) }
{
    let entries = c.secrets();
    let mut secrets = Vec::with_capacity(alloc, entries.len())?;
    for entry in entries {
        secrets.push(DividedSecret {
            value: entry.value,
            whole: entry.weight,
            divisor: entry.weight,
        })?;
    }
    Ok(secrets)
}

// The secrets, each with what its divisor has in common with its weight in this column.
fn shared(mut secrets: Vec<DividedSecret>, entries: &[Entry]) -> Vec<DividedSecret>
    requires column { IsColumn entries.now }
    requires ascending { IsStrictlyIncreasing (map (λ s. s.value) secrets.items) }
    ensures { result.items ≡ map (shared_with entries.now) secrets.items }
{
    let mut from = 0;
    for i in 0..secrets.len() {
        let secret = &mut secrets[i];
        let (next, weight) = weight_from(entries, from, secret.value);
        secret.divisor = common(secret.divisor, weight);
        from = next;
    }
    secrets
}

// The greatest common divisor; at once where the divisor is 1 or the weight 0.
fn common(divisor: u128, weight: u128) -> u128
    ensures { result ≡ gcd_of divisor weight }
{
    if divisor == 1 || weight == 0 {
        return divisor;
    }
    // the divisor mostly divides it, which this order finds by one division
    gcd(weight, divisor)
}

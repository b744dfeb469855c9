//! What each further try gains, over all inners of a hyper.

ghost use Rattle.std.specs.Prelude.{◌≡◌, ◌+◌, ◌*◌, ◌/◌, ◌^◌, ◌<◌, ◌≤◌, ◌==◌, ℕ, if◌then◌else◌, IfOk, OnOk, length, slice_index, sum};
ghost use Rattle.kf_column.specs.Columns.{total};
ghost use Rattle.kf_hyper.specs.Views.{entry_at, inner_at, inners_of, scale_of};
ghost use Rattle.kf_attack.specs.Positions.{AreGains};

use crate::guess_order::ranked;
use kf_hyper::{Entry, Hyper};
use kf_value::Mem;
use std::alloc::Global;

/// Adds to the number at a position, which may be the first one past the end.
fn add_at(gains: &mut Vec<u128>, position: usize, gain: u128) -> Result<(), Mem>
    requires within { position ≤ length gains.old.items }
    requires fits { slice_index gains.old.items position + gain < 2 ^ 128 }
    ensures within { OnOk result (position < length gains.new.items) }
    ensures added { OnOk result ((j : ℕ) → slice_index gains.new.items j ≡ slice_index gains.old.items j + (if j == position then gain else 0)) }
{
    if position < gains.len() {
        gains[position] += gain;
    } else {
        gains.push(gain)?;
    }
    Ok(())
}

/// Adds a multiple of each entry's weight to the number at its position.
fn add(gains: &mut Vec<u128>, entries: &[Entry], multiple: u128) -> Result<(), Mem>
    requires fits { (j : ℕ) → slice_index gains.old.items j + multiple * (entry_at entries.now j).weight < 2 ^ 128 }
    ensures added { OnOk result ((j : ℕ) → slice_index gains.new.items j ≡ slice_index gains.old.items j + multiple * (entry_at entries.now j).weight) }
{
    for (position, entry) in entries.iter().enumerate() {
        add_at(gains, position, multiple * entry.weight)?;
    }
    Ok(())
}

/// How often an inner's sum goes into its total.
fn multiple(h: &Hyper, i: usize) -> u128
    requires { i < length (inners_of h.now) }
    ensures { result ≡ (inner_at h.now i).total / total (inner_at h.now i).entries }
{
    h.has_shape();
    h.total(i) / h.inner(i).total()
}

/// What each further try adds to the posterior vulnerability, over the scale, until all values are tried.
pub(crate) fn gains_of(alloc: Global, h: &Hyper) -> Result<Vec<u128>, Mem>
    ensures gains { IfOk result (λ gains. AreGains (inners_of h.now) gains.items) }
    ensures whole { IfOk result (λ gains. sum gains.items ≡ scale_of h.now) }
{
    h.has_shape();
    let mut gains = Vec::new(alloc);
    for i in 0..h.count() {
        let entries = ranked(alloc, h.inner(i).entries().as_slice())?;
        add(&mut gains, entries.as_slice(), multiple(h, i))?;
    }
    Ok(gains)
}

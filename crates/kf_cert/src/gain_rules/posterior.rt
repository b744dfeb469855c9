//! The posterior vulnerability under a gain table, along the values that its actions name.

ghost use Rattle.std.specs.Prelude.{◌≡◌, ◌≤◌, ◌<◌, ◌*◌, ℕ, ℤ, IfOk, IsErrOf, unsigned_abs};
ghost use Rattle.kf_cert.specs.NamedGains.{AreExcesses};
ghost use Rattle.kf_cert.specs.Naming.{table_width};
ghost use Rattle.kf_frac.specs.Fractions.{limit};
ghost use Rattle.kf_frac.specs.Parts.{IsFraction};
ghost use Rattle.kf_gain.specs.Gains.{Table, over_of};
ghost use Rattle.kf_gain.specs.Views.{gain_tree, table_tree};
ghost use Rattle.kf_gain.specs.Vulnerabilities.{IsPosterior, IsWidth, greatest, gains_of};
ghost use Rattle.kf_gain.specs.Worth.{IsVulnerability};
ghost use Rattle.kf_column.specs.Columns.{total as total_of};
ghost use Rattle.kf_hyper.specs.Views.{inners_of, scale_of};

use super::excess::{Excess, at_value, excesses};
use super::sums::{add_all, greatest_sum, times};
use kf_frac::{Frac, make};
use kf_gain::{Gain, GainFault, GainTable, guarded};
use kf_hyper::{Entry, Hyper};
use kf_value::Mem;
use std::alloc::Global;
use std::collections::BTreeMap;

// What the best action gains from a column: `rest` times its total, and the greatest sum of what an action gains beyond.
fn best_gain(
    alloc: Global,
    table: &GainTable,
    excesses: &[Excess],
    entries: &[Entry],
    total: u128,
) -> Result<i128, Mem>
    requires excesses { AreExcesses (table_tree table.now) excesses.now }
    requires total { total ≡ total_of entries.now }
    requires narrow { total ≤ limit }
    requires fits { total * (2 * greatest (gains_of (table_tree table.now))) ≤ limit }
    ensures { IfOk result (λ z. IsVulnerability (Table (table_tree table.now)) entries.now z) }
{
    let mut sums = BTreeMap::new(alloc);
    for entry in entries {
        let named = at_value(excesses, entry.value);
        add_all(&mut sums, named, entry.weight)?;
    }
    let greatest = greatest_sum(sums, table.actions.as_slice().len());
    Ok(times(total, table.rest) + greatest)
}

// The sum of what the best actions gain from the columns of the inners.
fn seen(alloc: Global, h: &Hyper, table: &GainTable) -> Result<i128, Mem>
    requires { scale_of h.now * table_width (table_tree table.now) ≤ limit }
    ensures { IfOk result (λ z. IsPosterior (Table (table_tree table.now)) (inners_of h.now) z) }
{
    h.has_shape();
    let excesses = excesses(alloc, table)?;
    let mut sum = 0;
    for i in 0..h.count() {
        let inner = h.inner(i);
        let total = inner.total();
        let entries = inner.entries().as_slice();
        let best = best_gain(alloc, table, excesses.as_slice(), entries, total)?;
        sum += times(h.total(i) / total, best);
    }
    Ok(sum)
}

// `n / (scale * over)` in lowest terms.
fn fraction(n: i128, scale: u128, over: u128) -> Frac
    requires num { unsigned_abs n ≤ limit }
    requires some { 0 < scale * over }
    requires den { scale * over ≤ limit }
    ensures { IsFraction result n (scale * over) }
{
    make(n, scale * over).unwrap()
}

/// The vulnerability of a hyper's values once a trace is seen, over the scale. Under a table it goes along the values that the actions name,
/// and not through all actions for each inner, as `kf_gain` does.
///
/// `Wide` exactly where the scale times the gain's width passes 2^127 - 1.
pub(super) fn posterior(alloc: Global, h: &Hyper, g: &Gain) -> Result<Frac, GainFault>
    ensures is { IfOk result (λ f. (z : ℤ) × IsPosterior (gain_tree g.now) (inners_of h.now) z × IsFraction f z (scale_of h.now * over_of (gain_tree g.now))) }
    ensures narrow { IfOk result (λ f. (m : ℕ) × IsWidth (gain_tree g.now) (inners_of h.now) m × (scale_of h.now * m ≤ limit)) }
    ensures wide { IsErrOf result GainFault.Wide → (m : ℕ) × IsWidth (gain_tree g.now) (inners_of h.now) m × (limit < scale_of h.now * m) }
{
    let Gain::Table(table) = g else {
        return kf_gain::posterior(alloc, h, g);
    };
    guarded(alloc, h, g)?;
    let n = seen(alloc, h, table)?;
    Ok(fraction(n, h.scale(), table.over))
}

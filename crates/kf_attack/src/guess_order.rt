//! The order in which values are guessed.

ghost use Rattle.std.specs.Prelude.{IfOk};
ghost use Rattle.kf_column.specs.Columns.{IsColumn};
ghost use Rattle.kf_attack.specs.Attacks.{AreRanked};

use kf_hyper::Entry;
use kf_value::Mem;
use std::alloc::Global;

/// A column's entries, the greatest weight first; equal weights by ascending values.
pub(crate) fn ranked(alloc: Global, entries: &[Entry]) -> Result<Vec<Entry>, Mem>
    requires { IsColumn entries.now }
    ensures { IfOk result (λ es. AreRanked entries.now es.items) }
{
    let mut ranked = entries.to_vec(alloc)?;
    ranked.sort_by(|a, b| b.weight.cmp(&a.weight).then(a.value.cmp(&b.value)))?;
    Ok(ranked)
}

ghost use Rattle.std.specs.Prelude.{◌≡◌, ◌↔◌, IfOk, Err, false};
ghost use Rattle.std.specs.List.{list_all};
ghost use Rattle.kf_value.specs.Views.{items_of};
ghost use Rattle.kf_hyper.specs.Views.{rows_of as table_rows};
ghost use Rattle.kf_channel.specs.Channels.{AreSecrets, all_initial};
ghost use Rattle.kf_channel.specs.Views.{target_of, secrets_of, rows_of};

use super::Channel;
use crate::ChannelError;
use kf_hyper::TraceTable;
use kf_value::TargetItem;
use std::alloc::Global;

/// Whether each variable is read before the statements, so that there is a channel from their values.
pub fn is_initial(items: &[TargetItem]) -> bool
    ensures { result ≡ list_all (λ i. i.initial) items.now }
{
    items.iter().all(|item| item.initial)
}

/// The channel matrix of a trace table whose target is read before the statements.
///
/// A cell is the weight of the trace and the secret, divided by the weight of the secret over all traces.
#[tactic(auto, using(crate::proofs::Secrets::initial_items))]
pub fn channel_of(alloc: Global, t: &TraceTable) -> Result<Channel, ChannelError>
    ensures refused { (result ≡ Err ChannelError.NotInitial) ↔ (all_initial (items_of t.now.target) ≡ false) }
    ensures target { IfOk result (λ c. target_of c ≡ items_of t.now.target) }
    ensures secrets { IfOk result (λ c. AreSecrets (table_rows t.now) (secrets_of c)) }
    ensures rows { IfOk result (λ c. rows_of c ≡ table_rows t.now) }
{
    if !is_initial(t.target.items.as_slice()) {
        return Err(ChannelError::NotInitial);
    }
    Ok(Channel {
        target: t.target.copy(alloc)?,
        secrets: t.average(alloc)?,
        rows: t.rows.copy(alloc)?,
    })
}

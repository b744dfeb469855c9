ghost use Rattle.std.specs.Prelude.{map};
ghost use Rattle.std.proofs.Props.{props};
ghost use Rattle.kf_value.specs.Numbers.{target_size};
ghost use Rattle.kf_value.specs.TypeViews.{item_of};
ghost use Rattle.kf_hyper.specs.Tables.{table_row};
ghost use Rattle.kf_channel.specs.Shapes.{IsChannel};

use kf_hyper::{Column, TraceRowList};
use kf_value::Target;

/// A channel matrix: with which probability each secret shows each trace (Alvim et al. 2020).
///
/// Its rows are the secrets, the target's values that some run begins with, ascending. Its columns are the traces,
/// ascending by their first difference.
#[derive(Drop)]
pub struct Channel {
    target: Target,
    // each secret with its weight over all traces
    secrets: Column,
    // each trace with the weights of the secrets that show it
    rows: TraceRowList,
    pub ghost channel: { IsChannel (target_size (map item_of target.items)) (map table_row rows) secrets } by { Prim.hlevel props },
}

mod of_table;
mod readers;

pub use of_table::{channel_of, is_initial};

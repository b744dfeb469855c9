ghost use Rattle.std.specs.Prelude.{map};
ghost use Rattle.std.proofs.Props.{props};
ghost use Rattle.kf_value.specs.Numbers.{target_size};
ghost use Rattle.kf_value.specs.TypeViews.{item_of};
ghost use Rattle.kf_hyper.specs.Tables.{IsTable, table_row};

use crate::Column;
use crate::unsorted::{gathered, push_times};
use kf_value::{Mem, Target, ValueList};
use std::alloc::Global;
use std::marker::Model;

/// What an observer sees of a run, and how much each value weighs among the runs that show it.
#[derive(Drop)]
pub struct TraceRow {
    /// What the run shows, in its order.
    pub trace: ValueList,
    /// The weights of the target's values, over the scale of the table.
    pub column: Column,
}

/// The rows of a table in their order.
#[derive(Drop)]
pub struct TraceRowList {
    items: Vec<TraceRow>,
}

impl Model for TraceRowList {
    ghost use Rattle.std.specs.Prelude.{List};
    ghost use Rattle.std.specs.Coded.{codes};
    ghost use Rattle.kf_value.specs.contracts.value.Value as value;
    ghost use Rattle.kf_hyper.specs.declared.traces.TraceRow.{TraceRow};

    ghost Value = { List TraceRow };

    ghost coded = { Prim.hlevel (codes, value.the_row.coded) };

    ghost view = { λ l. l.items.items };
}

/// The joint matrix of a program with each column under its trace.
///
/// The traces are strictly ascending, by the first difference, a proper prefix before the longer trace.
#[derive(Drop)]
pub struct TraceTable {
    pub target: Target,
    /// What every weight is divided by to give a probability: 1 to 2^127 - 1, and the sum of all weights.
    pub scale: u128,
    pub rows: TraceRowList,
    pub ghost table: { IsTable (target_size (map item_of target.items)) scale (map table_row rows) } by { Prim.hlevel props },
}

impl TraceRow {
    ghost use Rattle.std.specs.Prelude.{◌≡◌, IfOk};
    ghost use Rattle.kf_hyper.specs.Tables.{table_row};

    /// An equal row.
    pub fn copy(&self, alloc: Global) -> Result<TraceRow, Mem>
        ensures { IfOk result (λ copied. table_row copied ≡ table_row self.now) }
    {
        Ok(TraceRow {
            trace: self.trace.copy(alloc)?,
            column: self.column.copy(alloc)?,
        })
    }
}

impl TraceRowList {
    ghost use Rattle.std.specs.Prelude.{◌≡◌, IfOk, map};

    pub fn new(items: Vec<TraceRow>) -> Self
        ensures { result ≡ items.items }
    {
        TraceRowList { items }
    }

    pub fn as_slice(&self) -> &[TraceRow]
        ensures { result.now ≡ self.now }
    {
        self.items.as_slice()
    }

    /// An equal list.
    pub fn copy(&self, alloc: Global) -> Result<TraceRowList, Mem>
        ensures { IfOk result (λ copied. map table_row copied ≡ map table_row self.now) }
    {
        let mut items = Vec::new(alloc);
        for row in &self.items {
            items.push(row.copy(alloc)?)?;
        }
        Ok(TraceRowList { items })
    }
}

impl TraceTable {
    ghost use Rattle.std.specs.Prelude.{◌≡◌, ℕ, IfOk};
    ghost use Rattle.kf_column.specs.Columns.{weight_at, total};
    ghost use Rattle.kf_value.specs.Views.{items_of};
    ghost use Rattle.kf_column.specs.Shapes.{IsBelow};
    ghost use Rattle.kf_column.specs.Traces.{value_weight};
    ghost use Rattle.kf_hyper.specs.Views.{rows_of};

    /// The sum of all columns: the weights that the values have before anything is shown, over the scale.
    pub fn average(&self, alloc: Global) -> Result<Column, Mem>
        ensures weights { IfOk result (λ column. (x : ℕ) → weight_at column x ≡ value_weight (rows_of self.now) x) }
        ensures total { IfOk result (λ column. total column ≡ self.now.scale) }
        ensures below { IfOk result (IsBelow (target_size (items_of self.now.target))) }
    {
        let mut entries = Vec::new(alloc);
        for row in self.rows.as_slice() {
            push_times(&mut entries, row.column.entries().as_slice(), 1)?;
        }
        Ok(gathered(entries))
    }
}

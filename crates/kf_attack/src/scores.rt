//! What the actions of a table gain.

ghost use Rattle.std.specs.Prelude.{◌≡◌, ◌≤◌, ◌*◌, IfOk, length};
ghost use Rattle.kf_frac.specs.Fractions.{limit};
ghost use Rattle.kf_column.specs.Columns.{IsColumn, total};
ghost use Rattle.kf_gain.specs.Gains.{Table};
ghost use Rattle.kf_gain.specs.Views.{table_tree};
ghost use Rattle.kf_gain.specs.Vulnerabilities.{width};
ghost use Rattle.kf_attack.specs.Inners.{IsShownBest};

use crate::fractions::fraction;
use crate::guesses::sum;
use crate::{Attack, Best, Score, ScoreList};
use kf_gain::{GainTable, action_gain};
use kf_hyper::Entry;
use kf_value::Mem;
use std::alloc::Global;

// What a table's numbers at an inner are divided by.
fn whole_of(entries: &[Entry], table: &GainTable) -> u128
    requires narrow { total entries.now ≤ limit }
    requires fits { total entries.now * table.now.over ≤ limit }
    ensures { result ≡ total entries.now * table.now.over }
{
    sum(entries) * table.over
}

// Each action with what it is expected to gain, and the best of them.
pub(crate) fn scored(alloc: Global, entries: &[Entry], table: &GainTable) -> Result<Attack, Mem>
    requires column { IsColumn entries.now }
    requires fits { total entries.now * width (Table (table_tree table.now)) (length entries.now) ≤ limit }
    ensures { IfOk result (IsShownBest (Table (table_tree table.now)) entries.now) }
{
    let whole = whole_of(entries, table);
    let mut scores = Vec::new(alloc);
    let mut best = action_gain(table, 0, entries);
    for action in 0..table.actions.as_slice().len() {
        let gain = action_gain(table, action, entries);
        let score = fraction(gain, whole);
        scores.push(Score { action, score })?;
        best = best.max(gain);
    }
    Ok(Attack {
        worth: fraction(best, whole),
        best: Best::Scores(ScoreList::new(scores)),
    })
}

ghost use Rattle.std.specs.Prelude.{◌≡◌, ◌<◌, ◌≤◌, ℕ, ℤ, ◌≤ℤ◌, length, map, pos, slice_index};
ghost use Rattle.std.specs.List.Sorted.{IsStrictlyIncreasing};
ghost use Rattle.kf_frac.specs.Fractions.{limit, reduced_num, reduced_den};
ghost use Rattle.kf_frac.specs.Views.{num_of, den_of};
ghost use Rattle.kf_value.specs.Numbers.{target_size};
ghost use Rattle.kf_value.specs.Views.{items_of, value_trees};
ghost use Rattle.kf_column.specs.Columns.{IsColumn, total, values, weight_at};
ghost use Rattle.kf_column.specs.Traces.{value_weight};
ghost use Rattle.kf_hyper.specs.Tables.{table_row};
ghost use Rattle.kf_channel.specs.Views.{target_of, secrets_of, rows_of, row_at, cell_at};

use super::Channel;
use kf_frac::{Frac, share};
use kf_hyper::{Entry, TraceRow};
use kf_value::{Target, ValueList};

impl Channel {
    /// How many secrets there are.
    pub fn rows(&self) -> usize
        ensures count { result ≡ length (secrets_of self.now) }
        ensures ascending { IsStrictlyIncreasing (secrets_of self.now) }
    {
        self.secrets.entries().as_slice().len()
    }

    /// How many traces there are.
    pub fn columns(&self) -> usize
        ensures { result ≡ length (rows_of self.now) }
    {
        self.rows.as_slice().len()
    }

    /// The number of the secret `i`, from 0, among the target's values.
    pub fn secret(&self, i: usize) -> u64
        requires { i < length (secrets_of self.now) }
        ensures kept { result ≡ slice_index (secrets_of self.now) i }
        ensures within { result < target_size (target_of self.now) }
    {
        self.secrets.entries().as_slice()[i].value
    }

    /// The secrets, each with its weight over all traces, by which its weight in a trace is divided to give the cell.
    pub fn secrets(&self) -> &[Entry]
        ensures listed { values result.now ≡ secrets_of self.now }
        ensures column { IsColumn result.now }
        ensures whole { (x : ℕ) → value_weight (rows_of self.now) x ≡ weight_at result.now x }
        ensures narrow { total result.now ≤ limit }
    {
        self.secrets.entries().as_slice()
    }

    /// The traces, each with the weights of the secrets that show it.
    pub fn traces(&self) -> &[TraceRow]
        ensures { map table_row result.now ≡ rows_of self.now }
    {
        self.rows.as_slice()
    }

    /// What is seen in the column `j`, from 0.
    pub fn trace(&self, j: usize) -> &ValueList
        requires { j < length (rows_of self.now) }
        ensures { value_trees result.now ≡ (row_at self.now j).trace }
    {
        &self.rows.as_slice()[j].trace
    }

    /// The probability that the secret `i` shows the trace `j`.
    pub fn cell(&self, i: usize, j: usize) -> Frac
        requires secret { i < length (secrets_of self.now) }
        requires trace { j < length (rows_of self.now) }
        ensures num { num_of result ≡ reduced_num (pos (cell_at self.now i j).part) (cell_at self.now i j).whole }
        ensures den { den_of result ≡ reduced_den (pos (cell_at self.now i j).part) (cell_at self.now i j).whole }
        ensures from_zero { pos 0 ≤ℤ num_of result }
    {
        let secret = &self.secrets.entries().as_slice()[i];
        let weight = self.rows.as_slice()[j].column.weight(secret.value);
        share(weight, secret.weight)
    }

    /// What the secrets are values of.
    pub fn target(&self) -> &Target
        ensures { items_of result.now ≡ target_of self.now }
    {
        &self.target
    }
}

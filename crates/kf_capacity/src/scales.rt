//! Weights in whole numbers over one denominator.

ghost use Rattle.std.specs.Prelude.{◌≡◌, ◌*◌, ◌/◌, ◌<◌, ◌≤◌, All, map, IfOk};
ghost use Rattle.std.specs.List.Sorted.{IsStrictlyIncreasing};
ghost use Rattle.kf_frac.specs.Fractions.{limit};
ghost use Rattle.kf_column.specs.Columns.{IsColumn};
ghost use Rattle.kf_hyper.specs.Tables.{table_row};
ghost use Rattle.kf_capacity.specs.Divided.{den_of, number_in, scale_of};

use crate::column::{GridColumn, GridColumnList};
use crate::divided::DividedSecret;
use crate::weights::weight_from;
use kf_frac::quotient;
use kf_hyper::{Entry, TraceRow};
use kf_value::Mem;
use std::alloc::Global;

/// How the weights of a secret become whole numbers over the grid's denominator: each is divided, and then multiplied.
#[derive(Clone, Copy)]
pub(crate) struct SecretScale {
    pub value: u64,
    pub divisor: u128,
    pub factor: u128,
}

/// The scales of some secrets, over one denominator.
pub(crate) fn scales(
    alloc: Global,
    secrets: &[DividedSecret],
    over: u128,
) -> Result<Vec<SecretScale>, Mem>
    requires { All (λ s. (0 < s.divisor) × (0 < den_of s)) secrets.now }
    ensures { IfOk result (λ list. list.items ≡ map (scale_of over) secrets.now) }
{
    let mut list = Vec::with_capacity(alloc, secrets.len())?;
    for secret in secrets {
        list.push(SecretScale {
            value: secret.value,
            divisor: secret.divisor,
            factor: quotient(over, quotient(secret.whole, secret.divisor)),
        })?;
    }
    Ok(list)
}

/// The columns of some traces, in whole numbers.
pub(crate) fn scaled_columns(
    alloc: Global,
    scales: &[SecretScale],
    traces: &[TraceRow],
) -> Result<GridColumnList, Mem>
    requires ascending { IsStrictlyIncreasing (map (λ s. s.value) scales.now) }
    requires some { All (λ s. 0 < s.divisor) scales.now }
    requires fits { All (λ row. All (λ s. number_in row.column s ≤ limit) scales.now) traces.now }
    ensures { IfOk result (λ columns. columns ≡ map (λ row. map (number_in row.column) scales.now) traces.now) }
{
    let mut columns = Vec::with_capacity(alloc, traces.len())?;
    for row in traces {
        columns.push(scaled_column(alloc, scales, row.column.entries().as_slice())?)?;
    }
    Ok(GridColumnList::new(columns))
}

// A column in whole numbers.
fn scaled_column(
    alloc: Global,
    scales: &[SecretScale],
    entries: &[Entry],
) -> Result<GridColumn, Mem>
    requires column { IsColumn entries.now }
    requires ascending { IsStrictlyIncreasing (map (λ s. s.value) scales.now) }
    requires some { All (λ s. 0 < s.divisor) scales.now }
    requires fits { All (λ s. number_in entries.now s ≤ limit) scales.now }
    ensures { IfOk result (λ column. column ≡ map (number_in entries.now) scales.now) }
{
    let mut numbers = Vec::with_capacity(alloc, scales.len())?;
    let mut from = 0;
    for scale in scales {
        let (next, weight) = weight_from(entries, from, scale.value);
        numbers.push(scaled_weight(*scale, weight))?;
        from = next;
    }
    Ok(GridColumn::new(numbers))
}

// A weight in whole numbers.
fn scaled_weight(scale: SecretScale, weight: u128) -> u128
    requires some { 0 < scale.divisor }
    requires fits { weight / scale.divisor * scale.factor ≤ limit }
    ensures { result ≡ weight / scale.divisor * scale.factor }
{
    if weight == 0 {
        return 0;
    }
    quotient(weight, scale.divisor) * scale.factor
}

//! The gain table of multipliers.

ghost use Rattle.std.specs.Prelude.{◌≡◌, ◌≢◌, ◌≤◌, ◌<◌, ◌*◌, ◌+◌, ◌^◌, ◌+ℤ◌, ◌*ℤ◌, ◌≤ℤ◌, ℕ, pos, unsigned_abs, length, All, IfOk};
ghost use Rattle.std.specs.Int.{◌∣◌};
ghost use Rattle.std.specs.List.Sorted.{IsStrictlyIncreasing};
ghost use Rattle.kf_gain.specs.Views.{table_tree};
ghost use Rattle.kf_simplex.specs.Base.{at};
ghost use Rattle.kf_refine.specs.Verdicts.{IsActionOf, IsTableOf};
ghost use Rattle.kf_refine.specs.Built.{multiplier};

use kf_frac::gcd;
use kf_gain::{Action, ActionList, GainEntry, GainEntryList, GainTable};
use kf_simplex::NumberList;
use kf_value::{Mem, Name};
use std::alloc::Global;

/// The gain table of the multipliers of a system without solution: one action for each of the second hyper's `inners`, with a gain for
/// each kept value.
pub(crate) fn table(
    alloc: Global,
    kept: &[u64],
    inners: usize,
    multipliers: &NumberList,
) -> Result<GainTable, Mem>
    requires ascending { IsStrictlyIncreasing kept.now }
    requires enough { length kept.now * inners ≤ length multipliers.now }
    requires some { (q : ℕ) × (j : ℕ) × (q < length kept.now) × (j < inners) × (multiplier inners multipliers.now q j ≢ pos 0) }
    ensures { IfOk result (λ t. IsTableOf kept.now inners multipliers.now (table_tree t)) }
{
    let multipliers = multipliers.as_slice();
    let of_values = &multipliers[..kept.len() * inners];
    let shift = least_shift(of_values);
    let factor = common_factor(of_values, shift);
    let mut actions = Vec::with_capacity(alloc, inners)?;
    for j in 0..inners {
        actions.push(action(alloc, kept, inners, of_values, shift, factor, j)?)?;
    }
    Ok(GainTable {
        over: 1,
        rest: share(shift as u128, factor),
        actions: ActionList::new(actions),
    })
}

// The least number, from 0 on, that makes none of the numbers negative once it is added.
fn least_shift(numbers: &[i64]) -> u64
    ensures enough { (k : ℕ) → k < length numbers.now → pos 0 ≤ℤ (at numbers.now k +ℤ pos result) }
    ensures least { (n : ℕ) → ((k : ℕ) → k < length numbers.now → pos 0 ≤ℤ (at numbers.now k +ℤ pos n)) → result ≤ n }
{
    let mut shift = 0;
    for number in numbers {
        if *number < 0 {
            shift = number.unsigned_abs().max(shift);
        }
    }
    shift
}

// A number and the shift.
fn shifted(number: i64, shift: u64) -> u128
    requires { pos 0 ≤ℤ (number +ℤ pos shift) }
    ensures { pos result ≡ number +ℤ pos shift }
{
    (number as i128 + shift as i128) as u128
}

// The greatest common divisor of the shift and of all numbers with the shift.
fn common_factor(numbers: &[i64], shift: u64) -> u128
    requires { (k : ℕ) → k < length numbers.now → pos 0 ≤ℤ (at numbers.now k +ℤ pos shift) }
    ensures shift { result ∣ shift }
    ensures numbers { (k : ℕ) → k < length numbers.now → result ∣ unsigned_abs (at numbers.now k +ℤ pos shift) }
    ensures greatest { (d : ℕ) → d ∣ shift → ((k : ℕ) → k < length numbers.now → d ∣ unsigned_abs (at numbers.now k +ℤ pos shift)) → d ∣ result }
{
    let mut factor = shift as u128;
    for number in numbers {
        factor = gcd(factor, shifted(*number, shift));
    }
    factor
}

// A number over a divisor of it.
fn share(number: u128, divisor: u128) -> i128
    requires some { 0 < divisor }
    requires divides { divisor ∣ number }
    requires narrow { number ≤ 2 ^ 65 }
    ensures value { pos divisor *ℤ result ≡ pos number }
    ensures narrow { unsigned_abs result ≤ 2 ^ 65 }
{
    (number / divisor) as i128
}

// The action of the inner with the number `j`.
fn action(
    alloc: Global,
    kept: &[u64],
    inners: usize,
    multipliers: &[i64],
    shift: u64,
    factor: u128,
    j: usize,
) -> Result<Action, Mem>
    requires len { length multipliers.now ≡ length kept.now * inners }
    requires inner { j < inners }
    requires enough { (k : ℕ) → k < length multipliers.now → pos 0 ≤ℤ (at multipliers.now k +ℤ pos shift) }
    requires some { 0 < factor }
    requires divides { (k : ℕ) → k < length multipliers.now → factor ∣ unsigned_abs (at multipliers.now k +ℤ pos shift) }
    ensures is { IfOk result (λ a. IsActionOf kept.now inners multipliers.now shift factor j a) }
    ensures narrow { IfOk result (λ a. All (λ e. unsigned_abs e.gain ≤ 2 ^ 65) a.gains) }
{
    let mut gains = Vec::with_capacity(alloc, kept.len())?;
    for q in 0..kept.len() {
        let gain = share(shifted(multipliers[q * inners + j], shift), factor);
        gains.push(GainEntry {
            value: kept[q],
            gain,
        })?;
    }
    Ok(Action {
        name: Name::new(format!(in alloc; "b{j}")?),
        gains: GainEntryList::new(gains),
    })
}

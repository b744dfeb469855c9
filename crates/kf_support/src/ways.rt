//! Stores that are reached, each with the scale of the ways to it.

ghost use Rattle.std.specs.Prelude.{◌≡◌, ◌*◌, ◌≤◌, ◌++◌, ℕ, [], true, IfOk, OnOk};
ghost use Rattle.std.specs.List.{AllByRecursion as Each};
ghost use Rattle.std.specs.List.Sorted.{IsNonDecreasingBy};
ghost use Rattle.kf_frac.specs.Divisors.{lcm_of};
ghost use Rattle.kf_support.specs.Answers.{AreWays, AreReached, Ascend};
ghost use Rattle.kf_support.specs.Carried.{capped, with_way, with_all, scale_in as scale_of_all};

use kf_frac::lcm;
use kf_value::Mem;
use std::alloc::Global;

/// What stands for each scale that passes 2^127 - 1.
pub const PASSED: u128 = 1 << 127;

/// So many ways are kept before they are settled.
pub const FEW: usize = 1 << 16;

/// The product of two scales.
pub fn scaled(scale: u128, total: u128) -> u128
    ensures { result ≡ capped (scale * total) }
{
    if total == 1 {
        return scale.min(PASSED);
    }
    match scale.checked_mul(total) {
        Some(product) if product < PASSED => product,
        _ => PASSED,
    }
}

/// The least common multiple of two scales.
fn common(one: u128, other: u128) -> u128
    requires one { 1 ≤ one }
    requires other { 1 ≤ other }
    ensures { result ≡ capped (lcm_of one other) }
{
    if one == other {
        return one.min(PASSED);
    }
    lcm(one, other).unwrap_or(PASSED)
}

/// Adds a way to a store that doesn't come before those that are reached.
fn add_last(reached: &mut Vec<(u64, u128)>, store: u64, scale: u128) -> Result<(), Mem>
    requires reached { (size : ℕ) × AreReached size reached.old.items }
    requires last { Each (λ e. e.0 ≤ store) reached.old.items }
    requires some { 1 ≤ scale }
    ensures way { OnOk result (reached.new.items ≡ with_way reached.old.items store scale) }
{
    match reached.pop() {
        Some((last, old)) => {
            if last == store {
                reached.push((store, common(old, scale)))?;
            } else {
                reached.push((last, old))?;
                reached.push((store, scale))?;
            }
        }
        None => reached.push((store, scale))?,
    }
    Ok(())
}

/// Joins the ways to the same store, which stand side by side.
fn joined(alloc: Global, ways: &[(u64, u128)]) -> Result<Vec<(u64, u128)>, Mem>
    requires ways { (size : ℕ) × AreWays size ways.now }
    requires order { IsNonDecreasingBy (λ e. e.0) ways.now }
    ensures { IfOk result (λ m. m.items ≡ with_all [] ways.now) }
{
    let mut reached = Vec::new(alloc);
    for way in ways {
        add_last(&mut reached, way.0, way.1)?;
    }
    Ok(reached)
}

/// Whether each store comes before the next.
fn ascends(ways: &[(u64, u128)]) -> bool
    ensures { result ≡ true → Ascend ways.now }
{
    ways.is_sorted_by(|one, other| one.0 < other.0)
}

/// The stores to which these ways lead, in ascending order. Ways are mostly a few ascending runs, one behind the other, which
/// a stable sort merges.
pub fn settled(alloc: Global, ways: Vec<(u64, u128)>) -> Result<Vec<(u64, u128)>, Mem>
    requires ways { (size : ℕ) × AreWays size ways.items }
    ensures settled { IfOk result (λ m. m.items ≡ with_all [] ways.items) }
{
    if ascends(ways.as_slice()) {
        return Ok(ways);
    }
    let mut ways = ways;
    ways.sort_by_key(|way| way.0)?;
    if ascends(ways.as_slice()) {
        return Ok(ways);
    }
    let reached = joined(alloc, ways.as_slice())?;
    Ok(reached)
}

/// The ways, settled where they are `room` or more, which then grows with what is left.
pub fn shortened(
    alloc: Global,
    ways: Vec<(u64, u128)>,
    room: &mut usize,
) -> Result<Vec<(u64, u128)>, Mem>
    requires ways { (size : ℕ) × AreWays size ways.items }
    ensures same { IfOk result (λ m. with_all [] m.items ≡ with_all [] ways.items) }
    ensures ways { IfOk result (λ m. (size : ℕ) → AreWays size ways.items → AreWays size m.items) }
{
    if ways.len() < *room {
        return Ok(ways);
    }
    let reached = settled(alloc, ways)?;
    *room = reached.len().saturating_mul(2).max(FEW);
    Ok(reached)
}

/// The stores to which the ways of both lead.
pub fn add_all(
    alloc: Global,
    one: Vec<(u64, u128)>,
    other: Vec<(u64, u128)>,
) -> Result<Vec<(u64, u128)>, Mem>
    requires one { (size : ℕ) × AreReached size one.items }
    requires other { (size : ℕ) × AreReached size other.items }
    ensures all { IfOk result (λ m. m.items ≡ with_all one.items other.items) }
{
    let mut ways = one;
    let mut others = other;
    ways.append(&mut others)?;
    let reached = settled(alloc, ways)?;
    Ok(reached)
}

/// The scale of all ways.
pub fn scale_in(reached: &[(u64, u128)]) -> u128
    requires { (size : ℕ) × AreWays size reached.now }
    ensures { result ≡ scale_of_all reached.now }
{
    let mut scale = 1;
    for i in 0..reached.len() {
        scale = common(reached[reached.len() - 1 - i].1, scale);
    }
    scale
}

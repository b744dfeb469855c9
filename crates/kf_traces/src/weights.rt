//! Weights that are put on stores in any order.

ghost use Rattle.std.specs.Prelude.{◌≡◌, ◌+◌, ◌^◌, ◌<◌, [], true, OnOk};
ghost use Rattle.std.specs.List.Sorted.{IsNonDecreasingBy};
ghost use Rattle.kf_support.specs.Answers.{Ascend};
ghost use Rattle.kf_traces.specs.Folded.{folded};
ghost use Rattle.kf_traces.specs.Laws.{sum_of};
ghost use Rattle.kf_traces.specs.Traced.{with_weight};

use kf_value::Mem;
use std::alloc::Global;
use std::marker::Model;

/// So many weights are kept before those on the same store are added up.
const FEW: usize = 1 << 12;

/// How much weight lies on each store, below 2^127 on all. Weights are put on stores in any order.
#[derive(Drop)]
pub struct Weights {
    ways: Vec<(u64, u128)>,
    room: usize,
}

impl Model for Weights {
    ghost use Rattle.std.specs.Prelude.{List, ℕ, ◌^◌, ◌<◌, []};
    ghost use Rattle.kf_traces.specs.Folded.{folded};
    ghost use Rattle.kf_traces.specs.Laws.{sum_of};

    ghost Value = { List (ℕ × ℕ) };

    ghost view = { λ w. folded [] w.ways.items };

    ghost invariant = { λ w. sum_of w.ways.items < 2 ^ 127 };
}

impl Weights {
    /// No weight on any store.
    pub fn new(alloc: Global) -> Self
        ensures { result ≡ [] }
    {
        Weights {
            ways: Vec::new(alloc),
            room: FEW,
        }
    }

    /// Adds weight on a store.
    ///
    /// What is kept is twice the stores at most, or a few.
    pub fn add_weight(&mut self, store: u64, weight: u128) -> Result<(), Mem>
        requires within { sum_of self.old + weight < 2 ^ 127 }
        ensures { OnOk result (self.new ≡ with_weight self.old store weight) }
    {
        if self.ways.len() >= self.room {
            settle(&mut self.ways);
            self.room = self.ways.len().saturating_mul(2).max(FEW);
        }
        self.ways.push((store, weight))?;
        Ok(())
    }

    /// The stores in ascending number, each with its weight.
    pub fn settled(self) -> Vec<(u64, u128)>
        ensures { result.items ≡ self }
    {
        let mut ways = self.ways;
        let before = ways.len();
        settle(&mut ways);
        if ways.len() < before {
            ways.shrink_to_fit();
        }
        ways
    }
}

/// Whether each store comes before the next.
fn ascends(ways: &[(u64, u128)]) -> bool
    ensures { result ≡ true → Ascend ways.now }
{
    ways.is_sorted_by(|one, other| one.0 < other.0)
}

/// Adds up the weights on the same store, where the stores never fall.
fn add_up(ways: &mut Vec<(u64, u128)>)
    requires fits { sum_of ways.old.items < 2 ^ 127 }
    requires order { IsNonDecreasingBy (λ e. e.0) ways.old.items }
    ensures { ways.new.items ≡ folded [] ways.old.items }
{
    let mut last = 0;
    for i in 1..ways.len() {
        let way = ways[i];
        if way.0 == ways[last].0 {
            ways[last].1 += way.1;
        } else {
            last += 1;
            ways[last] = way;
        }
    }
    ways.truncate(last + 1);
}

/// Puts the stores in ascending number, each with all its weight. Mostly they ascend already.
fn settle(ways: &mut Vec<(u64, u128)>)
    requires { sum_of ways.old.items < 2 ^ 127 }
    ensures { ways.new.items ≡ folded [] ways.old.items }
{
    if ascends(ways.as_slice()) {
        return;
    }
    ways.sort_unstable_by_key(|way| way.0);
    add_up(ways);
}

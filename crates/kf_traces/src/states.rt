//! States: what is leaked so far, and how much weight lies on each store behind it.

ghost use Rattle.std.specs.Prelude.{◌≡◌, map, IfOk};
ghost use Rattle.kf_value.specs.Views.{value_tree};
ghost use Rattle.kf_traces.specs.Traced.{behind as behind_of};
ghost use Rattle.kf_traces.specs.Views.{part_of, traced_of};
ghost use Rattle.kf_traces.specs.Visits.{last_true};

use crate::parts::Part;
use kf_value::{Mem, Value, is_true};
use std::alloc::Global;

/// The values leaked, in order, and the stores behind them in ascending number, each with its weight.
#[derive(Drop)]
pub struct State {
    pub trace: Vec<Value>,
    pub stores: Vec<(u64, u128)>,
}

/// The stores of a part, with its value behind the trace.
pub fn behind(alloc: Global, trace: &[Value], part: Part) -> Result<State, Mem>
    ensures { IfOk result (λ s. traced_of s ≡ behind_of (map value_tree trace.now) (part_of part)) }
{
    let mut longer = Vec::new(alloc);
    for value in trace {
        longer.push(value.copy(alloc)?)?;
    }
    moved_behind(longer, part)
}

/// The stores of each part, with its value behind the trace.
///
/// The last part takes the trace itself, so that a trace is copied only where it goes on in several ways.
pub fn all_behind(alloc: Global, trace: Vec<Value>, mut parts: Vec<Part>) -> Result<Vec<State>, Mem>
    ensures { IfOk result (λ ss. map traced_of ss.items ≡ map (behind_of (map value_tree trace.items)) (map part_of parts.items)) }
{
    let Some(last) = parts.pop() else {
        return Ok(Vec::new(alloc));
    };
    let mut states = Vec::new(alloc);
    for part in parts {
        states.push(behind(alloc, trace.as_slice(), part)?)?;
    }
    states.push(moved_behind(trace, last)?)?;
    Ok(states)
}

/// The stores of a part, with its value behind the trace, which is taken.
fn moved_behind(mut trace: Vec<Value>, part: Part) -> Result<State, Mem>
    ensures { IfOk result (λ s. traced_of s ≡ behind_of (map value_tree trace.items) (part_of part)) }
{
    trace.push(part.value)?;
    Ok(State {
        trace,
        stores: part.stores.settled(),
    })
}

/// Whether the last value leaked is `true`.
pub fn ends_true(state: &State) -> bool
    ensures { result ≡ last_true (map value_tree state.now.trace.items) }
{
    match state.trace.last() {
        Some(value) => is_true(value),
        None => false,
    }
}

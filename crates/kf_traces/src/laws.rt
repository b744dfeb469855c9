ghost use Rattle.kf_traces.specs.Laws.{TracesJoin, TracesTell};

use kf_core::{choice_laws, run_laws};

/// What holds of the definitions alone: the traced states of a program that meets no fault tell the weights of its runs, in
/// strictly ascending traces, and the joint weights of traces and target values. It does nothing when it runs.
pub fn traced_laws()
    ensures tell { TracesTell }
    ensures joint { TracesJoin }
{
    choice_laws();
    run_laws();
}

ghost use Rattle.kf_report.specs.Laws.{SomeLeakage, OneLeakage};

use kf_gain::gain_laws;

/// Laws of the definitions: inners over a scale have exactly one report under a gain.
pub fn report_laws()
    ensures some { SomeLeakage }
    ensures one { OneLeakage }
{
    gain_laws();
}

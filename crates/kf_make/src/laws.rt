ghost use Rattle.kf_make.specs.Laws.{MadeIsClear, MadeIsParsed, MadeIsTyped, MadeScale};

use kf_core::{choice_laws, run_laws};

/// Laws of the definitions: whatever its number of lines, the made text is a program that meets no fault; its scale is 64
/// times so many fours. It does nothing when it runs.
pub fn made_laws()
    ensures parsed { MadeIsParsed }
    ensures typed { MadeIsTyped }
    ensures clear { MadeIsClear }
    ensures scale { MadeScale }
{
    choice_laws();
    run_laws();
}

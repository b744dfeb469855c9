ghost use Rattle.kf_laws.specs.Silence.{SilentRefines};

use kf_silent::silent_laws;

/// A law of the definitions: where more statements are silent, the hyper is refined (Alvim et al. 2020): some matrix carries the one to the
/// other. It does nothing when it runs.
pub fn silent_refines()
    ensures { SilentRefines }
{
    silent_laws();
}

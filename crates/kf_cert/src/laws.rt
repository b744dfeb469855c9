//! Laws of the definitions, each a clause of a function that does nothing.

ghost use Rattle.kf_cert.specs.Laws.{AcceptedShows, CarryingAccepted, NamedAccepted, NamesAll, OneMark, ReadSound, ReadsBack, RejectedShowsNot, SeparatingAccepted, SomeMark, VerdictsWritable, WrittenAccepted};

use kf_value::text_laws;

/// What is accepted proves, and what is rejected doesn't; a matrix or a table that proves is accepted. Each verdict can be written, and what
/// is written of it is accepted, unless the check is too wide. The entries that are named of a matrix name it.
pub fn cert_laws()
    ensures shows { AcceptedShows }
    ensures shows_not { RejectedShowsNot }
    ensures carrying { CarryingAccepted }
    ensures named { NamedAccepted }
    ensures separating { SeparatingAccepted }
    ensures writable { VerdictsWritable }
    ensures reads_back { ReadsBack }
    ensures written { WrittenAccepted }
    ensures read_sound { ReadSound }
    ensures names_all { NamesAll }
{
    text_laws();
}

/// A certificate has exactly one mark, unless the check is too wide.
pub fn mark_laws()
    ensures some { SomeMark }
    ensures one { OneMark }
{}

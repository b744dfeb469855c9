//! Laws of the type rules: a small function whose contract is facts about sources, their programs and their types.
ghost use Rattle.kf_check.specs.Laws.{OneJudgement, OneTyped, TypedOrBroken, BrokenIsTold, CheckedIfTyped, SizesAgree};

/// The type rules tell one thing of a source: they judge it in one way at most, so that there is one first broken rule to
/// tell; it has one program at most; one that the grammar builds has a program or a first broken rule, which is always told; and
/// its program is checked. Of a type they say what is said of its size.
pub fn type_laws()
    ensures one { OneJudgement }
    ensures typed { OneTyped }
    ensures either { TypedOrBroken }
    ensures told { BrokenIsTold }
    ensures checked { CheckedIfTyped }
    ensures sizes { SizesAgree }
{}

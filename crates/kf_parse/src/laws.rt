//! Laws of the grammar: small functions whose contracts are facts about tokens and programs.
ghost use Rattle.kf_parse.specs.OperatorTokens.{AreTold, HaveTokens};
ghost use Rattle.kf_parse.specs.Laws.{ClosesAll, KindsAlone, NotBoth, OneProgram, OneRefusal, OnlyBuilt, ParsedOrRefused, StandsFirst};

/// The grammar is unambiguous: the tokens of a source are those of one program at most, so that there is one tree to
/// give. And whether tokens are a program rests on their kinds alone, and neither on their places nor on the source's bytes.
/// Each operator of a program has as many arguments as it takes, and none of its lists is too short. A program closes each
/// bracket that it opens and no other. Each expression, type, distribution and statement stands where its first token
/// does. It does nothing when it runs.
pub fn grammar()
    ensures one { OneProgram }
    ensures kinds { KindsAlone }
    ensures built { OnlyBuilt }
    ensures closes { ClosesAll }
    ensures places { StandsFirst }
{}

/// What holds of the definitions alone: tokens are a program's, within the limits, or they are refused; not both; and
/// they are refused for one cause at one place. Want of memory is no such cause. It does nothing when it runs.
pub fn refusals()
    ensures either { ParsedOrRefused }
    ensures both { NotBoth }
    ensures refusal { OneRefusal }
{}

/// What a token is between operands, before an operand and before parentheses, as the parser tells it, is what the definitions say.
/// And each operator has such a token: that of two arguments which binds looser than those before parentheses has one between
/// operands, that of one argument has one before its operand, and the others have one before parentheses. It does nothing when it
/// runs.
pub fn operator_tokens()
    ensures told { AreTold }
    ensures each { HaveTokens }
{}

//! What holds of every source.

ghost use Rattle.std.specs.Prelude.{List, ℕ};
ghost use Rattle.kf_lex.specs.declared.token.Token.{Token};
ghost use Rattle.std.specs.List.{All};
ghost use Rattle.kf_lex.specs.Laws.{AreOperatorTokens, AreOperatorsReserved, HasName, HaveOneText, HasSpans, IsOneReading};
ghost use Rattle.kf_lex.specs.Readings.{IsTokens};

/// Every source has tokens or a first fault: one list of tokens at most, one first fault at most, and never
/// both. It does nothing when it runs.
pub fn one_reading()
    ensures { IsOneReading }
{}

/// The tokens of a source stand in it one behind the other, and the texts of names are UTF-8. It does
/// nothing when it runs.
pub fn spans()
    ensures spans { (src : List ℕ) (tokens : List Token) → IsTokens src tokens → HasSpans src tokens }
    ensures names { (src : List ℕ) (tokens : List Token) → IsTokens src tokens → All (HasName src) tokens }
{}

/// A reserved word is written in one way. It does nothing when it runs.
pub fn one_text()
    ensures { HaveOneText }
{}

/// Every operator that is written as a word has a reserved word. It does nothing when it runs.
pub fn reserved_operators()
    ensures { AreOperatorsReserved }
{}

/// A token stands for an operator exactly where it spells the word of the operator's row, and each operator has a token, but for
/// the minus before an operand. It does nothing when it runs.
pub fn operator_tokens()
    ensures { AreOperatorTokens }
{}

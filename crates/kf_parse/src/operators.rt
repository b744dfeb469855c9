ghost use Rattle.std.specs.Prelude.{◌≡◌};
ghost use Rattle.kf_parse.specs.Operators.{arity_of, level_of};
ghost use Rattle.kf_parse.specs.OperatorTokens.{called_op, infix_op, is_written_with, operator_before, prefix_op, row_of};
ghost use Rattle.kf_parse.specs.Reading as r;

use kf_lex::{Sign, Tok, operator_of};
use kf_ops::{Op, operator_row};

/// The operator that a token is between two operands.
pub(crate) fn infix(kind: Tok) -> Option<Op>
    ensures { result ≡ infix_op kind }
{
    let op = operator_of(kind)?;
    if is_written_with(2, op) {
        Some(op)
    } else {
        None
    }
}

/// The operator that it is before an operand.
pub(crate) fn prefix(kind: Tok) -> Option<Op>
    ensures { result ≡ prefix_op kind }
{
    let op = operator_before(kind)?;
    if is_written_with(1, op) {
        Some(op)
    } else {
        None
    }
}

/// The operator that it is before arguments in parentheses.
pub(crate) fn called(kind: Tok) -> Option<Op>
    ensures { result ≡ called_op kind }
{
    let op = operator_of(kind)?;
    if level(op) == 8 { Some(op) } else { None }
}

/// The operator that a token may be before an operand. The word of the prefix `-` in the table is `~`.
fn operator_before(kind: Tok) -> Option<Op>
    ensures { result ≡ operator_before kind }
{
    match kind {
        Tok::Sign(Sign::Minus) => Some(Op::Negate),
        _ => operator_of(kind),
    }
}

/// Whether it takes so many arguments, and binds looser than the operators before parentheses.
fn is_written_with(count: u8, op: Op) -> bool
    ensures { result ≡ is_written_with count op }
{
    arity(op) == count && level(op) < 8
}

/// How tightly an operator binds.
fn level(op: Op) -> u8
    ensures { result ≡ level_of op }
{
    operator_row(op).level
}

/// How many arguments it takes.
pub(crate) fn arity(op: Op) -> u8
    ensures { result ≡ arity_of op }
{
    operator_row(op).arity
}

/// Its row in the table of operators, counted from 0.
pub(crate) fn row(op: Op) -> u8
    ensures { result ≡ row_of op }
{
    op as u8
}

/// Whether there is an operator, and it binds at the level.
pub(crate) fn binds_at(at: u8, op: Option<Op>) -> bool
    ensures { result ≡ r.binds_at at op }
{
    match op {
        Some(op) => level(op) == at,
        None => false,
    }
}

/// The row of an operator, and 0 where there is none.
pub(crate) fn row_in(op: Option<Op>) -> u8
    ensures { result ≡ r.row_in op }
{
    match op {
        Some(op) => row(op),
        None => 0,
    }
}

ghost use Rattle.std.specs.Prelude.{◌≡◌, ◌<◌, length};
ghost use Rattle.std.specs.List.{All};
ghost use Rattle.kf_ops.specs.Places.{IsRow, number_of};
ghost use Rattle.kf_ops.specs.Rows.{Row, operators as operator_rows};
ghost use Rattle.kf_ops.specs.Views.{row_of, rows_of};
ghost use Rattle.kf_ops.specs.Table.{HasArity, HasDistinctCodes, HasDistinctWords, HasLevel, HasRowAtNumber};

use crate::row::{Op, OpRow};
use crate::table::{CODES, TABLE};

/// The table by value, for a caller whose contract speaks of its rows: in a body, one call in place of all rows written out.
pub fn operators() -> [OpRow; 27]
    ensures { rows_of result ≡ operator_rows }
{
    *TABLE
}

/// The operator of a row, counted from 0.
pub fn operator_at(row: usize) -> Op
    requires { row < length operator_rows }
    ensures { (r : Row) → IsRow row r → r.code ≡ result }
{
    CODES[row]
}

/// The row of one operator.
pub fn operator_row(code: Op) -> OpRow
    ensures { IsRow (number_of code) (row_of result) }
{
    operators()[place_of(code)]
}

// Where the operator's row stands, counted from 0.
fn place_of(code: Op) -> usize
    ensures exact { result ≡ number_of code }
    ensures within { result < length operator_rows }
{
    code as usize
}

/// What holds of the operators. It does nothing when it runs.
pub fn table_facts()
    ensures words { HasDistinctWords operator_rows }
    ensures levels { All HasLevel operator_rows }
    ensures arities { All HasArity operator_rows }
    ensures codes { HasDistinctCodes operator_rows }
    ensures rows { HasRowAtNumber operator_rows }
{}

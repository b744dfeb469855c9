ghost use Rattle.std.specs.Prelude.{◌≡◌, position};
ghost use Rattle.std.specs.Str.{bytes_eq};
ghost use Rattle.kf_ops.specs.Views.{rows_of};
ghost use Rattle.kf_ops.specs.Table.{has_word, IsPlaceOf};

use crate::row::OpRow;

// The place that the standard search gives.
fn position_of(table: &[OpRow], word: &str) -> Option<usize>
    ensures { result ≡ position (λ row. bytes_eq row.word.now word.now) table.now }
{
    table.iter().position(|row| row.word == word)
}

/// The place of the first row with this word, counted from 0, and `None` where no row has it. The
/// table may be of every length.
pub fn find(table: &[OpRow], word: &str) -> Option<usize>
    ensures exact { IsPlaceOf (rows_of table.now) word.now result }
    ensures computed { result ≡ position (has_word word.now) (rows_of table.now) }
{
    position_of(table, word)
}

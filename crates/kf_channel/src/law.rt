ghost use Rattle.kf_channel.specs.Laws.{RowsSumToOne, SomeSecrets};

/// A law of the definitions: the cells of each secret sum to 1 (Alvim et al. 2020).
pub fn rows_sum_to_one()
    ensures { RowsSumToOne }
{}

/// A law of the definitions: rows have secrets.
pub fn some_secrets()
    ensures { SomeSecrets }
{}

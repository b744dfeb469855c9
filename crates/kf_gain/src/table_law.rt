ghost use Rattle.kf_gain.specs.TableLaws.{SomeTable, OneTable, TablesHaveActions};

/// Laws of the definitions: any bytes are one gain table for a target, with an action, or break a first rule. It does nothing
/// when it runs.
pub fn table_laws()
    ensures some { SomeTable }
    ensures one { OneTable }
    ensures actions { TablesHaveActions }
{}

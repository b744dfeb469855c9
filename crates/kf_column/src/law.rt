ghost use Rattle.std.specs.Prelude.{All};
ghost use Rattle.std.specs.List.{IsDistinct};
ghost use Rattle.kf_column.specs.Columns.{IsColumn, proportional};
ghost use Rattle.kf_column.specs.Merged.{SameBeliefs, AreMerged};
ghost use Rattle.kf_column.specs.Laws.{SomeHyper, AtMostOneHyper, ProportionalMeans, JointColumnWeighs, ClassesWeigh, AveragesWeigh, ProjectedNumbers};
ghost use Rattle.kf_column.specs.Laws.{SomeMerged, AtMostOneMerged, WhereMerged, MergedWeigh, TotalsTellBeliefs};

/// A law of the definitions: a list of columns has exactly one hyper.
pub fn one_hyper()
    ensures some { SomeHyper }
    ensures at_most_one { AtMostOneHyper }
{}

/// A law of the definitions: the test on the values that two columns name says that their weights stand in one
/// ratio at all values (Alvim et al. 2020).
pub fn proportional_means()
    ensures { ProportionalMeans }
{}

/// Laws of the definitions: a hyper keeps the weights of the columns that it is made of. An inner's joint column has
/// the inner's joint weights; these are the sums of its class's columns, and all of them together that of all columns.
pub fn hyper_laws()
    ensures column { JointColumnWeighs }
    ensures classes { ClassesWeigh }
    ensures average { AveragesWeigh }
{}

/// Laws of the definitions: a list of columns is merged to exactly one list. It has one column for each class, the sum of
/// the class, and the same hyper, so that merging it again changes nothing. Which hyper a list of columns has is told by
/// the totals of its classes.
pub fn merge_laws()
    ensures some { SomeMerged }
    ensures at_most_one { AtMostOneMerged }
    ensures columns { WhereMerged (λ columns merged. All IsColumn merged) }
    ensures sums { MergedWeigh }
    ensures apart { WhereMerged (λ columns merged. IsDistinct proportional merged) }
    ensures beliefs { WhereMerged SameBeliefs }
    ensures again { WhereMerged (λ columns merged. AreMerged merged merged) }
    ensures totals { TotalsTellBeliefs }
{}

/// A law of the definitions: a store's projection is the number of its values at the slots.
pub fn projection_laws()
    ensures { ProjectedNumbers }
{}

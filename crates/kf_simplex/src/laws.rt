//! Laws of the definitions, each a clause of a function that does nothing.
ghost use Rattle.kf_simplex.specs.Laws.{AgreesAsSystem, AgreesBothWays, AgreesInAnswers, AgreesInEnds};
ghost use Rattle.kf_simplex.specs.Laws.{AgreesInMultipliers, AgreesInOutcomes, AgreesInRuns, AgreesInSolutions};
ghost use Rattle.kf_simplex.specs.Laws.{EveryRunEnds, MeasureFalls, NoRunIsLong, NoRunReturns};
ghost use Rattle.kf_simplex.specs.Laws.{OneAnswer, OneEnd, OneResult, SomeAnswer, WeakDuality};

/// Where multipliers exist, no solution without negative entries does.
pub fn weak_duality()
    ensures { WeakDuality }
{}

/// No basis comes twice in a run, since each pivot lowers the objective row.
pub fn no_run_returns()
    ensures bases { NoRunReturns }
    ensures falls { MeasureFalls }
{}

/// A run has at most as many tableaus as there are ways to choose a basis.
pub fn no_run_is_long()
    ensures { NoRunIsLong }
{}

/// A run ends after one number of pivots, at one tableau and for one cause.
pub fn one_answer()
    ensures { OneAnswer }
{}

/// Every run ends, and has an answer besides want of memory.
pub fn every_run_ends()
    ensures run { EveryRunEnds }
    ensures answer { SomeAnswer }
{}

/// Two systems that agree at each equation and column have the same runs, solutions, multipliers and answers.
pub fn systems_agree()
    ensures both_ways { AgreesBothWays }
    ensures system { AgreesAsSystem }
    ensures runs { AgreesInRuns }
    ensures ends { AgreesInEnds }
    ensures solutions { AgreesInSolutions }
    ensures multipliers { AgreesInMultipliers }
    ensures outcomes { AgreesInOutcomes }
    ensures answers { AgreesInAnswers }
{}

/// Two systems that agree have one end of their runs, and one result besides want of memory.
pub fn one_result()
    ensures ends { OneEnd }
    ensures answer { OneResult }
{}

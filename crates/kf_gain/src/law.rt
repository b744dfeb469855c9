ghost use Rattle.kf_gain.specs.Laws.{SomeVulnerability, OneVulnerability, VulnerabilityScales, SomeAverage, OneAverage, NothingIsLost, BayesIsBounded, SomeReport, OneReport, WidthBounds};

/// Laws of the definitions: every column has exactly one vulnerability under a gain, and it grows with the weights.
pub fn vulnerability_laws()
    ensures some { SomeVulnerability }
    ensures one { OneVulnerability }
    ensures scales { VulnerabilityScales }
{}

/// Laws of the definitions: the inners of a hyper have exactly one sum.
pub fn average_laws()
    ensures some { SomeAverage }
    ensures one { OneAverage }
{}

/// Laws of the definitions: a hyper has exactly one prior and one posterior vulnerability, whose numbers stay within its
/// width; what is seen never makes the best action worse, and with one guess it gains no more than as many times as there
/// are inners (Alvim et al. 2020).
pub fn gain_laws()
    ensures some { SomeReport }
    ensures one { OneReport }
    ensures width { WidthBounds }
    ensures nothing_is_lost { NothingIsLost }
    ensures bayes { BayesIsBounded }
{}

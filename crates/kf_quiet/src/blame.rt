use kf_frac::Frac;
use std::marker::Model;

/// How many inners a hyper has, and its posterior Bayes vulnerability.
#[derive(Clone, Copy, Debug, PartialEq, Eq)]
pub struct Blame {
    pub inners: u64,
    pub bayes: Frac,
}

/// The blames of a program: first that of the whole program, then for each outermost statement that of the program in which this
/// statement is quiet.
#[derive(Drop)]
pub struct BlameList {
    items: Vec<Blame>,
}

impl Model for BlameList {
    ghost use Rattle.std.specs.Prelude.{List};
    ghost use Rattle.kf_quiet.specs.declared.blame.Blame.{Blame};

    ghost Value = { List Blame };

    ghost view = { λ l. l.items.items };
}

impl BlameList {
    ghost use Rattle.std.specs.Prelude.{◌≡◌};

    pub fn new(items: Vec<Blame>) -> Self
        ensures { result ≡ items.items }
    {
        BlameList { items }
    }

    pub fn as_slice(&self) -> &[Blame]
        ensures { result.now ≡ self.now }
    {
        self.items.as_slice()
    }
}

//! How much is seen of a program, and how much where a statement is silent.

use kf_frac::Frac;
use std::marker::Model;

/// How many inners a hyper has, and its posterior vulnerability; for guessing the number of guesses that is to be expected.
#[derive(Clone, Copy)]
pub(crate) struct Summary {
    pub(crate) inners: u64,
    pub(crate) posterior: Frac,
}

/// The byte at which a statement begins, and how much is seen where it is silent.
#[derive(Clone, Copy)]
pub(crate) struct Line {
    pub(crate) at: u32,
    pub(crate) left: Summary,
}

/// Lines, in the order of the text.
#[derive(Drop)]
pub(crate) struct LineList {
    items: Vec<Line>,
}

impl Model for LineList {
    ghost use Rattle.std.specs.Prelude.{List};
    ghost use Rattle.kf_lines.specs.declared.summary.Line.{Line};

    ghost Value = { List Line };

    ghost view = { λ l. l.items.items };
}

impl LineList {
    ghost use Rattle.std.specs.Prelude.{◌≡◌};

    pub(crate) fn new(items: Vec<Line>) -> Self
        ensures { result ≡ items.items }
    {
        LineList { items }
    }

    pub(crate) fn as_slice(&self) -> &[Line]
        ensures { result.now ≡ self.now }
    {
        self.items.as_slice()
    }
}

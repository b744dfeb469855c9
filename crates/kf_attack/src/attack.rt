use kf_frac::Frac;
use std::marker::Model;

/// A target's value and its probability in an inner.
#[derive(Clone, Copy, Debug, PartialEq, Eq)]
pub struct WeighedValue {
    /// Its number among the target's values, from 0.
    pub value: u64,
    pub chance: Frac,
}

/// Values in the order in which they are guessed.
#[derive(Drop)]
pub struct WeighedValueList {
    items: Vec<WeighedValue>,
}

impl Model for WeighedValueList {
    ghost use Rattle.std.specs.Prelude.{List};
    ghost use Rattle.kf_attack.specs.declared.attack.WeighedValue.{WeighedValue};

    ghost Value = { List WeighedValue };

    ghost view = { λ l. l.items.items };
}

/// An action of a gain table and what it is expected to gain in an inner.
#[derive(Clone, Copy, Debug, PartialEq, Eq)]
pub struct Score {
    /// Its place in the table, from 0.
    pub action: usize,
    pub score: Frac,
}

/// All actions of a table in their order.
#[derive(Drop)]
pub struct ScoreList {
    items: Vec<Score>,
}

impl Model for ScoreList {
    ghost use Rattle.std.specs.Prelude.{List};
    ghost use Rattle.kf_attack.specs.declared.attack.Score.{Score};

    ghost Value = { List Score };

    ghost view = { λ l. l.items.items };
}

/// The best that can be done at an inner.
#[derive(Drop)]
pub enum Best {
    /// The values to guess, the likeliest first, and of equal ones the smaller number.
    Values(WeighedValueList),
    /// What each action of a table is expected to gain; the first one whose score is the inner's worth is the best.
    Scores(ScoreList),
}

/// What the best that can be done at an inner is worth, and what it is.
#[derive(Drop)]
pub struct Attack {
    /// The vulnerability of the inner's distribution; for guessing the number of guesses that is to be expected.
    pub worth: Frac,
    pub best: Best,
}

/// One attack for each inner, in their order.
#[derive(Drop)]
pub struct AttackList {
    items: Vec<Attack>,
}

impl Model for AttackList {
    ghost use Rattle.std.specs.Prelude.{List};
    ghost use Rattle.kf_attack.specs.declared.attack.Attack.{Attack};

    ghost Value = { List Attack };

    ghost view = { λ l. l.items.items };
}

impl WeighedValueList {
    ghost use Rattle.std.specs.Prelude.{◌≡◌};

    pub fn new(items: Vec<WeighedValue>) -> Self
        ensures { result ≡ items.items }
    {
        WeighedValueList { items }
    }

    pub fn as_slice(&self) -> &[WeighedValue]
        ensures { result.now ≡ self.now }
    {
        self.items.as_slice()
    }
}

impl ScoreList {
    ghost use Rattle.std.specs.Prelude.{◌≡◌};

    pub fn new(items: Vec<Score>) -> Self
        ensures { result ≡ items.items }
    {
        ScoreList { items }
    }

    pub fn as_slice(&self) -> &[Score]
        ensures { result.now ≡ self.now }
    {
        self.items.as_slice()
    }
}

impl AttackList {
    ghost use Rattle.std.specs.Prelude.{◌≡◌};

    pub fn new(items: Vec<Attack>) -> Self
        ensures { result ≡ items.items }
    {
        AttackList { items }
    }

    pub fn as_slice(&self) -> &[Attack]
        ensures { result.now ≡ self.now }
    {
        self.items.as_slice()
    }
}

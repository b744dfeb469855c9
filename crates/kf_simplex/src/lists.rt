ghost use Rattle.std.specs.Prelude.{◌≡◌};

use kf_frac::Frac;
use std::marker::Model;

/// Whole numbers in order.
#[derive(Drop)]
pub struct NumberList {
    items: Vec<i64>,
}

impl Model for NumberList {
    ghost use Rattle.std.specs.Prelude.{List, ℤ};

    ghost Value = { List ℤ };

    ghost view = { λ l. l.items.items };
}

impl NumberList {
    pub fn new(items: Vec<i64>) -> Self
        ensures { result ≡ items.items }
    {
        NumberList { items }
    }

    pub fn as_slice(&self) -> &[i64]
        ensures { result.now ≡ self.now }
    {
        self.items.as_slice()
    }
}

/// Fractions in order.
#[derive(Drop)]
pub struct FracList {
    items: Vec<Frac>,
}

impl Model for FracList {
    ghost use Rattle.std.specs.Prelude.{List};
    ghost use Rattle.kf_frac.specs.declared.frac.Frac.{Frac};

    ghost Value = { List Frac };

    ghost view = { λ l. l.items.items };
}

impl FracList {
    pub fn new(items: Vec<Frac>) -> Self
        ensures { result ≡ items.items }
    {
        FracList { items }
    }

    pub fn as_slice(&self) -> &[Frac]
        ensures { result.now ≡ self.now }
    {
        self.items.as_slice()
    }
}

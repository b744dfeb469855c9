ghost use Rattle.std.specs.Prelude.{◌≡◌};

use std::marker::Model;

/// Counts in their order.
#[derive(Drop)]
pub struct CountList {
    items: Vec<u64>,
}

impl Model for CountList {
    ghost use Rattle.std.specs.Prelude.{ℕ, List};

    ghost Value = { List ℕ };

    ghost view = { λ l. l.items.items };
}

impl CountList {
    pub fn new(items: Vec<u64>) -> Self
        ensures { result ≡ items.items }
    {
        CountList { items }
    }

    pub fn as_slice(&self) -> &[u64]
        ensures { result.now ≡ self.now }
    {
        self.items.as_slice()
    }
}

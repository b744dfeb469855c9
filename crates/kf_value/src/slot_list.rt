ghost use Rattle.std.specs.Prelude.{◌≡◌};

use std::marker::Model;

/// Places of variables in a shape, each counted from 0.
#[derive(Drop)]
pub struct SlotList {
    items: Vec<u8>,
}

impl Model for SlotList {
    ghost use Rattle.std.specs.Prelude.{ℕ, List};

    ghost Value = { List ℕ };

    ghost view = { λ l. l.items.items };
}

impl SlotList {
    pub fn new(items: Vec<u8>) -> Self
        ensures { result ≡ items.items }
    {
        SlotList { items }
    }

    pub fn as_slice(&self) -> &[u8]
        ensures { result.now ≡ self.now }
    {
        self.items.as_slice()
    }
}

ghost use Rattle.std.specs.Prelude.{◌≡◌};
ghost use Rattle.kf_core.specs.Views.{st_items};

use crate::Dx;

/// A statement.
#[cycle(st)]
#[derive(Drop)]
pub enum St {
    Skip,
    /// Gives a variable, named by its place in the shape, a new value. A visible variable's new value is shown to the observer.
    Assign { slot: u8, dist: Dx, shown: bool },
    Observe(Dx),
    If { guard: Dx, yes: StList, no: StList },
    While { guard: Dx, body: StList },
}

#[cycle(st)]
#[derive(Drop)]
pub struct StList {
    items: Vec<St>,
}

impl StList {
    pub fn new(items: Vec<St>) -> Self
        ensures { st_items result ≡ items.items }
    {
        StList { items }
    }

    pub fn as_slice(&self) -> &[St]
        ensures { result.now ≡ st_items self.now }
    {
        self.items.as_slice()
    }
}

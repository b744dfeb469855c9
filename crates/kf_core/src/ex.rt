ghost use Rattle.std.specs.Prelude.{◌≡◌};
ghost use Rattle.kf_core.specs.Views.{ex_items};

use kf_value::Value;

/// An expression of a program whose names and kinds are known.
#[cycle(ex)]
#[derive(Drop)]
pub enum Ex {
    Const(Value),
    /// The value of a variable, named by its place in the shape.
    Slot(u8),
    /// The operator of a row of the operator table, counted from 0, at its arguments.
    Apply { row: u8, args: ExList },
    /// At least two parts.
    Tuple(ExList),
    /// The members of a set as they are written, at least one.
    SetOf(ExList),
    /// A part of a tuple, counted from 0.
    Part { of: Box<Ex>, k: u32 },
}

#[cycle(ex)]
#[derive(Drop)]
pub struct ExList {
    items: Vec<Ex>,
}

impl ExList {
    pub fn new(items: Vec<Ex>) -> Self
        ensures { ex_items result ≡ items.items }
    {
        ExList { items }
    }

    pub fn as_slice(&self) -> &[Ex]
        ensures { result.now ≡ ex_items self.now }
    {
        self.items.as_slice()
    }
}

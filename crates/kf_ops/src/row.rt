/// What an operator takes in one place, or gives.
#[derive(Clone, Copy, Debug, PartialEq, Eq)]
pub enum Pat {
    /// There is no such argument.
    Nothing,
    Bool,
    Int,
    /// One kind throughout a row.
    Any,
    /// A set whose elements are of the kind that `Any` stands for.
    SetOfAny,
}

/// The operators, one for each row of the table and in its order.
#[derive(Clone, Copy, Debug, PartialEq, Eq)]
pub enum Op {
    Or,
    And,
    Not,
    Equal,
    NotEqual,
    Less,
    AtMost,
    Greater,
    AtLeast,
    Elem,
    Add,
    Subtract,
    Union,
    Without,
    Multiply,
    Div,
    Mod,
    Inter,
    Negate,
    Size,
    Cond,
    Xor,
    Implies,
    Subset,
    Min,
    Max,
    Abs,
}

/// One operator: how it is written, what it takes and gives, and what can go wrong.
#[derive(Clone, Copy, Debug)]
pub struct OpRow {
    /// How it stands in a source; `~`, which no source has, for the prefix `-`.
    pub word: &'static str,
    /// How tightly it binds, from 1, the loosest, to 8.
    pub level: u8,
    /// How many arguments it takes.
    pub arity: u8,
    pub args: [Pat; 3],
    pub result: Pat,
    pub code: Op,
    /// Whether it has no value at a divisor of 0.
    pub div_zero: bool,
    /// Whether it has no value where the result isn't an i64.
    pub wide: bool,
}

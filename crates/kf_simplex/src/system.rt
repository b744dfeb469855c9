ghost use Rattle.std.specs.Prelude.{◌≡◌, ◌≤◌, ◌^◌, ◌*◌, ◌+◌, ◌<◌, ◌≤ℤ◌, pos, length, unsigned_abs};
ghost use Rattle.std.specs.List.{All};
ghost use Rattle.kf_simplex.specs.Cells.{AllNarrow};
ghost use Rattle.kf_simplex.specs.Entries.{IsRowWithin, number_in};

use crate::NumberList;
use crate::row::Row;
use std::marker::Model;

/// One equation: the sum of each coefficient times its unknown is `rhs`.
#[derive(Drop)]
pub struct Equation {
    /// One coefficient for each unknown, at most 2^62 in absolute value.
    pub coefs: NumberList,
    /// The right side, from 0 to 2^62.
    pub rhs: i64,
    pub ghost narrow: { All (λ z. unsigned_abs z ≤ 2 ^ 62) coefs },
    pub ghost not_negative: { pos 0 ≤ℤ rhs },
    pub ghost rhs_narrow: { unsigned_abs rhs ≤ 2 ^ 62 },
}

/// Equations in order.
#[derive(Drop)]
pub struct EquationList {
    items: Vec<Equation>,
}

impl Model for EquationList {
    ghost use Rattle.std.specs.Prelude.{List};
    ghost use Rattle.kf_simplex.specs.declared.system.Equation.{Equation};

    ghost Value = { List Equation };

    ghost view = { λ l. l.items.items };
}

impl EquationList {
    pub fn new(items: Vec<Equation>) -> Self
        ensures { result ≡ items.items }
    {
        EquationList { items }
    }

    pub fn as_slice(&self) -> &[Equation]
        ensures { result.now ≡ self.now }
    {
        self.items.as_slice()
    }
}

/// A system of equations over unknowns that must not be negative.
#[derive(Drop)]
pub struct System {
    /// How many unknowns there are.
    pub unknowns: u32,
    pub rows: EquationList,
    pub ghost lengths: { All (λ q. length q.coefs ≡ unknowns) rows },
}

/// One equation by its coefficients that aren't 0.
#[derive(Drop)]
pub struct SparseEquation {
    /// The coefficients by ascending unknowns, at most 2^62 in absolute value.
    pub coefs: Row,
    /// The right side, from 0 to 2^62.
    pub rhs: i64,
    pub ghost narrow: { AllNarrow (number_in coefs.entries.items) },
    pub ghost not_negative: { pos 0 ≤ℤ rhs },
    pub ghost rhs_narrow: { unsigned_abs rhs ≤ 2 ^ 62 },
}

/// A system of equations that have few coefficients each, over unknowns that must not be negative.
#[derive(Drop)]
pub struct SparseSystem {
    /// How many unknowns there are.
    pub unknowns: u32,
    pub rows: Vec<SparseEquation>,
    pub ghost within: { All (λ q. IsRowWithin unknowns q.coefs.entries.items) rows.items },
}

/// How many cells the tableau of a system with so many unknowns and equations has.
pub fn cells(unknowns: u64, rows: u64) -> u128
    requires unknowns { unknowns < 2 ^ 62 }
    requires rows { rows < 2 ^ 62 }
    ensures { result ≡ (rows + 1) * (unknowns + rows + 1) }
{
    (rows as u128 + 1) * (unknowns as u128 + rows as u128 + 1)
}

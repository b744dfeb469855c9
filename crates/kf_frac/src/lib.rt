//! Exact fractions of 128-bit parts, always in lowest terms.
#![tactic(auto)]

mod arithmetic;
mod divisors;
mod frac;
mod making;
mod product;
mod shares;

pub use arithmetic::{add, cmp, mul};
pub use divisors::{gcd, lcm, quotient};
pub use frac::Frac;
pub use making::{Wide, make};
pub use product::Product;
pub use shares::share;

/// The greatest absolute value of a part.
const LIMIT: u128 = i128::MAX as u128;

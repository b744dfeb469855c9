//! Where the weight of stores goes.

use kf_value::Value;

/// A value that is leaked, the store behind it, and the weight that goes there.
#[derive(Drop)]
pub struct Leak {
    pub value: Value,
    pub to: u64,
    pub weight: u128,
}

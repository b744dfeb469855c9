/// The whole weight of one value. The order is that of the values, then that of the weights.
#[derive(Clone, Copy, Debug, PartialEq, Eq, PartialOrd, Ord)]
pub struct Entry {
    /// The number of a value, from 0.
    pub value: u64,
    /// Its weight, over the scale of the list of columns.
    pub weight: u128,
}

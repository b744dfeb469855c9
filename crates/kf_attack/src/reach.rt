use kf_frac::Frac;

/// The least number of tries with which a wanted vulnerability is reached.
#[derive(Clone, Copy, Debug, PartialEq, Eq)]
pub struct Reach {
    /// How many different values are guessed, at least 1.
    pub tries: u64,
    /// The posterior vulnerability with so many tries.
    pub posterior: Frac,
    /// The same with one try fewer, below what is wanted; 0 with none.
    pub before: Frac,
}

//! What the best attacker does once it has seen a trace, and with how many tries it gets as far as it wants.
#![tactic(auto)]

mod attack;
mod best;
mod fractions;
mod guess_order;
mod guesses;
mod law;
mod least_tries;
mod reach;
mod scores;
mod tries;

pub use attack::{Attack, AttackList, Best, Score, ScoreList, WeighedValue, WeighedValueList};
pub use best::attack_of;
pub use law::{attack_laws, reach_laws};
pub use least_tries::reach_of;
pub use reach::Reach;

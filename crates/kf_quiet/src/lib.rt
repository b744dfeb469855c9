//! What would leak if a block of a program's statements showed nothing, and which statement is to blame.
#![tactic(auto)]

mod before;
mod blame;
mod laws;
mod quiet;
mod statements;

pub use blame::{Blame, BlameList};
pub use kf_push::{Pusher, erase, merge_law};
pub use laws::{blame_laws, quiet_laws, silent_gain_laws};
pub use quiet::quiet_hyper;
pub use statements::blame_of;

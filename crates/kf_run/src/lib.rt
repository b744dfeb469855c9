//! A cleared program run on whole hypers: columns of one posterior are added up behind each statement.
#![tactic(auto)]

mod assigned;
mod before;
mod choices;
mod cleared_stages;
mod column_spread;
mod first_columns;
mod forgotten;
mod guards;
mod laws;
mod leak_groups;
mod observation;
mod pusher;
mod pushes;
mod silence;
mod stages;
mod steps;
mod ways;

pub use before::Before;
pub use first_columns::start;
pub use kf_hyper::CountList;
pub use kf_push::merge_law;
pub use laws::trail_laws;
pub use pusher::{Pushing, PushingRef};
pub use pushes::push;
pub use stages::{Stages, hyper_of, trail};

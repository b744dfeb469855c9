//! Channel matrices: with which probability each secret shows each trace.
#![tactic(auto)]

mod channel;
mod error;
mod law;

pub use channel::{Channel, channel_of, is_initial};
pub use error::ChannelError;
pub use law::{rows_sum_to_one, some_secrets};

//! Calls that cases of whole runs can't show.
#![tactic(auto)]

#[cfg(test)]
mod tests;

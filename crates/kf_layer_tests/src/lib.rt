//! Tests of named calls, from operators and tokens to full sources and erased columns.
#![tactic(auto)]

#[cfg(test)]
mod tests;

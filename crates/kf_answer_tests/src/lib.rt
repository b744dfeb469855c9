//! Tests of named calls: of fractions, of types and values, of joint matrices, of equations, and of files and sinks.
#![tactic(auto)]

#[cfg(test)]
mod tests;

// Calls with what they answer, worked out by hand.
mod files;
mod fractions;
mod hypers;
mod simplex;
mod types_and_values;

use std::fmt::Debug;
use std::process::Abort;

// What was got of what was given is as wanted.
fn is_same<G: Debug, T: PartialEq + Debug>(rt: &impl Abort, given: &G, got: &T, want: &T) {
    assert_eq!(rt; got, want, "of {given:?}");
}

// What a line of a table says holds.
fn holds(rt: &impl Abort, is: bool, line: &str) {
    assert!(rt; is, "{line}");
}

// The text is as wanted.
fn is_text(rt: &impl Abort, text: &str, want: &str) {
    assert_eq!(rt; text, want);
}

// The bytes are those of the text that is wanted.
fn are_bytes(rt: &impl Abort, bytes: &[u8], want: &str) {
    assert_eq!(rt; bytes, want.as_bytes());
}

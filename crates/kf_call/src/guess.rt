// What a file that isn't there might hold. It is there for proofs alone: it takes no memory, and its call does nothing.
ghost use Rattle.std.specs.Prelude.{◌≡◌, ℕ, List};
ghost use base.Fml.{ftrue};

use std::marker::Model;

#[derive(Drop)]
pub(crate) struct Guess {
    ghost bytes: { List ℕ },
}

impl Model for Guess {
    ghost also_owns = { λ _. ftrue };
}

impl Guess {
    /// Any bytes.
    pub(crate) fn new() -> Guess
        ghost any: { List ℕ }
        ensures { result.bytes ≡ any }
    {
        Guess {}
    }
}

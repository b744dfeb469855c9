ghost use Rattle.std.specs.Prelude.{◌≡◌, ◌+◌, ◌<◌, ◌≤◌, List, ℕ, length, take, IsOk, IfOk, OnErr};
ghost use Rattle.std.specs.Option.{ForSome};
ghost use Rattle.std.specs.declared.option.Option.{Option};
ghost use Rattle.std.specs.Io.KnownBytes.{Appends, Keeps};
ghost use Rattle.kf_io.specs.Counts.{CountsFaults, CountsFault};
ghost use Rattle.kf_io.specs.Reads.{Gives};

use crate::Failed;

/// Files by name, read piece by piece.
pub trait Files {
    /// The bytes of each name, where they are told.
    ghost contents: { Self → Option (List ℕ → List ℕ) };

    /// How often a read of each name has failed, up to 2^64 - 1.
    ghost faults: { Self → List ℕ → ℕ };

    /// Copies bytes of the file, from the one at `at` (counted from 0) on, to the front of `buf`, and
    /// says how many. None, though `buf` has room, means that the file has no byte there.
    ///
    /// A missing file is a fault.
    fn read(&mut self, name: &str, at: u64, buf: &mut [u8]) -> Result<usize, Failed>
        ensures bound { IfOk result (λ k. k ≤ length buf.new) }
        ensures given { IfOk result (λ k.
            ForSome (contents self.old) (λ files. Gives (files name.now) at k buf.new)) }
        ensures unchanged { contents self.new ≡ contents self.old }
        ensures cause { CountsFaults name.now (faults self.old) (faults self.new) result };
}

/// Takes bytes, piece by piece.
pub trait Sink {
    /// The bytes taken so far, where they are told.
    ghost taken: { Self → Option (List ℕ) };

    /// How often a write has failed, up to 2^64 - 1.
    ghost faults: { Self → ℕ };

    /// How many more bytes it is certain to take without a fault; 0 where nothing is known, as where an
    /// implementation leaves it out.
    ghost room: { Self → ℕ } = { λ _. 0 };

    /// Takes bytes from the front of the piece, at least one where there is one, and says how many.
    fn write(&mut self, bytes: &[u8]) -> Result<usize, Failed>
        ensures bound { IfOk result (λ k. k ≤ length bytes.now) }
        ensures some { IfOk result (λ k. 0 < length bytes.now → 0 < k) }
        ensures took { IfOk result (λ k.
            Appends (taken self.old) (taken self.new) (take k bytes.now)) }
        ensures failed { OnErr result (Keeps (taken self.old) (taken self.new)) }
        ensures cause { CountsFault (faults self.old) (faults self.new) result }

        // What is certain to fit is taken, and uses up no more room than it fills.
        ensures certain { 0 < length bytes.now → length bytes.now ≤ room self.old → IsOk result }
        ensures left { IfOk result (λ k. room self.old ≤ room self.new + k) };
}

ghost use Rattle.std.specs.Prelude.{◌≡◌, ◌<◌, ◌↔◌, IsTrue, false};

/// How many cases agree with what came, and how many don't; both end at 2^64 - 1.
#[derive(Clone, Copy, Debug)]
pub struct Tally {
    pub agree: u64,
    pub differ: u64,
}

impl Tally {
    pub fn new() -> Self
        ensures agree { result.agree ≡ 0 }
        ensures differ { result.differ ≡ 0 }
    {
        Tally {
            agree: 0,
            differ: 0,
        }
    }

    /// Counts one more case.
    pub fn count(&mut self, agrees: bool)
        ensures agrees { IsTrue agrees → self.new.differ ≡ self.old.differ }
        ensures differs { agrees ≡ false → 0 < self.new.differ }
    {
        if agrees {
            self.agree = self.agree.saturating_add(1);
        } else {
            self.differ = self.differ.saturating_add(1);
        }
    }

    /// The exit status: 0 only where none differs.
    pub fn status(&self) -> u8
        ensures { (result ≡ 0) ↔ (self.now.differ ≡ 0) }
    {
        if self.differ == 0 { 0 } else { 1 }
    }
}

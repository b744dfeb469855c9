ghost use Rattle.std.specs.Prelude.{◌≡◌, ◌≤◌, IsOk};
ghost use Rattle.kf_frac.specs.Fractions.{limit};
ghost use Rattle.kf_core.specs.Checked.{IsChecked};
ghost use Rattle.kf_core.specs.Views.{program_tree};
ghost use Rattle.kf_core.specs.Scale.{scale_of};
ghost use Rattle.kf_core.specs.Support.{program_pass};

use kf_core::Program;

/// A checked program that meets no fault, where each loop has at most so many turns, with its scale.
#[derive(Drop)]
pub struct Cleared {
    pub(crate) program: Program,
    pub(crate) turns: u32,
    pub(crate) scale: u128,
    pub ghost checked: { ∥ IsChecked (program_tree program) ∥₁ },
    pub ghost some_turns: { 1 ≤ turns },
    pub ghost few_turns: { turns ≤ 65535 },
    pub ghost clear: { IsOk (program_pass turns (program_tree program)) },
    pub ghost scale_is: { scale ≡ scale_of turns (program_tree program) },
    pub ghost fits: { scale ≤ limit },
}

impl Cleared {
    ghost use Rattle.kf_support.specs.Cleared.{program_of, turns_of, whole_scale};

    /// The program.
    pub fn program(&self) -> &Program
        ensures { result.now ≡ program_of self.now }
    {
        &self.program
    }

    /// How many turns a loop may have.
    pub fn turns(&self) -> u32
        ensures { result ≡ turns_of self.now }
    {
        self.turns
    }

    /// The least common multiple of the scales of all runs.
    pub fn scale(&self) -> u128
        ensures { result ≡ whole_scale self.now }
    {
        self.scale
    }
}

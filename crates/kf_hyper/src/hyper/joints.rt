ghost use Rattle.std.specs.Prelude.{◌≡◌, ◌<◌, ℕ, IfOk, length};
ghost use Rattle.kf_value.specs.Numbers.{target_size};
ghost use Rattle.kf_column.specs.Columns.{weight_at, total};
ghost use Rattle.kf_column.specs.Averages.{joint_weight, average_weight};
ghost use Rattle.kf_column.specs.Shapes.{IsBelow};
ghost use Rattle.kf_hyper.specs.Views.{inners_of, inner_at, scale_of, target_of};

use super::Hyper;
use crate::Column;
use crate::unsorted::{gathered, push_times};
use kf_frac::quotient;
use kf_value::Mem;
use std::alloc::Global;

impl Hyper {
    /// The joint weight of the posterior `i` and the value `x`, over the hyper's scale: 0 where the posterior
    /// holds the value impossible.
    pub fn weight(&self, i: usize, x: u64) -> u128
        requires { i < length (inners_of self.now) }
        ensures { result ≡ joint_weight x (inner_at self.now i) }
    {
        let class = &self.classes[i];
        let multiple = quotient(class.total, class.whole);
        class.inner.weight(x) * multiple
    }

    /// The sum of all joint columns: the weights that the values have before anything is known, over the scale.
    pub fn average(&self, alloc: Global) -> Result<Column, Mem>
        ensures weights { IfOk result (λ column. (x : ℕ) → weight_at column x ≡ average_weight (inners_of self.now) x) }
        ensures total { IfOk result (λ column. total column ≡ scale_of self.now) }
        ensures below { IfOk result (IsBelow (target_size (target_of self.now))) }
    {
        let mut entries = Vec::new(alloc);
        for class in &self.classes {
            let times = quotient(class.total, class.whole);
            push_times(&mut entries, class.inner.entries().as_slice(), times)?;
        }
        Ok(gathered(entries))
    }
}

ghost use Rattle.std.specs.Prelude.{◌≡◌, ◌<◌, length, pos, List};
ghost use Rattle.kf_frac.specs.Fractions.{reduced_num, reduced_den};
ghost use Rattle.kf_frac.specs.Views.{num_of, den_of};
ghost use Rattle.kf_value.specs.Numbers.{target_size};
ghost use Rattle.kf_value.specs.Views.{items_of};
ghost use Rattle.kf_column.specs.Columns.{total};
ghost use Rattle.kf_hyper.specs.Views.{entry_at, inners_of, inner_at, scale_of, target_of};
ghost use Rattle.kf_column.specs.Shapes.{IsBelow, IsShape};

use super::Hyper;
use crate::Column;
use kf_frac::{Frac, share};
use kf_value::Target;

impl Hyper {
    /// How many inners there are.
    pub fn count(&self) -> usize
        ensures { result ≡ length (inners_of self.now) }
    {
        self.classes.len()
    }

    /// What a total is divided by to give an outer.
    pub fn scale(&self) -> u128
        ensures kept { result ≡ scale_of self.now }
        ensures shape { IsShape (target_size (target_of self.now)) (scale_of self.now) (inners_of self.now) }
    {
        self.scale
    }

    /// That it has the shape which its type promises. It does nothing when it runs.
    pub fn has_shape(&self)
        ensures { IsShape (target_size (target_of self.now)) (scale_of self.now) (inners_of self.now) }
    {}

    /// What the values of the inners are values of.
    pub fn target(&self) -> &Target
        ensures { items_of result.now ≡ target_of self.now }
    {
        &self.target
    }

    /// The inner with the number `i`, from 0: its values with whole weights without common factor.
    pub fn inner(&self, i: usize) -> &Column
        requires { i < length (inners_of self.now) }
        ensures kept { result.now ≡ (inner_at self.now i).entries }
        ensures within { IsBelow (target_size (target_of self.now)) result.now }
    {
        &self.classes[i].inner
    }

    /// The sum of the weights of all columns with the posterior `i`: its outer times the scale.
    pub fn total(&self, i: usize) -> u128
        requires { i < length (inners_of self.now) }
        ensures { result ≡ (inner_at self.now i).total }
    {
        self.classes[i].total
    }

    /// The probability of the posterior `i`.
    pub fn outer(&self, i: usize) -> Frac
        requires { i < length (inners_of self.now) }
        ensures num { num_of result ≡ reduced_num (pos (inner_at self.now i).total) (scale_of self.now) }
        ensures den { den_of result ≡ reduced_den (pos (inner_at self.now i).total) (scale_of self.now) }
    {
        share(self.classes[i].total, self.scale)
    }

    /// The probability that the posterior `i` gives to its `k`-th value, from 0.
    pub fn chance(&self, i: usize, k: usize) -> Frac
        requires inner { i < length (inners_of self.now) }
        requires entry { k < length (inner_at self.now i).entries }
        ensures num { num_of result ≡ reduced_num (pos (entry_at (inner_at self.now i).entries k).weight) (total (inner_at self.now i).entries) }
        ensures den { den_of result ≡ reduced_den (pos (entry_at (inner_at self.now i).entries k).weight) (total (inner_at self.now i).entries) }
    {
        let class = &self.classes[i];
        let entry = &class.inner.entries().as_slice()[k];
        share(entry.weight, class.whole)
    }
}

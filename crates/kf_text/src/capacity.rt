ghost use Rattle.std.specs.Prelude.{◌≡◌, ◌++◌, OnOk, IfOk, codes, decimal, length, pos};
ghost use Rattle.kf_frac.specs.Parts.{IsFraction};
ghost use Rattle.kf_capacity.specs.Grids.{GridTree, capacity_of};
ghost use Rattle.kf_capacity.specs.Views.{grid_tree};
ghost use Rattle.kf_text.specs.CapacityTexts.{capacity_text as text_of_capacity, algebra_text as text_of_algebra};
ghost use Rattle.kf_text.specs.CapacityViews.{own_algebra_lines, own_capacity_line};
ghost use Rattle.kf_text.specs.Texts.{line};

use crate::items::{print_count, print_fraction};
use kf_capacity::Grid;
use kf_frac::Frac;
use kf_value::Mem;
use std::alloc::Global;

/// The printed Bayes capacity of a channel.
pub fn capacity_text(alloc: Global, f: Frac) -> Result<Vec<u8>, Mem>
    ensures parts { IfOk result (λ text. text.items ≡ own_capacity_line f) }
    ensures numbers { (g : GridTree) → IsFraction f (pos (capacity_of g)) g.over → IfOk result (λ text. text.items ≡ text_of_capacity g) }
{
    let mut out = Vec::new(alloc);
    print_fraction(b"capacity ", f, &mut out)?;
    Ok(out)
}

// Appends how many rows and columns a grid has.
fn print_size(g: &Grid, out: &mut Vec<u8>) -> Result<(), Mem>
    ensures { OnOk result (out.new.items ≡ out.old.items ++ (line (codes "rows " ++ decimal (grid_tree g.now).rows)
        ++ line (codes "columns " ++ decimal (length (grid_tree g.now).columns)))) }
{
    print_count(b"rows ", g.rows(), out)?;
    print_count(b"columns ", g.columns(), out)
}

/// The printed size of two channels put together, and three capacities: that of the first, of the second, and of both.
pub fn algebra_text(
    alloc: Global,
    g: &Grid,
    first: Frac,
    second: Frac,
    both: Frac,
) -> Result<Vec<u8>, Mem>
    ensures parts { IfOk result (λ text. text.items ≡ own_algebra_lines (grid_tree g.now) first second both) }
    ensures numbers { (a b : GridTree) → IsFraction first (pos (capacity_of a)) a.over → IsFraction second (pos (capacity_of b)) b.over
        → IsFraction both (pos (capacity_of (grid_tree g.now))) (grid_tree g.now).over
        → IfOk result (λ text. text.items ≡ text_of_algebra a b (grid_tree g.now)) }
{
    let mut out = Vec::new(alloc);
    print_size(g, &mut out)?;
    print_fraction(b"first ", first, &mut out)?;
    print_fraction(b"second ", second, &mut out)?;
    print_fraction(b"both ", both, &mut out)?;
    Ok(out)
}

// The lines of values with their probabilities, in hypers and in tables of traces.
ghost use Rattle.std.specs.Prelude.{◌≡◌, ◌≤◌, ◌<◌, ◌++◌, OnOk, flat_map};
ghost use Rattle.kf_frac.specs.Fractions.{limit};
ghost use Rattle.kf_value.specs.Numbers.{target_size};
ghost use Rattle.kf_value.specs.Views.{items_of};
ghost use Rattle.kf_column.specs.Columns.{total};
ghost use Rattle.kf_column.specs.Shapes.{IsBelow};
ghost use Rattle.kf_text.specs.Endings.{line_end};
ghost use Rattle.kf_text.specs.Texts.{entry_line};

use crate::items::{print_fraction, print_line};
use kf_frac::share;
use kf_hyper::Entry;
use kf_value::{Mem, Target};
use std::alloc::Global;

// Puts the end of the line of a value with this weight in place of what `end` held: the value's probability.
fn set_end(weight: u128, whole: u128, end: &mut Vec<u8>) -> Result<(), Mem>
    requires part { weight ≤ whole }
    requires some { 0 < whole }
    requires narrow { whole ≤ limit }
    ensures { OnOk result (end.new.items ≡ line_end whole weight) }
{
    end.clear();
    print_fraction(b" ", share(weight, whole), end)
}

// Appends the lines of values with their weights over `whole`. For values of one weight in a row the end of the line is
// worked out once.
pub fn print_entries(
    alloc: Global,
    target: &Target,
    whole: u128,
    entries: &[Entry],
    out: &mut Vec<u8>,
) -> Result<(), Mem>
    requires within { IsBelow (target_size (items_of target.now)) entries.now }
    requires parts { total entries.now ≤ whole }
    requires some { 0 < whole }
    requires narrow { whole ≤ limit }
    ensures { OnOk result (out.new.items ≡ out.old.items ++ flat_map (entry_line (items_of target.now) whole) entries.now) }
{
    let mut weight = None;
    let mut end = Vec::new(alloc);
    for entry in entries {
        if weight != Some(entry.weight) {
            weight = Some(entry.weight);
            set_end(entry.weight, whole, &mut end)?;
        }
        print_line(alloc, target, entry.value, &end, out)?;
    }
    Ok(())
}

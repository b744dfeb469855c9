//! What is leaked, in one group for each value.

ghost use Rattle.std.specs.Prelude.{◌≡◌, ◌++◌, ◌∷◌, [], List, map, true, IfOk, IfSome};
ghost use Rattle.kf_run.specs.Groups.{AreGroupsOf, Ascend};
ghost use Rattle.kf_run.specs.Ways.{Way, leaked};

use crate::ways::Leak;
use kf_hyper::Entry;
use kf_value::{Mem, Value, compare};
use std::alloc::Global;

/// So many values may have a group.
const FEW: usize = 16;

/// A value that is leaked, and the stores behind it with their weights, in the order in which they came.
#[derive(Drop)]
pub struct Group<'a> {
    pub value: &'a Value,
    pub entries: Vec<Entry>,
}

/// Adds a leak to the group of its value, which begins with it if need be. `false` where that would be one group too many.
fn join<'a>(alloc: Global, groups: &mut Vec<Group<'a>>, leak: &'a Leak) -> Result<bool, Mem>
    requires ascend { Ascend groups.old.items }
    ensures { IfOk result (λ joined. joined ≡ true → (ways : List Way) → AreGroupsOf ways groups.old.items → AreGroupsOf (ways ++ leaked leak.now ∷ []) groups.new.items) }
{
    let entry = Entry {
        value: leak.to,
        weight: leak.weight,
    };
    match groups.binary_search_by(|group| compare(group.value, &leak.value)) {
        Ok(place) => groups[place].entries.push(entry)?,
        Err(place) => {
            if groups.len() >= FEW {
                return Ok(false);
            }
            let mut entries = Vec::new(alloc);
            entries.push(entry)?;
            groups.insert(
                place,
                Group {
                    value: &leak.value,
                    entries,
                },
            )?;
        }
    }
    Ok(true)
}

/// The leaks in groups, ascending by value, or `None` where they are of more than a few values.
pub fn groups_of<'a>(alloc: Global, leaks: &'a [Leak]) -> Result<Option<Vec<Group<'a>>>, Mem>
    ensures { IfOk result (λ found. IfSome found (λ groups. AreGroupsOf (map leaked leaks.now) groups.items)) }
{
    let mut groups = Vec::new(alloc);
    for leak in leaks {
        if !join(alloc, &mut groups, leak)? {
            return Ok(None);
        }
    }
    Ok(Some(groups))
}

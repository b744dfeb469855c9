//! Texts that differ.

ghost use Rattle.std.specs.Prelude.{◌≡◌, map, IfOk};
ghost use Rattle.kf_json.specs.Rules.{are_distinct as distinct};

use kf_value::Mem;
use std::alloc::Global;
use std::collections::BTreeSet;

/// Whether no two of the texts are equal.
pub fn are_distinct(alloc: Global, texts: Vec<&str>) -> Result<bool, Mem>
    ensures { IfOk result (λ b. b ≡ distinct (map (λ t. t.now) texts.entry.items)) }
{
    let mut seen = BTreeSet::new(alloc);
    for text in texts {
        if !seen.insert(text)? {
            return Ok(false);
        }
    }
    Ok(true)
}

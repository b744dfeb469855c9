ghost use Rattle.std.specs.Prelude.{◌≤◌, length};

use crate::TypeError;
use indexmap::IndexMap;
use kf_value::{Kind, Name};
use std::alloc::Global;

/// What is known of a variable.
#[derive(Drop)]
struct Named {
    kind: Kind,
    /// Whether it is declared by `vis`.
    visible: bool,
}

/// The variables that are known at a place of the source, in the order of their declarations.
#[derive(Drop)]
pub struct Names {
    variables: IndexMap<String, Named>,
    ghost few: { length variables.entries ≤ 32 },
}

impl Names {
    ghost use Rattle.std.specs.Prelude.{◌≡◌, ◌<◌, false, [], ◌∷◌, ◌++◌, get_or, MatchOption, OnOk, OnErr};
    ghost use Rattle.kf_value.specs.Views.{kind_tree};
    ghost use Rattle.kf_check.specs.Picks.{IsFound};
    ghost use Rattle.kf_check.specs.Variables.{IsUnknown};
    ghost use Rattle.kf_check.specs.Views.{known_in, flags_in};

    /// No variable is known.
    pub fn new(alloc: Global) -> Names
        ensures known { known_in result ≡ [] }
        ensures flags { flags_in result ≡ [] }
    {
        Names {
            variables: IndexMap::new(alloc),
        }
    }

    /// The variable of this name: its place, counted from 0, and its kind.
    pub fn find(&self, name: &str) -> Option<(u8, &Kind)>
        ensures { MatchOption result (IsUnknown (known_in self.now) name.now) (λ found. IsFound (known_in self.now) name.now found.0 (kind_tree found.1.now)) }
    {
        let (place, _, named) = self.variables.get_full(name)?;
        Some((place as u8, &named.kind))
    }

    /// Whether the variable at this place, counted from 0, is visible.
    pub fn is_visible(&self, slot: u8) -> bool
        ensures { result ≡ get_or (flags_in self.now) slot false }
    {
        match self.variables.get_index(usize::from(slot)) {
            Some((_, named)) => named.visible,
            None => false,
        }
    }

    /// One more variable, behind the others.
    pub fn push(
        &mut self,
        alloc: Global,
        name: &Name,
        kind: Kind,
        visible: bool,
    ) -> Result<(), TypeError>
        requires room { length (known_in self.old) < 32 }
        requires fresh { IsUnknown (known_in self.old) name.now }
        ensures added { OnOk result (known_in self.new ≡ known_in self.old ++ record { name = name.now; kind = kind_tree kind } ∷ []) }
        ensures flagged { OnOk result (flags_in self.new ≡ flags_in self.old ++ visible ∷ []) }
        ensures unchanged { OnErr result ((known_in self.new ≡ known_in self.old) × (flags_in self.new ≡ flags_in self.old)) }
        ensures memory { OnErr result (result ≡ Err TypeError.Mem) }
    {
        let text = name.as_str().to_string(alloc)?;
        self.variables.insert(text, Named { kind, visible })?;
        Ok(())
    }
}

ghost use Rattle.std.specs.Prelude.{◌≡◌, ◌≢◌, ◌≤◌, length, map, IfOk, IfErr};
ghost use Rattle.kf_value.specs.Kinds.{SetKind};
ghost use Rattle.kf_value.specs.Views.{kind_tree};
ghost use Rattle.kf_check.specs.Kinds.{IsCommon, IsPart};
ghost use Rattle.kf_check.specs.Picks.{HasNoCommon, HasNoPart, HasNoElement};

use crate::TypeError;
use crate::kinds::same_kind;
use kf_value::Kind;
use std::alloc::Global;

/// The kind that all members have, or Clash at `at`.
pub fn common_kind(alloc: Global, kinds: &[Kind], at: u32) -> Result<Kind, TypeError>
    requires { 1 ≤ length kinds.now }
    ensures ok { IfOk result (λ kind. IsCommon (map kind_tree kinds.now) (kind_tree kind)) }
    ensures err { IfErr result (λ e. e ≢ TypeError.Mem → (e ≡ TypeError.Clash at) × HasNoCommon (map kind_tree kinds.now)) }
{
    let first = &kinds[0];
    for kind in kinds {
        if !same_kind(kind, first) {
            return Err(TypeError::Clash { at });
        }
    }
    Ok(first.copy(alloc)?)
}

/// The kind of a tuple's part, counted from 0, or Clash at `at`.
pub fn part_kind(alloc: Global, kind: &Kind, k: u32, at: u32) -> Result<Kind, TypeError>
    ensures ok { IfOk result (λ part. IsPart (kind_tree kind.now) k (kind_tree part)) }
    ensures err { IfErr result (λ e. e ≢ TypeError.Mem → (e ≡ TypeError.Clash at) × HasNoPart (kind_tree kind.now) k) }
{
    match kind {
        Kind::Tuple(parts) => match parts.as_slice().get(k as usize) {
            Some(part) => Ok(part.copy(alloc)?),
            None => Err(TypeError::Clash { at }),
        },
        _ => Err(TypeError::Clash { at }),
    }
}

/// The kind of a set's elements, or Clash at `at`.
pub fn element_kind(alloc: Global, kind: &Kind, at: u32) -> Result<Kind, TypeError>
    ensures ok { IfOk result (λ element. kind_tree kind.now ≡ SetKind (kind_tree element)) }
    ensures err { IfErr result (λ e. e ≢ TypeError.Mem → (e ≡ TypeError.Clash at) × HasNoElement (kind_tree kind.now)) }
{
    match kind {
        Kind::Set(element) => Ok(element.copy(alloc)?),
        _ => Err(TypeError::Clash { at }),
    }
}

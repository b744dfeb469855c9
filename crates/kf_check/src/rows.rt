ghost use Rattle.std.specs.Prelude.{◌≡◌, ◌≢◌, ◌↔◌, length, map, IfOk, IfErr, IsTrue};
ghost use Rattle.kf_value.specs.Kinds.{KindTree};
ghost use Rattle.kf_value.specs.Views.{kind_tree};
ghost use Rattle.kf_ops.specs.Fitting.{Takes};
ghost use Rattle.kf_ops.specs.Places.{pattern_kind};
ghost use Rattle.kf_check.specs.Kinds.{IsResult};
ghost use Rattle.kf_check.specs.Picks.{HasNoResult};

use crate::TypeError;
use crate::kinds::same_kind;
use kf_ops::{Pat, operators, table_facts};
use kf_value::{Kind, Mem};
use std::alloc::Global;

/// The kind that a row's operator gives at arguments of these kinds, or Clash at `at`.
pub fn result_kind(alloc: Global, row: u8, kinds: &[Kind], at: u32) -> Result<Kind, TypeError>
    requires { Takes row (length kinds.now) }
    ensures ok { IfOk result (λ kind. IsResult row (map kind_tree kinds.now) (kind_tree kind)) }
    ensures err { IfErr result (λ e. e ≢ TypeError.Mem → (e ≡ TypeError.Clash at) × HasNoResult row (map kind_tree kinds.now)) }
{
    table_facts();
    let row = operators()[row as usize];
    let patterns = &row.args[..kinds.len()];
    let any = any_kind(alloc, patterns, kinds)?;
    if fits(patterns, &any, kinds) {
        Ok(kind_of_pattern(alloc, row.result, any)?)
    } else {
        drop(any);
        Err(TypeError::Clash { at })
    }
}

/// What `Any` stands for, if the kinds are those of the patterns.
fn any_kind(alloc: Global, patterns: &[Pat], kinds: &[Kind]) -> Result<Kind, Mem>
    requires { length patterns.now ≡ length kinds.now }
    ensures { IfOk result (λ found. (any : KindTree) → map kind_tree kinds.now ≡ map (pattern_kind any) patterns.now
        → map kind_tree kinds.now ≡ map (pattern_kind (kind_tree found)) patterns.now) }
{
    for i in 0..kinds.len() {
        match patterns[i] {
            Pat::Bool | Pat::Int => {}
            Pat::SetOfAny => {
                if let Kind::Set(element) = &kinds[i] {
                    return element.copy(alloc);
                }
            }
            _ => return kinds[i].copy(alloc),
        }
    }
    Ok(Kind::Bool)
}

/// Whether the kinds are those of the patterns.
fn fits(patterns: &[Pat], any: &Kind, kinds: &[Kind]) -> bool
    requires { length patterns.now ≡ length kinds.now }
    ensures { IsTrue result ↔ (map kind_tree kinds.now ≡ map (pattern_kind (kind_tree any.now)) patterns.now) }
{
    for i in 0..kinds.len() {
        if !is_pattern(patterns[i], any, &kinds[i]) {
            return false;
        }
    }
    true
}

/// Whether the kind is that of the pattern.
fn is_pattern(pattern: Pat, any: &Kind, kind: &Kind) -> bool
    ensures { IsTrue result ↔ (kind_tree kind.now ≡ pattern_kind (kind_tree any.now) pattern) }
{
    match pattern {
        Pat::Bool => matches!(kind, Kind::Bool),
        Pat::Int => matches!(kind, Kind::Int),
        Pat::SetOfAny => match kind {
            Kind::Set(element) => same_kind(element, any),
            _ => false,
        },
        _ => same_kind(kind, any),
    }
}

/// The kind of the pattern.
fn kind_of_pattern(alloc: Global, pattern: Pat, any: Kind) -> Result<Kind, Mem>
    ensures { IfOk result (λ kind. kind_tree kind ≡ pattern_kind (kind_tree any) pattern) }
{
    Ok(match pattern {
        Pat::Bool => Kind::Bool,
        Pat::Int => Kind::Int,
        Pat::SetOfAny => Kind::Set(Box::new(alloc, any)?),
        _ => any,
    })
}

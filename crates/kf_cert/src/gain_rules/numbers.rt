//! The actions of a gain table by the numbers of their values.

ghost use Rattle.std.specs.Prelude.{◌≡◌, All, IfOk, IfSome, None, true, false};
ghost use Rattle.std.specs.List.{AllZip, list_all};
ghost use Rattle.kf_cert.specs.Naming.{IsEntryOf, IsMade, NamesOnce, texts_of};
ghost use Rattle.kf_gain.specs.Tables.{is_value_text};
ghost use Rattle.kf_json.specs.Rules.{are_distinct as distinct};
ghost use Rattle.kf_value.specs.Views.{items_of};

use crate::{CertAction, CertEntry};
use kf_gain::{Action, GainEntry, GainEntryList};
use kf_json::are_distinct;
use kf_value::{Mem, Target, number_of};
use std::alloc::Global;

// The gains at the numbers of their values, or none where a text is not that of a value.
fn entries(
    alloc: Global,
    target: &Target,
    gains: &[CertEntry],
) -> Result<Option<Vec<GainEntry>>, Mem>
    ensures some { IfOk result (λ found. IfSome found (λ es. AllZip (IsEntryOf (items_of target.now)) gains.now es.items)) }
    ensures known { IfOk result (λ found. IfSome found (λ _. list_all (is_value_text (items_of target.now)) (texts_of gains.now) ≡ true)) }
    ensures none { IfOk result (λ found. found ≡ None → list_all (is_value_text (items_of target.now)) (texts_of gains.now) ≡ false) }
{
    let mut entries = Vec::new(alloc);
    for gain in gains {
        let Some(value) = number_of(alloc, target, gain.value.as_str())? else {
            return Ok(None);
        };
        entries.push(GainEntry {
            value,
            gain: gain.gain,
        })?;
    }
    Ok(Some(entries))
}

// Whether gains name no value twice.
fn names_once(alloc: Global, gains: &[CertEntry]) -> Result<bool, Mem>
    ensures { IfOk result (λ b. b ≡ distinct (texts_of gains.now)) }
{
    let mut texts = Vec::new(alloc);
    for gain in gains {
        texts.push(gain.value.as_str())?;
    }
    are_distinct(alloc, texts)
}

// An action by the numbers of its values, or none where a text is not that of a value, or a value is named twice.
fn action(alloc: Global, target: &Target, named: &CertAction) -> Result<Option<Action>, Mem>
    ensures some { IfOk result (λ found. IfSome found (IsMade (items_of target.now) named.now)) }
    ensures none { IfOk result (λ found. found ≡ None → NamesOnce (items_of target.now) named.now → ⊥) }
{
    if !names_once(alloc, named.gains.as_slice())? {
        return Ok(None);
    }
    let Some(mut entries) = entries(alloc, target, named.gains.as_slice())? else {
        return Ok(None);
    };
    entries.sort_unstable_by_key(|entry| entry.value);
    Ok(Some(Action {
        name: named.name.copy(alloc)?,
        gains: GainEntryList::new(entries),
    }))
}

/// The actions by the numbers of their values, or none where a text is not that of a value, or an action names one twice.
pub(super) fn actions(
    alloc: Global,
    target: &Target,
    named: &[CertAction],
) -> Result<Option<Vec<Action>>, Mem>
    ensures some { IfOk result (λ found. IfSome found (λ made. AllZip (IsMade (items_of target.now)) named.now made.items)) }
    ensures none { IfOk result (λ found. found ≡ None → All (NamesOnce (items_of target.now)) named.now → ⊥) }
{
    let mut actions = Vec::new(alloc);
    for one in named {
        let Some(made) = action(alloc, target, one)? else {
            return Ok(None);
        };
        actions.push(made)?;
    }
    Ok(Some(actions))
}

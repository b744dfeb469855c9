//! What stands in a JSON value, and what a look-up into one found.

ghost use Rattle.std.specs.Prelude.{◌≡◌, map};
ghost use Rattle.serde_json.specs.View.{view};
ghost use Rattle.kf_json.specs.Json.{has_keys as has_these, is_list as is_a_list, is_text as is_a_text, is_the_text as is_this_text, members as member_list, text_of, as_whole, whole_of};
ghost use Rattle.kf_json.specs.Seen.{seen};

use serde_json::{Number, Value};

/// Whether the value is an object with these keys, which differ, and no others.
pub fn has_keys(value: &Value, keys: &[&str]) -> bool
    ensures { result ≡ has_these (map (λ k. k.now) keys.now) (view value.now) }
{
    match value.as_object() {
        Some(object) => {
            object.len() == keys.len() && keys.iter().all(|key| value.get(*key).is_some())
        }
        None => false,
    }
}

/// Whether a list was found.
pub fn is_list(found: Option<&Value>) -> bool
    ensures { result ≡ is_a_list (seen found.entry) }
{
    match found {
        Some(value) => value.is_array(),
        None => false,
    }
}

/// The members of the list that was found; none where there is no list.
#[tactic(auto, using(crate::proofs::Viewing::members_listed))]
pub fn members(found: Option<&Value>) -> &[Value]
    ensures { map view result.now ≡ member_list (seen found.entry) }
{
    match found {
        Some(value) => match value.as_array() {
            Some(list) => list.as_slice(),
            None => &[],
        },
        None => &[],
    }
}

/// Whether a text was found.
pub fn is_text(found: Option<&Value>) -> bool
    ensures { result ≡ is_a_text (seen found.entry) }
{
    match found {
        Some(value) => value.is_string(),
        None => false,
    }
}

/// The text that was found; the empty one where there is none.
pub fn text(found: Option<&Value>) -> &str
    ensures { result.now ≡ text_of (seen found.entry) }
{
    match found {
        Some(value) => value.as_str().unwrap_or(""),
        None => "",
    }
}

/// The whole number that was found.
pub fn whole(found: Option<&Value>) -> Option<i128>
    ensures { result ≡ as_whole (seen found.entry) }
{
    match found {
        Some(value) => match value.as_number() {
            Some(number) => number.as_i128(),
            None => None,
        },
        None => None,
    }
}

/// The whole number that was found; 0 where there is none.
pub fn whole_or_zero(found: Option<&Value>) -> i128
    ensures { result ≡ whole_of (seen found.entry) }
{
    whole(found).unwrap_or(0)
}

/// Whether the text was found.
pub fn is_the_text(found: Option<&Value>, wanted: &str) -> bool
    ensures { result ≡ is_this_text wanted.now (seen found.entry) }
{
    match found {
        Some(value) => match value.as_str() {
            Some(text) => text == wanted,
            None => false,
        },
        None => false,
    }
}

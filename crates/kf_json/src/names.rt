//! Names in JSON files.

ghost use Rattle.std.specs.Prelude.{◌≡◌};
ghost use Rattle.std.specs.List.{list_all};
ghost use Rattle.kf_json.specs.Rules.{is_name as is_a_name, is_name_byte as is_a_name_byte};
ghost use Rattle.kf_json.specs.Seen.{seen};

use crate::values::{is_text, text};
use serde_json::Value;

/// Whether the byte may stand in a name.
fn is_name_byte(b: u8) -> bool
    ensures { result ≡ is_a_name_byte b }
{
    b.is_ascii_alphanumeric() || b == b'_' || b == b'-'
}

/// Whether the bytes may all stand in a name.
fn are_name_bytes(bytes: &[u8]) -> bool
    ensures { result ≡ list_all is_a_name_byte bytes.now }
{
    bytes.iter().all(|b| is_name_byte(*b))
}

/// Whether a name was found: a text of 1 to 64 ASCII letters, digits, `_` and `-`.
pub fn is_name(found: Option<&Value>) -> bool
    ensures { result ≡ is_a_name (seen found.entry) }
{
    let name = text(found);
    is_text(found) && 1 <= name.len() && name.len() <= 64 && are_name_bytes(name.as_bytes())
}

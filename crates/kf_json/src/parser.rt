//! The JSON value of some bytes.

ghost use Rattle.std.specs.Prelude.{◌≡◌, ◌≢◌, None, Some, IfOk, IfErr};
ghost use Rattle.serde_json.specs.View.{view};
ghost use Rattle.kf_json.specs.declared.parser.JsonError.TheVariants as errors;
ghost use Rattle.kf_json.specs.Json.{json_of};

use serde_json::{Category, Value};
use std::alloc::Global;

/// Why bytes have no JSON value.
#[derive(Clone, Copy, Debug, PartialEq, Eq)]
pub enum JsonError {
    /// They are no JSON.
    Malformed,
    /// Want of memory.
    Mem,
}

/// The JSON value of the bytes.
pub fn parse(alloc: Global, bytes: &[u8]) -> Result<Value, JsonError>
    ensures ok { IfOk result (λ v. json_of bytes.now ≡ Some (view v)) }
    ensures err { IfErr result (λ e. e ≢ errors.Mem → json_of bytes.now ≡ None) }
{
    match Value::from_slice(alloc, bytes) {
        Ok(value) => Ok(value),
        Err(e) => match e.classify() {
            Category::Memory => Err(JsonError::Mem),
            _ => Err(JsonError::Malformed),
        },
    }
}

//! The value of a body.
ghost use Rattle.std.specs.Prelude.{◌≡◌, codes, Some, None, IfErr, IfOk};
ghost use Rattle.serde_json.specs.View.{view};
ghost use Rattle.web_json.specs.Bodies.{kind_in};
ghost use Rattle.web_json.specs.Values.{has_len, value_of as value_of_body};

use crate::error::BodyError;
use format_kinds::{Kind, kind_named};
use serde_json::Value;
use std::alloc::Global;

/// The JSON value of a body.
pub fn value_of(alloc: Global, body: &[u8]) -> Result<Value, BodyError>
    ensures value { IfOk result (λ value. value_of_body body.now ≡ Some (view value)) }
    ensures none { IfErr result (λ e. e ≡ BodyError.NotFiling → value_of_body body.now ≡ None) }
{
    match Value::from_slice(alloc, body) {
        Ok(value) => Ok(value),
        Err(error) => {
            if error.is_memory() {
                Err(BodyError::NoMemory)
            } else {
                Err(BodyError::NotFiling)
            }
        }
    }
}

/// Whether a value is an object of so many members.
pub fn has_members(value: &Value, count: usize) -> bool
    ensures { result ≡ has_len count (view value.now) }
{
    match value.as_object() {
        Some(members) => members.len() == count,
        None => false,
    }
}

/// The kind that a value names.
pub fn kind_of_value(value: &Value) -> Option<Kind>
    ensures { result ≡ kind_in (view value.now) }
{
    let name = value.get("kind")?.as_str()?;
    kind_named(name.as_bytes())
}

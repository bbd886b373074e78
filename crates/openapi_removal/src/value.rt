//! The JSON value of a text.
ghost use Rattle.std.specs.Prelude.{◌≡◌, IfOk, Some};
ghost use Rattle.json.specs.Value.{value_view};
ghost use Rattle.openapi_json.specs.Ordered.{parsed};

use crate::fault::Failure;
use json::{Error, Reader, Scratch, Value};
use std::alloc::Global;

/// How deep arrays and objects may be nested, as for `serde_json`.
const MAX_DEPTH: usize = 127;

/// Reads a text as a JSON value, as it is written: an object has its members in order, also those whose name comes again, and a number
/// is its text. The text is one that was read before, or what is left of one, so if it is no JSON the error is internal.
pub(crate) fn read_value<'a>(
    alloc: Global,
    text: &'a str,
    scratch: &'a mut Scratch,
) -> Result<Value<'a>, Failure>
    ensures { IfOk result (λ v. parsed text.now ≡ Some (value_view v)) }
{
    let mut reader = Reader::new(text, scratch)?;
    let value = match Value::read(alloc, &mut reader, MAX_DEPTH) {
        Ok(value) => value,
        Err(Error::OutOfMemory) => return Err(Failure::Memory),
        Err(_) => return Err(Failure::Internal),
    };
    if reader.next().is_some() {
        return Err(Failure::Internal);
    }
    Ok(value)
}

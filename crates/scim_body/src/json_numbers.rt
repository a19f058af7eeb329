//! Reads JSON numbers.
ghost use Rattle.std.specs.Prelude.{◌≡◌, Some, None, IfOk};
ghost use Rattle.json.specs.Print.{IsNumber};
ghost use Rattle.serde_json.specs.Read.{number_of};
ghost use Rattle.serde_json.specs.View.{number_view};
ghost use Rattle.scim_text.specs.Failures.{OnFault};

use crate::json_reading::NotJson;
use scim_text::Failed;
use serde_json::{Number, Value};
use std::alloc::Global;

/// Reads `text`, which must be a JSON number. Returns a 64-bit integer if the number fits one, else the
/// nearest float.
///
/// Fails with `NotJson` if the number is too large for a float.
pub(crate) fn read_number(alloc: Global, text: &str) -> Result<Number, Failed<NotJson>>
    requires { IsNumber text.now }
    ensures number { IfOk result (λ n. number_of text.now ≡ Some (number_view n)) }
    ensures too_large { OnFault result (number_of text.now ≡ None) }
{
    match Value::from_str(alloc, text) {
        Ok(value) => match value.as_number() {
            Some(number) => Ok(*number),
            None => Err(Failed::Because(NotJson)),
        },
        Err(error) => {
            if error.is_memory() {
                Err(Failed::NoMemory)
            } else {
                Err(Failed::Because(NotJson))
            }
        }
    }
}

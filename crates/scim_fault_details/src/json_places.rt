//! Where a text stops being JSON.
ghost use Rattle.std.specs.Prelude.{◌≡◌, ◌≤◌, None, Some, IfOk};
ghost use Rattle.serde_json.specs.Read.{read};
ghost use Rattle.serde_json.specs.View.{view};
ghost use Rattle.scim_text.specs.Failures.{OnFault};

use scim_text::Failed;
use serde_json::Value;
use std::alloc::Global;
use std::fmt;

/// The place at which a text stops being JSON.
#[derive(Clone, Copy)]
pub(crate) struct JsonPlace {
    /// From 1.
    line: usize,
    /// The number of the byte in its line, from 1.
    column: usize,
    /// Whether the text is the beginning of JSON, and ends here.
    is_cut: bool,
}

impl fmt::Display for JsonPlace {
    fn fmt<W: fmt::Write>(&self, f: &mut fmt::Formatter<W>) -> fmt::Result {
        let line = self.line;
        let column = self.column;
        let what = if self.is_cut {
            "the JSON is cut off"
        } else {
            "no JSON from here on"
        };
        write!(f, "line {line}, column {column}: {what}")
    }
}

/// Parses the JSON value of a text (RFC 8259).
///
/// Fails with the place at which the text stops being JSON. A number that doesn't fit a double and more than
/// 127 levels of nesting are no JSON here.
pub(crate) fn parse(alloc: Global, text: &str) -> Result<Value, Failed<JsonPlace>>
    ensures value { IfOk result (λ v. read text.now ≡ Some (view v)) }
    ensures no_json { OnFault result (read text.now ≡ None) }
{
    match Value::from_str(alloc, text) {
        Ok(value) => Ok(value),
        Err(error) if error.is_memory() => Err(Failed::NoMemory),
        Err(error) => Err(Failed::Because(JsonPlace {
            line: error.line(),
            column: error.column(),
            is_cut: error.is_eof(),
        })),
    }
}

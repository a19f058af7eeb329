//! The headers of a request, and look-up by name.
ghost use Rattle.std.specs.Prelude.{◌≡◌, map, IfOk};
ghost use Rattle.scim_wire.specs.Headers.{same_name, header_parts, texts, values_named};

use scim_text::{NoMemory, push};
use std::alloc::Global;

/// The name and the value of a header.
#[derive(Clone, Copy)]
pub struct Header<'b> {
    pub name: &'b [u8],
    pub value: &'b [u8],
}

/// Whether two header names are equal, ignoring ASCII case.
pub fn same_name(a: &[u8], b: &[u8]) -> bool
    ensures { result ≡ same_name a.now b.now }
{
    a.eq_ignore_ascii_case(b)
}

/// Returns the values of all headers with this name, in order.
pub fn values_named<'b>(
    alloc: Global,
    headers: &[Header<'b>],
    name: &[u8],
) -> Result<Vec<&'b [u8]>, NoMemory>
    ensures { IfOk result (λ v. texts v.items
        ≡ values_named name.now (map header_parts headers.now)) }
{
    let mut values = Vec::new(alloc);
    for header in headers {
        if same_name(header.name, name) {
            push(&mut values, header.value)?;
        }
    }
    Ok(values)
}

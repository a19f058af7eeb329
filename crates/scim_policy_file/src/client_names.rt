//! The names of clients, in policy files and token files.
ghost use Rattle.std.specs.Prelude.{◌≡◌, IfOk};
ghost use Rattle.std.specs.List.{list_all};
ghost use Rattle.scim_policy_file.specs.Paths as spec;

use scim_cell::Text;
use scim_policy::ClientName;
use scim_text::NoMemory;
use std::alloc::Global;

/// Whether the text may be a client's name: 1 to 64 ASCII letters, digits, `-`, `_` and `.`.
#[tactic(auto, unfolding(crate::specs::Paths::is_client_name))]
pub fn is_client_name(text: &str) -> bool
    ensures { result ≡ spec.is_client_name text.now }
{
    1 <= text.len() && text.len() <= 64 && has_only_client_bytes(text)
}

/// Whether all bytes may be part of a client's name.
fn has_only_client_bytes(text: &str) -> bool
    ensures { result ≡ list_all spec.is_client_byte text.now }
{
    text.as_bytes().iter().all(|byte| is_client_byte(*byte))
}

/// Whether the byte may be part of a client's name.
fn is_client_byte(byte: u8) -> bool
    ensures { result ≡ spec.is_client_byte byte }
{
    byte.is_ascii_alphanumeric() || byte == b'-' || byte == b'_' || byte == b'.'
}

/// Reads an entry of `clients`: `*` or a client's name. `None` if it is neither.
pub(crate) fn client_named(alloc: Global, text: &str) -> Result<Option<ClientName>, NoMemory>
    ensures { IfOk result (λ o. o ≡ spec.client_named text.now) }
{
    if text == "*" {
        Ok(Some(ClientName::Everyone))
    } else if is_client_name(text) {
        Ok(Some(ClientName::Named(Text::copy_of(alloc, text)?)))
    } else {
        Ok(None)
    }
}

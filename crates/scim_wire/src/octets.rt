//! Owned bytes that contracts see as a list.
ghost use Rattle.std.specs.Prelude.{◌≡◌, ℕ, List, IfOk};

use scim_text::NoMemory;
use std::alloc::Global;
use std::marker::Model;

/// Owned bytes.
#[derive(Drop)]
pub struct Octets {
    bytes: Vec<u8>,
}

impl Model for Octets {
    ghost Value = { List ℕ };

    ghost view = { λ o. o.bytes.items };
}

impl Octets {
    /// Copies the bytes.
    pub fn copied(alloc: Global, bytes: &[u8]) -> Result<Octets, NoMemory>
        ensures { IfOk result (λ o. o ≡ bytes.now) }
    {
        let bytes = Vec::from_slice(alloc, bytes)?;
        Ok(Octets { bytes })
    }

    /// Takes the bytes without copying them.
    pub fn of(bytes: Vec<u8>) -> Octets
        ensures { result ≡ bytes.items }
    {
        Octets { bytes }
    }

    /// Returns the bytes.
    pub fn as_slice(&self) -> &[u8]
        ensures { result.now ≡ self.now }
    {
        self.bytes.as_slice()
    }
}

//! Digests of tokens.
ghost use Rattle.std.specs.Prelude.{◌≡◌, option_map};
ghost use Rattle.sha2.specs.Sha256.{sha256};
ghost use Rattle.scim_token.specs.TokenFile as spec;

use hex::FromHex;
use sha2::{Digest as Hasher, Sha256};

/// The SHA-256 of a token (FIPS 180-4).
#[derive(Clone, Copy, PartialEq, Eq, Hash)]
pub(crate) struct Digest {
    bytes: [u8; 32],
}

impl Digest {
    /// Returns the digest of this token.
    pub(crate) fn of(token: &[u8]) -> Digest
        ensures { result.bytes ≡ sha256 token.now }
    {
        Digest {
            bytes: Sha256::digest(token),
        }
    }

    /// Reads a digest from 64 hex digits in upper or lower case. Returns `None` for any other text.
    pub(crate) fn read(text: &str) -> Option<Digest>
        ensures { option_map (λ d. d.bytes) result ≡ spec.digest_in text.now }
    {
        match <[u8; 32] as FromHex>::from_hex(text) {
            Ok(bytes) => Some(Digest { bytes }),
            Err(_) => None,
        }
    }
}

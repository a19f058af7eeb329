//! Makes tokens of random bytes.
ghost use Rattle.std.specs.Prelude.{◌≡◌, ℕ, true, List, IfOk, string_bytes};
ghost use Rattle.hex.specs.Hex.{encode_lower};
ghost use Rattle.sha2.specs.Sha256.{sha256};
ghost use Rattle.scim_policy_file.specs.Paths.{is_client_name};
ghost use Rattle.scim_new_token.specs.NewToken as spec;

use scim_text::NoMemory;
use sha2::{Digest, Sha256};
use std::alloc::Global;

/// The number of random bytes in a token.
pub const TOKEN_BYTES: usize = 32;

/// A new token of a client, and its line in a token file.
#[derive(Drop)]
pub struct NewToken {
    /// The token: 64 hex digits in lower case.
    pub token: String,
    /// The line: the client's name, a space, and the SHA-256 of the token in hex. It has no line feed.
    pub line: String,
}

impl NewToken {
    /// Returns the token with these random bytes, and its line for the client. The line has the form of a token file
    /// if the client's name is valid.
    pub fn of(alloc: Global, client: &str, bytes: &[u8; 32]) -> Result<NewToken, NoMemory>
        ensures token { IfOk result (λ new. string_bytes new.token ≡ encode_lower bytes.now) }
        ensures line { IfOk result (λ new. is_client_name client.now ≡ true
            → spec.IsLineOf client.now (string_bytes new.token) (string_bytes new.line)) }
    {
        let token = hex::encode(alloc, bytes.as_slice())?;
        let digest = Sha256::digest(token.as_str().as_bytes());
        let line = line_with(alloc, client, digest.as_slice())?;
        Ok(NewToken { token, line })
    }
}

/// Returns the line of a token file for this client and the token with this SHA-256.
fn line_with(alloc: Global, client: &str, digest: &[u8]) -> Result<String, NoMemory>
    ensures { IfOk result (λ line. (token : List ℕ) → digest.now ≡ sha256 token
        → is_client_name client.now ≡ true
        → spec.IsLineOf client.now token (string_bytes line)) }
{
    let digits = hex::encode(alloc, digest)?;
    Ok(format!(in alloc; "{client} {digits}")?)
}

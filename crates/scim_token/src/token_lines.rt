//! Reads one line of a token file.
ghost use Rattle.std.specs.Prelude.{◌≡◌, Ok, Err, IfOk, IfErr};
ghost use Rattle.scim_token.specs.TokenFile as spec;
ghost use Rattle.scim_token.specs.code.Known.{entry_of};

use crate::digests::Digest;
use crate::faults::LineFault;
use scim_policy_file::is_client_name;

/// A client, and the digest of one of its tokens.
#[derive(Clone, Copy)]
pub(crate) struct TokenLine<'a> {
    pub(crate) client: &'a str,
    pub(crate) digest: Digest,
}

/// Whether the line is empty or a comment, which begins with `#`.
pub(crate) fn says_nothing(line: &str) -> bool
    ensures { result ≡ spec.says_nothing line.now }
{
    match line.as_bytes() {
        [] => true,
        [first, ..] => *first == b'#',
    }
}

/// Reads a line that is neither empty nor a comment. Fails with the first fault of the line, in the order of
/// [`LineFault`].
pub(crate) fn read_line(line: &str) -> Result<TokenLine<'_>, LineFault>
    ensures ok { IfOk result (λ l. spec.entry_in line.now ≡ Ok (entry_of l)) }
    ensures err { IfErr result (λ fault. spec.entry_in line.now ≡ Err fault) }
{
    let Some((client, digits)) = line.split_once(' ') else {
        return Err(LineFault::BadLine);
    };
    if !is_client_name(client) {
        return Err(LineFault::BadName);
    }
    match Digest::read(digits) {
        Some(digest) => Ok(TokenLine { client, digest }),
        None => Err(LineFault::BadDigest),
    }
}

//! The table of the clients' tokens.
ghost use Rattle.std.specs.Prelude.{◌≡◌, List, [], Ok, Err, OnOk, length, map};
ghost use Rattle.std.specs.Option.{option_map, option_copied};
ghost use Rattle.sha2.specs.Sha256.{sha256};
ghost use Rattle.scim_text.specs.Failures.{UnlessMemory, IfFault};
ghost use Rattle.scim_token.specs.TokenFile as spec;
ghost use Rattle.scim_token.specs.TokenFile.{Entry};
ghost use Rattle.scim_token.specs.Tokens.{Reads, Knows};
ghost use Rattle.scim_token.specs.code.Known.{entry_of};

use crate::digests::Digest;
use crate::faults::{LineFault, TokenFault};
use crate::token_lines::{TokenLine, read_line, says_nothing};
use scim_cell::Text;
use scim_schema::MOST_TOKENS;
use scim_text::Failed;
use std::alloc::Global;
use std::collections::HashMap;

/// The tokens of the clients, as SHA-256 digests. A client may have several tokens; a token belongs
/// to one client.
#[derive(Drop)]
pub struct Tokens {
    clients: HashMap<Digest, Text>,
}

impl Tokens {
    /// Reads a token file. It has one line for each token: the client's name, one space, and the
    /// SHA-256 of the token in 64 hex digits in upper or lower case. Lines end in LF; a CR before the LF
    /// belongs to the line. Empty lines and lines that begin with `#` are skipped.
    ///
    /// Fails with the number of the first faulty line and the first fault of that line, in the order of
    /// [`LineFault`].
    pub fn read(alloc: Global, text: &str) -> Result<Tokens, Failed<TokenFault>>
        ensures { UnlessMemory (Reads (spec.entries_in text.now)) result }
    {
        let lines = text.split('\n').collect::<Vec<&str>>(alloc)?;
        Tokens::of_lines(alloc, lines.as_slice())
    }

    /// Reads the lines of a token file. Fails with the first faulty line and the first fault of that line.
    fn of_lines(alloc: Global, lines: &[&str]) -> Result<Tokens, Failed<TokenFault>>
        ensures { UnlessMemory (Reads (spec.entries_from 1 [] (map (λ l. l.now) lines.now)))
            result }
    {
        let mut tokens = Tokens {
            clients: HashMap::new(alloc),
        };
        for index in 0..lines.len() {
            match tokens.take_line(alloc, lines[index]) {
                Ok(()) => {}
                Err(Failed::Because(cause)) => {
                    let line = index + 1;
                    return Err(Failed::Because(TokenFault { line, cause }));
                }
                Err(Failed::NoMemory) => return Err(Failed::NoMemory),
            }
        }
        Ok(tokens)
    }

    /// Returns the name of the client with this token; `None` if no client has it. Doesn't store the token.
    pub fn client_of(&self, token: &[u8]) -> Option<&str>
        ensures { (entries : List Entry) → Knows entries self.now
            → option_copied result ≡ spec.client_with entries (sha256 token.now) }
    {
        let digest = Digest::of(token);
        self.clients.get(&digest).map(|client| client.as_str())
    }

    /// Returns the number of tokens.
    pub fn count(&self) -> usize
        ensures { (entries : List Entry) → Knows entries self.now → result ≡ length entries }
    {
        self.clients.len()
    }

    /// Returns the number, from 1, of the first line of a token file that has the digest of one of these tokens.
    /// Returns `None` if there is none; a line that is empty, a comment or faulty has no digest.
    pub fn first_shared(&self, text: &str) -> Option<usize>
        ensures { (entries : List Entry) → Knows entries self.now
            → result ≡ spec.first_shared entries text.now }
    {
        let before = text.split('\n').position(|line| self.shares(line))?;
        Some(before + 1)
    }

    /// Whether the line has the digest of one of these tokens.
    fn shares(&self, line: &str) -> bool
        ensures { (entries : List Entry) → Knows entries self.now
            → result ≡ spec.is_shared entries line.now }
    {
        if says_nothing(line) {
            return false;
        }
        match read_line(line) {
            Ok(entry) => self.clients.contains_key(&entry.digest),
            Err(_) => false,
        }
    }

    /// Reads a line and adds its entry. Ignores a line that is empty or a comment.
    ///
    /// Fails with the first fault of the line, if it has one; then the tokens are unchanged.
    fn take_line(&mut self, alloc: Global, line: &str) -> Result<(), Failed<LineFault>>
        ensures ok { OnOk result ((known : List Entry) → Knows known self.old → (next : List Entry)
            × (spec.after_line known line.now ≡ Ok next) × Knows next self.new) }
        ensures fault { IfFault result (λ fault. (known : List Entry) → Knows known self.old
            → spec.after_line known line.now ≡ Err fault) }
    {
        if says_nothing(line) {
            return Ok(());
        }
        match read_line(line) {
            Ok(entry) => self.add(alloc, entry),
            Err(fault) => Err(Failed::Because(fault)),
        }
    }

    /// Adds an entry.
    ///
    /// Fails with `Twice` if another entry has the same digest, or with `TooMany` if there are 10,000 entries
    /// already; then the tokens are unchanged.
    fn add(&mut self, alloc: Global, line: TokenLine<'_>) -> Result<(), Failed<LineFault>>
        ensures ok { OnOk result ((known : List Entry) → Knows known self.old → (next : List Entry)
            × (spec.added known (entry_of line.entry) ≡ Ok next) × Knows next self.new) }
        ensures fault { IfFault result (λ fault. (known : List Entry) → Knows known self.old
            → spec.added known (entry_of line.entry) ≡ Err fault) }
    {
        if self.clients.contains_key(&line.digest) {
            return Err(Failed::Because(LineFault::Twice));
        }
        if self.clients.len() == MOST_TOKENS {
            return Err(Failed::Because(LineFault::TooMany));
        }
        let client = Text::copy_of(alloc, line.client)?;
        self.clients.insert(line.digest, client)?;
        Ok(())
    }
}

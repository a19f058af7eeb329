//! What is wrong with a token file.
ghost use Rattle.std.specs.Prelude.{◌≡◌, IfOk, map, unwrap_or, slice_get, []};
ghost use Rattle.scim_token.specs.TokenFile.{entries_in};
ghost use Rattle.scim_fault_details.specs.TokenDetails as spec;
ghost use Rattle.scim_fault_details.specs.code.Borrowed.{text_at};

use crate::rule_words::CLIENT_NAMES;
use scim_schema::MOST_TOKENS;
use scim_text::{Failed, NoMemory};
use scim_token::{LineFault, TokenFault, Tokens};
use std::alloc::Global;
use std::fmt;

/// What is wrong with the first faulty line of a token file.
#[derive(Clone, Copy)]
pub(crate) struct TokenDetail {
    pub(crate) cause: LineFault,
    /// The number, from 1, of the first line with the same digest, if that is the fault.
    pub(crate) earlier: Option<usize>,
    /// Whether the line would be valid without the CR at its end.
    pub(crate) ends_in_cr: bool,
}

impl fmt::Display for TokenDetail {
    fn fmt<W: fmt::Write>(&self, f: &mut fmt::Formatter<W>) -> fmt::Result {
        match self.cause {
            LineFault::BadLine => f.write_str("no space between a client and a digest"),
            LineFault::BadName => {
                write!(
                    f,
                    "the text before the first space is no client name ({CLIENT_NAMES})"
                )
            }
            LineFault::BadDigest if self.ends_in_cr => f.write_str("the line ends in CR LF"),
            LineFault::BadDigest => {
                f.write_str("the text behind the first space is no digest of 64 hex digits")
            }
            LineFault::Twice => match self.earlier {
                Some(line) => write!(f, "the digest is that of line {line}"),
                None => f.write_str("the digest is that of an earlier line"),
            },
            LineFault::TooMany => write!(f, "more than {MOST_TOKENS} tokens"),
        }
    }
}

/// Returns what is wrong with a token file, or `None` if it is valid. The text repeats nothing of the file,
/// since a faulty line may hold a token.
pub fn tokens_detail(alloc: Global, text: &str) -> Result<Option<String>, NoMemory> {
    match find_token_detail(alloc, text)? {
        Some(detail) => Ok(Some(detail.to_string(alloc)?)),
        None => Ok(None),
    }
}

/// Returns what is wrong with the first faulty line of a token file, or `None` if the file is valid.
fn find_token_detail(alloc: Global, text: &str) -> Result<Option<TokenDetail>, NoMemory>
    ensures { IfOk result (spec.IsDetail text.now (entries_in text.now)) }
{
    match Tokens::read(alloc, text) {
        Ok(_) => Ok(None),
        Err(Failed::Because(fault)) => Ok(Some(detail_of(alloc, text, fault)?)),
        Err(Failed::NoMemory) => Err(NoMemory),
    }
}

/// Returns what is wrong with a token file that has this fault.
fn detail_of(alloc: Global, text: &str, fault: TokenFault) -> Result<TokenDetail, NoMemory>
    ensures { IfOk result (spec.IsDetailOf text.now fault) }
{
    let line = line_at(alloc, text, fault.line)?;
    Ok(TokenDetail {
        cause: fault.cause,
        earlier: earlier_line(alloc, text, line)?,
        ends_in_cr: ends_in_cr(alloc, line)?,
    })
}

/// Returns the line with this number, from 1, without its line feed. Returns the empty text if there is none.
fn line_at<'t>(alloc: Global, text: &'t str, number: usize) -> Result<&'t str, NoMemory>
    ensures { IfOk result (λ line. line.now ≡ spec.line_at number text.now) }
{
    let lines = text.split('\n').collect::<Vec<&str>>(alloc)?;
    Ok(nth_or_empty(lines.as_slice(), number.saturating_sub(1)))
}

/// The text at an index, or the empty text if there is none.
fn nth_or_empty<'t>(texts: &[&'t str], index: usize) -> &'t str
    ensures { result.now ≡ unwrap_or (slice_get (map text_at texts.now) index) [] }
{
    match texts.get(index) {
        Some(text) => text,
        None => "",
    }
}

/// Returns the number, from 1, of the first line of the file with the digest of this line. Returns `None` if
/// the line has no digest.
fn earlier_line(alloc: Global, text: &str, line: &str) -> Result<Option<usize>, NoMemory>
    ensures { IfOk result (λ n. n ≡ spec.shared_line text.now (entries_in line.now)) }
{
    match Tokens::read(alloc, line) {
        Ok(tokens) => Ok(tokens.first_shared(text)),
        Err(Failed::Because(_)) => Ok(None),
        Err(Failed::NoMemory) => Err(NoMemory),
    }
}

/// Whether the line ends in CR, and would be valid without it.
fn ends_in_cr(alloc: Global, line: &str) -> Result<bool, NoMemory> {
    let Some(line) = line.strip_suffix('\r') else {
        return Ok(false);
    };
    match Tokens::read(alloc, line) {
        Ok(_) => Ok(true),
        Err(Failed::Because(_)) => Ok(false),
        Err(Failed::NoMemory) => Err(NoMemory),
    }
}

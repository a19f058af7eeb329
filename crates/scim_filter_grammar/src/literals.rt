//! Reads the literals in a filter.
ghost use Rattle.std.specs.Prelude.{◌≡◌, ◌≤◌, ◌==◌, IfOk, length, slice_index};
ghost use Rattle.scim_filter_grammar.specs.Reading.{Gives, integer_of, number_of, word_literal, string_of, string_at, literal_at};

use crate::bytes::{is_keyword, skip_one, skip_string, split_word};
use crate::faults::ReadError;
use crate::string_literals::StringLiteral;
use crate::tree::Literal;
use scim_text::Failed;
use serde_json::Value;
use std::alloc::Global;
use std::str;

/// Whether a word begins with `+`, which JSON numbers may not.
fn starts_with_plus(word: &[u8]) -> bool
    ensures { result ≡ (slice_index word.now 0 == 43) }
{
    matches!(word, [b'+', ..])
}

/// The integer that a word spells, if it is one that fits a signed 64-bit integer.
fn integer(word: &[u8]) -> Option<i64>
    ensures { result ≡ integer_of word.now }
{
    if starts_with_plus(word) {
        return None;
    }
    match str::from_utf8(word) {
        Err(_) => None,
        Ok(text) => match text.parse::<i64>() {
            Ok(n) => Some(n),
            Err(_) => None,
        },
    }
}

/// Reads a word as an integer.
///
/// Fails with `Syntax(left)` if it isn't one; `left` is the number of unread bytes.
#[tactic(auto, unfolding(crate::specs::Reading::number_of))]
fn number(word: &[u8], left: usize) -> Result<Literal, Failed<ReadError>>
    ensures { Gives (λ x. x) result (number_of word.now) }
{
    match integer(word) {
        Some(n) => Ok(Literal::Number(n)),
        None => Err(Failed::Because(ReadError::Syntax(left))),
    }
}

/// Reads a word as `true`, `false`, `null` or a number.
///
/// Fails with `Syntax(left)` if it is none of these; `left` is the number of unread bytes.
#[tactic(auto, unfolding(crate::specs::Reading::word_literal))]
fn one_word(word: &[u8], left: usize) -> Result<Literal, Failed<ReadError>>
    ensures { Gives (λ x. x) result (word_literal word.now) }
{
    if is_keyword(b"true", word) {
        Ok(Literal::Truth(true))
    } else if is_keyword(b"false", word) {
        Ok(Literal::Truth(false))
    } else if is_keyword(b"null", word) {
        Ok(Literal::Null)
    } else {
        number(word, left)
    }
}

/// Reads a JSON string.
///
/// Fails with `Syntax(left)` if it isn't one; `left` is the number of unread bytes.
#[tactic(auto, unfolding(crate::specs::Reading::string_of))]
fn unquoted(alloc: Global, string: &[u8], left: usize) -> Result<StringLiteral, Failed<ReadError>>
    ensures { Gives (λ t. t) result (string_of string.now) }
{
    match Value::from_slice(alloc, string) {
        Ok(value) => match value.as_str() {
            Some(text) => Ok(StringLiteral::copy_of(alloc, text)?),
            None => Err(Failed::Because(ReadError::Syntax(left))),
        },
        Err(e) => {
            if e.is_memory() {
                Err(Failed::NoMemory)
            } else {
                Err(Failed::Because(ReadError::Syntax(left)))
            }
        }
    }
}

/// Reads the JSON string at the start, and returns it with the bytes after it.
#[tactic(auto, unfolding(crate::specs::Reading::string_at))]
fn quoted(alloc: Global, bytes: &[u8]) -> Result<(Literal, &[u8]), Failed<ReadError>>
    ensures gives { Gives (λ x. (x.0, x.1.now)) result (string_at bytes.now) }
    ensures shorter { IfOk result (λ x. length x.1.now ≤ length bytes.now) }
{
    let Some(rest) = skip_string(skip_one(bytes)) else {
        return Err(Failed::Because(ReadError::Syntax(bytes.len())));
    };
    let string = &bytes[..bytes.len() - rest.len()];
    let text = unquoted(alloc, string, bytes.len())?;
    Ok((Literal::Text(text), rest))
}

/// Reads the literal at the start, and returns it with the bytes after it.
///
/// Fails with `Syntax` if there is none.
#[tactic(auto, unfolding(crate::specs::Reading::literal_at))]
pub fn literal(alloc: Global, bytes: &[u8]) -> Result<(Literal, &[u8]), Failed<ReadError>>
    ensures gives { Gives (λ x. (x.0, x.1.now)) result (literal_at bytes.now) }
    ensures shorter { IfOk result (λ x. length x.1.now ≤ length bytes.now) }
{
    if let [b'"', ..] = bytes {
        return quoted(alloc, bytes);
    }
    let (word, rest) = split_word(bytes);
    Ok((one_word(word, bytes.len())?, rest))
}

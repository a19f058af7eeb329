//! Cuts a filter's text into tokens (RFC 7644 section 3.4.2.2).
ghost use Rattle.std.specs.Prelude.{◌≡◌, ◌≢◌, ◌<◌, ◌≤◌, List, ℕ, All, IfOk, IsErrOf, IfSome, option_map, length};
ghost use Rattle.scim_filter_grammar.specs.Bytes.{behind, is_word_byte};
ghost use Rattle.scim_filter_grammar.specs.Tokens.{past_token, Span, spans, Tokens, Unclosed, IsSlice};
ghost use Rattle.scim_text.specs.Failures.{IfFault};
ghost use Rattle.scim_text.specs.declared.memory.Failed.{Failed};
ghost use Rattle.scim_filter_grammar.specs.declared.faults.FilterFault.{FilterFault};

use crate::bytes::{skip_one, skip_string, split_word};
use crate::faults::FilterFault;
use scim_schema::LONGEST_FILTER;
use scim_text::{Failed, push};
use std::alloc::Global;

/// A token of a filter's text, from byte `start` up to but not including byte `end`.
#[derive(Clone, Copy)]
pub struct Token<'a> {
    pub start: usize,
    pub end: usize,
    /// The text of the token.
    pub slice: &'a str,
}

/// The bytes after a token whose first byte is `first`, which isn't a space. `others` are the bytes after
/// `first`.
///
/// `None` if the token is a string that isn't closed.
fn skip_token(first: u8, others: &[u8]) -> Option<&[u8]>
    ensures rest { option_map (λ r. r.now) result ≡ past_token first others.now }
    ensures shorter { IfSome result (λ r. length r.now ≤ length others.now) }
{
    match first {
        b'"' => skip_string(others),
        b'(' | b')' | b'[' | b']' => Some(others),
        _ => Some(split_word(others).1),
    }
}

/// Cuts a text into its tokens, in order: brackets, JSON strings, and runs of other bytes without spaces.
///
/// Fails with `Syntax(at)` if a string isn't closed; the string begins at byte `at`. Fails with `TooLong`
/// above 4,096 bytes.
pub fn read_tokens<'a>(alloc: Global, text: &'a str) -> Result<Vec<Token<'a>>, Failed<FilterFault>>
    // The result has all tokens of the text, in order, each with the part of the text from its start to its
    // end.
    ensures found { IfOk result (λ v. (length text.now ≤ LONGEST_FILTER)
        × Tokens (length text.now) text.now (spans v.items)) }
    ensures slices { IfOk result (λ v. All (IsSlice text.now) v.items) }
    // On `Syntax`, an unclosed string begins at byte `at`, so the text can't be cut into tokens.
    ensures syntax { IfFault result (λ e. (at : ℕ) → e ≡ FilterFault.Syntax at
        → (at < length text.now) × ((ts : List Span) → ¬ (Tokens (length text.now) text.now ts))) }
    ensures unclosed { IfFault result (λ e. (at : ℕ) → e ≡ FilterFault.Syntax at
        → Unclosed (length text.now) text.now at) }
    ensures too_long { IsErrOf result (Failed.Because FilterFault.TooLong)
        → LONGEST_FILTER < length text.now }
    ensures no_other { IfFault result (λ e. (e ≢ FilterFault.WrongType)
        × (e ≢ FilterFault.TooDeep)) }
{
    if text.len() > LONGEST_FILTER {
        return Err(Failed::Because(FilterFault::TooLong));
    }
    let mut tokens = Vec::new(alloc);
    let mut rest = text.as_bytes();
    while !rest.is_empty() {
        let first = rest[0];
        let others = skip_one(rest);
        if first == b' ' {
            rest = others;
            continue;
        }
        let start = text.len() - rest.len();
        let Some(behind) = skip_token(first, others) else {
            return Err(Failed::Because(FilterFault::Syntax(start)));
        };
        let end = text.len() - behind.len();
        let token = Token {
            start,
            end,
            slice: &text[start..end],
        };
        push(&mut tokens, token)?;
        rest = behind;
    }
    Ok(tokens)
}
